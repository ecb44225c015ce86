// The sheet, written from the activation records.
ghost use Rattle.std.specs.Prelude.{List, ◌∷◌, ◌++◌, ◌≡◌, ℕ, ◌+◌, ◌*◌, ◌≤◌, ◌<◌, ℤ, pos, length};
ghost use Rattle.language.specs.Call.{written};
ghost use Rattle.language.specs.Sheet.{sheet_share};
ghost use Rattle.frames.specs.Frame.{Frame, frame_sheet};
ghost use Rattle.run_sheet.specs.Held.{encloser_by, Held};
ghost use Rattle.run_sheet.specs.Shown.{Shown};
ghost use Rattle.chain_links.specs.Records.{blocks_in, nexts_in, links_in};

use chain_records::{Activation, read};
use layout::SHARE;
use numbers::from_u32;
use run_sheet::{encloser_of, write_activation};

// One activation from `at` on, whose record is given; what comes after it.
fn write_record(
    code: &[u32; 4096],
    cells: &[i32; 8224],
    activation: Activation,
    k: usize,
    sheet: &mut [i32],
    at: usize,
) -> usize
    requires { (k < 256) × ((number : ℕ) × (own : List ℤ) × Shown code.now cells.now activation.block activation.next (32 * k) number own
        × (at + 3 + length own ≤ length sheet.old) × (encloser_by k activation.link < 2147483648)) }
    ensures by_index { (number : ℕ) (own ws base : List ℤ) → Shown code.now cells.now activation.block activation.next (32 * k)
        number own → sheet.old ≡ written ws base → length ws ≡ at
        → (sheet.new ≡ written (ws ++ (pos (2 * activation.block) ∷ pos number ∷ pos (encloser_by k activation.link) ∷ own)) base) × (result ≡ at + 3 + length own) }
    ensures sheet_len_unchanged { length sheet.new ≡ length sheet.old }
{
    write_activation(
        code,
        cells,
        from_u32(activation.block),
        from_u32(activation.next),
        encloser_of(k, from_u32(activation.link)),
        SHARE * k,
        sheet,
        at,
    )
}

// The sheet of `live` activations, outermost first; how many words it takes.
pub fn write_sheet(
    code: &[u32; 4096],
    cells: &[i32; 8224],
    records: &[Activation],
    live: usize,
    sheet: &mut [i32],
) -> usize
    requires held { (fs : List Frame) × Held code.now cells.now (blocks_in records.now) (nexts_in records.now) (links_in records.now) fs × (length fs ≡ live) }
    requires live_in_bounds { live ≤ length records.now }
    requires live_in_bounds_2 { sheet_share * live ≤ length sheet.old }
    ensures { (fs : List Frame) → Held code.now cells.now (blocks_in records.now) (nexts_in records.now) (links_in records.now) fs
        → length fs ≡ live
        → (sheet.new ≡ written (frame_sheet fs) sheet.old) × (result ≡ length (frame_sheet fs)) }
{
    let mut at = 0;
    for k in 0..live {
        let activation = read(records, k);
        at = write_record(code, cells, activation, k, sheet, at);
    }
    at
}
