// Texts copied in the copying area. The words of a block go from one activation's room to another's, and the names of the block entered become
// new ones on the way.
#![tactic(auto)]

ghost use Rattle.std.specs.Prelude.{◌≡◌, ℕ, ◌+◌, ◌*◌, ◌-◌, ◌/◌, ◌<◌, ◌≤◌, ◌^◌, length, get_or};
ghost use Rattle.laws.specs.Fields.{field_at};
ghost use Rattle.copy_texts.specs.Texts.{renewed, Copied, noted, noted_from};
ghost use Rattle.copy_texts.specs.Copying.{Renewable, Copyable};

use layout::{formal_of, level_of, position_of, target_of};
use numbers::from_u32;

// What a field becomes in a copy. A name of the level becomes a new one, or the argument's where it is a formal; all else is kept.
pub fn renew(area: &[u32], given: usize, level: usize, first: usize, word: usize, old: u32) -> u32
    requires { Renewable area.now given level first word }
    ensures { result ≡ renewed area.now given level first word old }
{
    if level_of(word) != level {
        return old;
    }
    if formal_of(word) == 1 {
        return area[given + position_of(word)];
    }
    (first + position_of(word)) as u32
}

// What a declared name of the level leads to is put into its cell.
fn note(targets: &mut [u16; 8224], lowest: usize, level: usize, word: usize)
    requires { (lowest + 32 ≤ 8224) × (word < 2 ^ 32) }
    ensures { targets.new ≡ noted targets.old lowest level word }
{
    if level_of(word) == level {
        if formal_of(word) == 0 {
            targets[lowest + position_of(word)] = target_of(word) as u16;
        }
    }
}

// The words of a text go from the room at `from` to the room at `to`.
pub fn copy_text(
    area: &mut [u32],
    names: &[u32; 4096],
    targets: &mut [u16; 8224],
    from: usize,
    to: usize,
    given: usize,
    level: usize,
    first: usize,
    lowest: usize,
    place: usize,
    end: usize,
)
    requires { Copyable area.old names.now from to given level first lowest place end }
    ensures copied { Copied area.old area.new names.now from to given level first place end }
    ensures targets_after { targets.new ≡ noted_from targets.old names.now lowest level place (end - place) }
{
    for q in place..end {
        let word = from_u32(names[q]);
        area[to + q] = renew(area, given, level, first, word, area[from + q]);
        note(targets, lowest, level, word);
    }
}

fn field(low: u8, high: u8) -> u32
    ensures { result ≡ low + 256 * high }
{
    u32::from(low) + 256 * u32::from(high)
}

// The script's fields stand at the start of the area, a word each.
pub fn fill(script: &[u8], area: &mut [u32])
    requires { length script.now / 2 ≤ length area.old }
    ensures by_index { (i : ℕ) → i < length script.now / 2 → get_or area.new i 0 ≡ field_at script.now (2 * i) }
    ensures area_len_unchanged { length area.new ≡ length area.old }
{
    for i in 0..script.len() / 2 {
        area[i] = field(script[2 * i], script[2 * i + 1]);
    }
}
