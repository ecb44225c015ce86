// The sheet, written from an engine's arrays: the resolved script, 32 words for each activation, the place of its block and of its next statement, its link.
#![tactic(auto)]

ghost use Rattle.std.specs.Prelude.{List, ◌∷◌, ◌++◌, ◌≡◌, ℕ, ◌+◌, ◌*◌, ◌<◌, ◌≤◌, ◌^◌, ℤ, pos, length, get_or};
ghost use Rattle.language.specs.Sheet.{sheet_share};
ghost use Rattle.language.specs.Call.{written};
ghost use Rattle.frames.specs.Frame.{Frame, frame_sheet};
ghost use Rattle.arrays.specs.Holds.{designator_of};
ghost use Rattle.resolved.specs.Layout.{cell_in};
ghost use Rattle.run_sheet.specs.Sizes.{plain_size, size_at, Readable};
ghost use Rattle.run_sheet.specs.Shown.{Counts, Countable, Owned, Shown};
ghost use Rattle.run_sheet.specs.Held.{encloser_by, Held};
ghost use Rattle.run_sheet.specs.Named.{looked_up_by, Nameable};

use layout::{
    BLOCK, CALL, SHARE, activation_of, cell_of, end_of, first_of, formal_of, formals_of, names_of,
    operation_of, position_of,
};
use numbers::from_u16;
use run_words::{code_at, whole, word_of};

// Four bits for each operation, from CONSTANT on: how many words its statement takes.
const SIZES: usize = 3617872862303704404;

// The designator of a cell.
#[tactic(auto, unfolding(arrays::specs::Holds::designator_of))]
pub fn designator_of(cell: usize) -> u32
    requires { cell < 8192 }
    ensures { (result ≡ designator_of cell) × (result < 32768) }
{
    (64 * (activation_of(cell) + 1) + (cell % SHARE + 1)) as u32
}

// The designator of the name with this word, declared in the activation whose cells begin at `first`; 0 where it has no word.
pub fn name_designator(cells: &[i32; 8224], first: usize, word: usize) -> u32
    requires { (word ≡ 0 → ⊥) → Nameable cells.now first word }
    ensures { result ≡ looked_up_by cells.now first word }
{
    if word == 0 {
        return 0;
    }
    if formal_of(word) == 0 {
        return designator_of(first + position_of(word));
    }
    designator_of(cell_of(whole(cells[first + position_of(word)])))
}

#[tactic(auto, unfolding(crate::specs::Sizes::plain_size))]
fn plain_size(operation: usize) -> usize
    requires { operation < 16 }
    ensures { (result ≡ plain_size operation) × (result < 16) }
{
    (SIZES >> (4 * operation)) % 16
}

// How many words a statement takes.
fn size_at(code: &[u32; 4096], at: usize) -> usize
    requires { Readable code.now at }
    ensures { (result ≡ size_at code.now at) × (result < 2 ^ 33) }
{
    let word = code_at(code, at);
    let operation = operation_of(word);
    if operation == BLOCK {
        return end_of(code_at(code, at + 1)) - at;
    }
    // CALL or CALL_FORMAL: their numbers alone are 7 but for a multiple of 8
    if word % 8 == CALL {
        return 3 + code_at(code, at + 2);
    }
    plain_size(operation)
}

// The number of the statement at a place, by walking there from the block's first one.
fn number_of(code: &[u32; 4096], block: usize, next: usize) -> usize
    requires { Countable code.now block next }
    ensures by_index { (n : ℕ) → Counts code.now block next n → result ≡ n }
    ensures upper_bound { result ≤ 4097 }
{
    let mut at = first_of(code_at(code, block + 1));
    let mut number = 1;
    while at < next {
        at += size_at(code, at);
        number += 1;
    }
    number
}

// A formal's word shows the designator of the name that it finally stands for.
fn formal_shown(word: i32) -> i32
    requires { (x : ℕ) × (word ≡ pos x) }
    ensures { (x : ℕ) → word ≡ pos x → result ≡ pos (designator_of (cell_in x)) }
{
    designator_of(cell_of(whole(word))) as i32
}

fn shown_word(cells: &[i32; 8224], first: usize, formals: usize, i: usize) -> i32
    requires { (own : List ℤ) × Owned cells.now first formals own × (i < length own) }
    ensures { (own : List ℤ) → Owned cells.now first formals own → i < length own → result ≡ get_or own i (pos 0) }
{
    if i < formals {
        return formal_shown(cells[first + i]);
    }
    cells[first + i]
}

fn write_names(
    cells: &[i32; 8224],
    first: usize,
    formals: usize,
    count: usize,
    sheet: &mut [i32],
    at: usize,
)
    requires owned { (own : List ℤ) × Owned cells.now first formals own × (length own ≡ count) }
    requires count_in_bounds { at + count ≤ length sheet.old }
    ensures sheet_after { (own ws base : List ℤ) → Owned cells.now first formals own → length own ≡ count → sheet.old ≡ written ws base → length ws ≡ at → sheet.new ≡ written (ws ++ own) base }
    ensures sheet_len_unchanged { length sheet.new ≡ length sheet.old }
{
    for i in 0..count {
        sheet[at + i] = shown_word(cells, first, formals, i);
    }
}

// The number of the activation that encloses activation k, by k's link; the program's link is none.
#[tactic(auto, unfolding(crate::specs::Held::encloser_by))]
pub fn encloser_of(k: usize, link: usize) -> usize
    requires { link < 4294967296 }
    ensures { result ≡ encloser_by k link }
{
    if k == 0 {
        return 0;
    }
    link + 1
}

// One activation from `at` on; what comes after it.
pub fn write_activation(
    code: &[u32; 4096],
    cells: &[i32; 8224],
    block: usize,
    next: usize,
    encloser: usize,
    first: usize,
    sheet: &mut [i32],
    at: usize,
) -> usize
    requires { (number : ℕ) × (own : List ℤ) × Shown code.now cells.now block next first number own × (at + 3 + length own ≤ length sheet.old) × (encloser < 2147483648) }
    ensures by_index { (number : ℕ) (own ws base : List ℤ) → Shown code.now cells.now block next first number own → sheet.old ≡ written ws base → length ws ≡ at → (sheet.new ≡ written (ws ++ (pos (2 * block) ∷ pos number ∷ pos encloser ∷ own)) base) × (result ≡ at + 3 + length own) }
    ensures sheet_len_unchanged { length sheet.new ≡ length sheet.old }
{
    let head = code_at(code, block);
    let names = names_of(head);
    sheet[at] = word_of(2 * block);
    sheet[at + 1] = word_of(number_of(code, block, next));
    sheet[at + 2] = word_of(encloser);
    write_names(cells, first, formals_of(head), names, sheet, at + 3);
    at + 3 + names
}

// The sheet of `live` activations, outermost first; how many words it takes.
pub fn write_sheet(
    code: &[u32; 4096],
    cells: &[i32; 8224],
    blocks: &[u16; 256],
    nexts: &[u16; 256],
    links: &[u16; 256],
    live: usize,
    sheet: &mut [i32],
) -> usize
    requires held { (fs : List Frame) × Held code.now cells.now blocks.now nexts.now links.now fs × (length fs ≡ live) }
    requires live_in_bounds { sheet_share * live ≤ length sheet.old }
    ensures { (fs : List Frame) → Held code.now cells.now blocks.now nexts.now links.now fs → length fs ≡ live → (sheet.new ≡ written (frame_sheet fs) sheet.old) × (result ≡ length (frame_sheet fs)) }
{
    let mut at = 0;
    for k in 0..live {
        at = write_activation(
            code,
            cells,
            from_u16(blocks[k]),
            from_u16(nexts[k]),
            encloser_of(k, from_u16(links[k])),
            SHARE * k,
            sheet,
            at,
        );
    }
    at
}
