// What statements do once their names are found, for every engine: stores, sums, arguments, and the words of a new activation. An activation
// has 32 cells, one for each name; the array has room after them, so that clearing goes by four.
#![tactic(auto)]

ghost use Rattle.std.specs.Prelude.{◌≡◌, false, ◌+◌, ◌*◌, ◌<◌, ◌≤◌, ◌^◌, pos, get_or, set};
ghost use Rattle.std.specs.Int.Signed.{lt_z};
ghost use Rattle.language.specs.Encoding as encoding;
ghost use Rattle.language.specs.Text.{plus, minus, less};
ghost use Rattle.language.specs.Machine.{compute};
ghost use Rattle.run_moves.specs.Effects.{effect_of, cells_of, same_kinds, handed_word, Cleared};

use language::Stop;
use layout::{formal_of, held_word, kind_of, target_of};
use numbers::from_u32;

// A word of the resolved script.
pub fn code_at(code: &[u32; 4096], at: usize) -> usize
    requires { at < 4096 }
    ensures { (result ≡ get_or code.now at 0) × (result < 2 ^ 32) }
{
    from_u32(code[at])
}

// A word that is not negative.
pub fn whole(word: i32) -> usize
    requires { lt_z word (pos 0) ≡ false }
    ensures { (word ≡ pos result) × (result < 2147483648) }
{
    word as usize
}

pub fn word_of(x: usize) -> i32
    requires { x < 2147483648 }
    ensures { result ≡ pos x }
{
    x as i32
}

// KN's value, from its 32 bits.
pub fn signed(bits: usize) -> i32
    requires { bits < 4294967296 }
    ensures { result ≡ encoding.signed bits }
{
    if bits < 2147483648 {
        return bits as i32;
    }
    (bits as i64 - 4294967296) as i32
}

pub fn store(cells: &mut [i32; 8224], cell: usize, value: i32)
    requires { cell < 8192 }
    ensures { cells.new ≡ set cells.old cell value }
{
    cells[cell] = value;
}

// Where it fits a word.
fn keep(cells: &mut [i32; 8224], cell: usize, value: i64) -> Result<(), Stop>
    requires { cell < 8192 }
    ensures { (result ≡ effect_of value) × (cells.new ≡ cells_of cells.old cell value) }
{
    // By comparisons: with `try_from` a step of the display engine on a counting loop takes 40.6 instructions in place of 39.2.
    if -2147483648 <= value && value <= 2147483647 {
        cells[cell] = value as i32;
        return Ok(());
    }
    Err(Stop::ResultTooLarge)
}

// AR: the cells of target, left and right.
pub fn add(cells: &mut [i32; 8224], target: usize, left: usize, right: usize) -> Result<(), Stop>
    requires { (target < 8192) × (left < 8192) × (right < 8192) }
    ensures value { result ≡ effect_of (compute plus (get_or cells.old left (pos 0)) (get_or cells.old right (pos 0))) }
    ensures cells_after { cells.new ≡ cells_of cells.old target (compute plus (get_or cells.old left (pos 0)) (get_or cells.old right (pos 0))) }
{
    let value = i64::from(cells[left]) + i64::from(cells[right]);
    keep(cells, target, value)
}

pub fn subtract(
    cells: &mut [i32; 8224],
    target: usize,
    left: usize,
    right: usize,
) -> Result<(), Stop>
    requires { (target < 8192) × (left < 8192) × (right < 8192) }
    ensures value { result ≡ effect_of (compute minus (get_or cells.old left (pos 0)) (get_or cells.old right (pos 0))) }
    ensures cells_after { cells.new ≡ cells_of cells.old target (compute minus (get_or cells.old left (pos 0)) (get_or cells.old right (pos 0))) }
{
    let value = i64::from(cells[left]) - i64::from(cells[right]);
    keep(cells, target, value)
}

pub fn compare(cells: &mut [i32; 8224], target: usize, left: usize, right: usize)
    requires { (target < 8192) × (left < 8192) × (right < 8192) }
    ensures { cells.new ≡ set cells.old target (compute less (get_or cells.old left (pos 0)) (get_or cells.old right (pos 0))) }
{
    if cells[left] < cells[right] {
        cells[target] = 1;
    } else {
        cells[target] = 0;
    }
}

// What a call hands on of an argument with this word, whose own cell is given: the cell with what the name leads to, or a formal's word.
pub fn handed(cells: &[i32; 8224], word: usize, cell: usize) -> i32
    requires { (word < 2 ^ 32) × (cell < 8192) }
    ensures { result ≡ handed_word cells.now word cell }
{
    if formal_of(word) == 0 {
        return word_of(held_word(cell, target_of(word)));
    }
    cells[cell]
}

// Whether so many arguments, whose words stand from a place on, are of the kinds of the formals from another place on.
pub fn kinds_agree(code: &[u32; 4096], arguments: usize, formals: usize, count: usize) -> bool
    requires { (arguments + count ≤ 4096) × (formals + 3 * count ≤ 4096) }
    ensures { result ≡ same_kinds code.now arguments formals count }
{
    for i in 0..count {
        if kind_of(code_at(code, arguments + i)) != code_at(code, formals + 3 * i + 2) {
            return false;
        }
    }
    true
}

fn clear_more(cells: &mut [i32; 8224], from: usize, to: usize)
    requires { to ≤ 8192 }
    ensures { Cleared cells.old from to cells.new }
{
    for i in from..to {
        cells[i] = 0;
    }
}

// Cells become 0. Four at once, and more only where there are more: few names need no loop. Words after them are free.
pub fn clear(cells: &mut [i32; 8224], from: usize, to: usize)
    requires { (from ≤ 8192) × (to ≤ 8192) }
    ensures { Cleared cells.old from to cells.new }
{
    cells[from] = 0;
    cells[from + 1] = 0;
    cells[from + 2] = 0;
    cells[from + 3] = 0;
    if from + 4 < to {
        clear_more(cells, from + 4, to);
    }
}
