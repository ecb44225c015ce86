// Where a name lies, by the display: entry j is the first cell of the enclosing activation of level j.
ghost use Rattle.std.specs.Prelude.{◌≡◌, ◌+◌, ◌<◌};
ghost use Rattle.arrays.specs.Found.{cell_by, held_by};
ghost use Rattle.display_step.specs.Finding.{first_cell, own_cell, Reachable, ThroughFormal};

use layout::{cell_of, formal_of, level_of, position_of};
use numbers::from_u16;

// The first cell of the activation in which the name with this word is declared.
pub fn first_cell(display: &[u16; 256], word: usize) -> usize
    ensures { (result ≡ first_cell display.now word) × (result < 65536) }
{
    from_u16(display[level_of(word)])
}

// The name's own cell.
pub fn own_cell(display: &[u16; 256], word: usize) -> usize
    ensures { (result ≡ own_cell display.now word) × (result < 65568) }
{
    first_cell(display, word) + position_of(word)
}

// What a formal holds: the cell of the name that it finally stands for, and what that leads to.
pub fn held(cells: &[i32; 8224], display: &[u16; 256], word: usize) -> usize
    requires { ThroughFormal cells.now display.now word }
    ensures { (result ≡ held_by cells.now (first_cell display.now word) word) × (result < 2147483648) }
{
    run_words::whole(cells[own_cell(display, word)])
}

// The cell of the declared name that the name with this word finally stands for.
pub fn cell(cells: &[i32; 8224], display: &[u16; 256], word: usize) -> usize
    requires { Reachable cells.now display.now word }
    ensures { result ≡ cell_by cells.now (first_cell display.now word) word }
{
    if formal_of(word) == 0 {
        return own_cell(display, word);
    }
    cell_of(held(cells, display, word))
}
