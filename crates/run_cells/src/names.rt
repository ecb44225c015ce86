// A name by the place of its word, and the first cell of the activation that declares it.
ghost use Rattle.std.specs.Prelude.{◌≡◌, ◌+◌, ◌<◌, get_or};
ghost use Rattle.resolved.specs.Resolved.{position_in};
ghost use Rattle.arrays.specs.Found.{cell_by, held_by};
ghost use Rattle.run_cells.specs.Finding.{Reachable, ThroughFormal};

use layout::{cell_of, formal_of, position_of};
use run_words::code_at;

// The name's own cell.
pub fn own(code: &[u32; 4096], place: usize, first: usize) -> usize
    requires { (place < 4096) × (first + position_in (get_or code.now place 0) < 8192) }
    ensures { (result ≡ first + position_in (get_or code.now place 0)) × (result < 8192) }
{
    first + position_of(code_at(code, place))
}

// What a formal holds: the cell of the name that it finally stands for, and what that leads to.
pub fn held(code: &[u32; 4096], cells: &[i32; 8224], place: usize, first: usize) -> usize
    requires { (place < 4096) × ThroughFormal cells.now first (get_or code.now place 0) }
    ensures { (result ≡ held_by cells.now first (get_or code.now place 0)) × (result < 2147483648) }
{
    run_words::whole(cells[own(code, place, first)])
}

// The cell of the declared name that the name finally stands for.
pub fn cell(code: &[u32; 4096], cells: &[i32; 8224], place: usize, first: usize) -> usize
    requires { (place < 4096) × Reachable cells.now first (get_or code.now place 0) }
    ensures { (result ≡ cell_by cells.now first (get_or code.now place 0)) × (result < 8192) }
{
    if formal_of(code_at(code, place)) == 0 {
        return own(code, place, first);
    }
    cell_of(held(code, cells, place, first))
}
