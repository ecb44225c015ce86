// What a statement comes to, and where a run goes on after it: for every engine.
#![tactic(auto)]

use language::Stop;

// What the membership table is asked: AD, RM and QY.
#[derive(Clone, Copy)]
pub enum Ask {
    Add,
    Remove,
    Query,
}

// Where a run goes on: at a place of the same activation, also once the table has answered, with the cells of group, member and QY's target; at a
// place of an activation further out, which becomes the innermost one; in a new activation of the block at a place, linked to an activation, with
// the place to come back to; or nowhere. Cells and not values: where a variant has words of another size, the compiler keeps a move in memory.
#[derive(Clone, Copy)]
pub enum Move {
    On(usize),
    Table(usize, usize, usize, usize, Ask),
    Jump(usize, usize),
    Enter(usize, usize, usize),
    Stop(Stop),
}
