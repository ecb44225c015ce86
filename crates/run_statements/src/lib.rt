// The parts of statements that are the same for every engine, once names are found.
#![tactic(auto)]

ghost use Rattle.std.specs.Prelude.{◌≡◌, ◌+◌, ◌<◌, ◌≤◌, get_or, set};
ghost use Rattle.language.specs.Encoding.{signed};
ghost use Rattle.run_statements.specs.Pieces.{block_move, move_after};
ghost use Rattle.run_statements.specs.Beginning.{start_by};

use language::Stop;
use layout::{end_of, first_of};
use run_moves::Move;
use run_state::Registers;
use run_words::code_at;

mod membership;
mod moved;

pub use membership::{add, after, asked, query, remove};
pub use moved::{Moved, came_to};

// Where a program begins.
pub fn begin(code: &[u32; 4096], pairs: usize) -> Registers
    ensures { result ≡ start_by code.now pairs }
{
    let bounds = code_at(code, 1);
    Registers {
        live: 0,
        at: first_of(bounds),
        end: end_of(bounds),
        pairs,
        level: 0,
        fresh: 0,
    }
}

// KN, with its target's cell.
pub fn constant(code: &[u32; 4096], cells: &mut [i32; 8224], target: usize, at: usize) -> Move
    requires { (target < 8192) × (at + 4 ≤ 4096) }
    ensures { (result ≡ Move.On (at + 4)) × (cells.new ≡ set cells.old target (signed (get_or code.now (at + 2) 0))) }
{
    run_words::store(cells, target, run_words::signed(code_at(code, at + 2)));
    Move::On(at + 4)
}

// AR, with what the computation comes to.
#[tactic(auto, unfolding(crate::specs::Pieces::move_after))]
pub fn computed(effect: Result<(), Stop>, at: usize) -> Move
    requires { at + 5 ≤ 4096 }
    ensures { result ≡ move_after effect (at + 5) }
{
    match effect {
        Ok(()) => Move::On(at + 5),
        Err(cause) => Move::Stop(cause),
    }
}

// BK: the new activation is linked to the innermost one.
pub fn do_block(code: &[u32; 4096], activations: usize, live: usize, at: usize) -> Move
    requires { (at + 2 ≤ 4096) × (live ≤ 255) }
    ensures { result ≡ block_move code.now activations live at }
{
    if activations <= live + 1 {
        return Move::Stop(Stop::NoActivationLeft);
    }
    Move::Enter(at, live, end_of(code_at(code, at + 1)))
}
