// The statement at a place is done as far as cells go; where the run goes on is the answer.
ghost use Rattle.run_moves.specs.Acting.{scene_by, acting};
ghost use Rattle.run_statements.specs.Scenes.{Done};
ghost use Rattle.display_step.specs.Finding.{by_display};
ghost use Rattle.display_moves.specs.Running.{Doing};

use super::arms;
use layout::operation_of;
use run_moves::{Ask, Move};
use run_words::code_at;

pub fn act(
    code: &[u32; 4096],
    cells: &mut [i32; 8224],
    display: &[u16; 256],
    activations: usize,
    live: usize,
    at: usize,
) -> Move
    requires { Doing code.now cells.old display.now activations live at }
    ensures { Done (acting (by_display cells.old display.now) (scene_by code.now cells.old activations live at)) result cells.new }
{
    let operation = operation_of(code_at(code, at));
    match operation {
        layout::CONSTANT => arms::do_constant(code, cells, display, at),
        layout::ADD => arms::do_add(code, cells, display, at),
        layout::SUBTRACT => arms::do_subtract(code, cells, display, at),
        layout::COMPARE => arms::do_compare(code, cells, display, at),
        layout::BRANCH => arms::do_branch(code, cells, display, at),
        layout::GOTO => arms::do_goto(code, display, at),
        layout::BLOCK => run_statements::do_block(code, activations, live, at),
        layout::CALL => arms::do_call(code, cells, display, activations, live, at),
        layout::ADD_PAIR => arms::do_change(code, cells, display, at, Ask::Add),
        layout::REMOVE_PAIR => arms::do_change(code, cells, display, at, Ask::Remove),
        layout::QUERY => arms::do_query(code, cells, display, at),
        layout::CONSTANT_FORMAL => arms::do_constant_formal(code, cells, display, at),
        layout::ARITHMETIC_FORMAL => arms::do_arithmetic_formal(code, cells, display, at),
        layout::BRANCH_FORMAL => arms::do_branch_formal(code, cells, display, at),
        layout::GOTO_FORMAL => arms::do_goto_formal(code, cells, display, at),
        _ => arms::do_call_formal(code, cells, display, activations, live, at),
    }
}
