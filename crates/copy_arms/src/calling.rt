// CL.
ghost use Rattle.std.specs.Prelude.{◌≡◌, ◌+◌, ◌≤◌, leb};
ghost use Rattle.run_moves.specs.Acting.{set_all};
ghost use Rattle.resolved.specs.Layout.{cell_from};
ghost use Rattle.copy_names.specs.Owner.{Innermost};
ghost use Rattle.copy_arms.specs.Parts.{NameAt, ArgumentsAt, handed_word, handed_from, Callable, refused_by, refused_at, enter_at, handed_at, call_move, call_words, CallAt};

use super::fields::{field, named, named_by, target};
use copy_names::{first_of, start_of};
use language::Stop;
use layout::{CALL_FORMAL, SHARE, activation_of, cell_at, formals_of, held_word, operation_of};
use run_moves::Move;
use run_words::code_at;

// Whether there is cause 26: the called name is a formal as written, which the operation says, and so many arguments are not as the formals
// before the body.
fn refused(code: &[u32; 4096], at: usize, body: usize, count: usize) -> bool
    requires count_bound { at + 3 + count ≤ 4096 }
    requires callable { Callable code.now at body }
    ensures { result ≡ refused_by code.now at body count }
{
    if operation_of(code_at(code, at)) != CALL_FORMAL {
        return false;
    }
    if formals_of(code_at(code, body)) != count {
        return true;
    }
    !run_words::kinds_agree(code, at + 3, body - 3 * count, count)
}

// What an argument hands on: its cell, with what it leads to.
fn handed(
    area: &[u32],
    firsts: &[u32; 256],
    starts: &[u16; 256],
    targets: &[u16; 8224],
    live: usize,
    first: usize,
    start: usize,
    place: usize,
) -> i32
    requires innermost { Innermost firsts.now starts.now live first start }
    requires name_at { NameAt area.now firsts.now starts.now live place }
    ensures { result ≡ handed_word area.now firsts.now starts.now targets.now live place }
{
    let cell = named_by(area, firsts, starts, live, first, start, place);
    run_words::word_of(held_word(cell, target(targets, cell)))
}

// What the arguments from `place` on hand on goes to the first cells of the next activation.
fn arguments(
    cells: &mut [i32; 8224],
    area: &[u32],
    firsts: &[u32; 256],
    starts: &[u16; 256],
    targets: &[u16; 8224],
    live: usize,
    place: usize,
    count: usize,
)
    requires { (live ≤ 254) × ArgumentsAt area.now firsts.now starts.now live place count }
    ensures { cells.new ≡ set_all cells.old (cell_from live 32) (handed_from area.now firsts.now starts.now targets.now live place count) }
{
    let first = first_of(firsts, live);
    let start = start_of(starts, live);
    let to = cell_at(live, SHARE);
    for i in 0..count {
        cells[to + i] = handed(area, firsts, starts, targets, live, first, start, place + i);
    }
}

// 26 goes before 22.
pub fn do_call(
    code: &[u32; 4096],
    cells: &mut [i32; 8224],
    area: &[u32],
    firsts: &[u32; 256],
    starts: &[u16; 256],
    targets: &[u16; 8224],
    activations: usize,
    live: usize,
    place: usize,
    at: usize,
) -> Move
    requires { CallAt code.now area.now firsts.now starts.now targets.now activations live at place }
    ensures value { result ≡ call_move (refused_at code.now area.now firsts.now starts.now targets.now live at place) (leb activations (live + 1)) (enter_at area.now firsts.now starts.now targets.now live at place) }
    ensures cells_after { cells.new ≡ call_words (refused_at code.now area.now firsts.now starts.now targets.now live at place) (leb activations (live + 1)) cells.old (handed_at cells.old area.now firsts.now starts.now targets.now live place) }
{
    let procedure = named(area, firsts, starts, live, place + 1);
    let body = target(targets, procedure);
    let count = field(area, place + 2);
    if refused(code, at, body, count) {
        return Move::Stop(Stop::ArgumentsDiffer);
    }
    if activations <= live + 1 {
        return Move::Stop(Stop::NoActivationLeft);
    }
    arguments(cells, area, firsts, starts, targets, live, place + 3, count);
    Move::Enter(body, activation_of(procedure), at + 3 + count)
}
