// The statement at a place is done as far as cells go, by its mark in the copied text; where the run goes on is the answer.
#![tactic(auto)]

ghost use Rattle.std.specs.Prelude.{◌≡◌};
ghost use Rattle.run_moves.specs.Acting.{scene_by};
ghost use Rattle.copy_statements.specs.Doing.{doing};
ghost use Rattle.run_statements.specs.Moved.{moved_by};
ghost use Rattle.copy_statements.specs.Ready.{Ready};
ghost use Rattle.copy_statements.specs.Scenes.{copy_by};

use check_marks::{AD, AR, BK, CL, GO, IF, KN, RM};
use copy_arms::{do_arithmetic, do_branch, do_call, do_constant, do_goto, field};
use membership::{do_change, do_query};
use run_statements::{Moved, came_to, do_block};

mod membership;

pub fn act(
    code: &[u32; 4096],
    cells: &mut [i32; 8224],
    area: &[u32],
    base: usize,
    firsts: &[u32; 256],
    starts: &[u16; 256],
    targets: &[u16; 8224],
    activations: usize,
    live: usize,
    at: usize,
) -> Moved
    requires { Ready (copy_by area.now base firsts.now starts.now targets.now) (scene_by code.now cells.old activations live at) }
    ensures value { result ≡ moved_by (doing (copy_by area.now base firsts.now starts.now targets.now) (scene_by code.now cells.old activations live at)).move }
    ensures cells_after { cells.new ≡ (doing (copy_by area.now base firsts.now starts.now targets.now) (scene_by code.now cells.old activations live at)).cells }
{
    let place = base + at;
    let mark = field(area, place);
    match mark {
        AR => came_to(do_arithmetic(cells, area, firsts, starts, live, place, at)),
        IF => came_to(do_branch(cells, area, firsts, starts, targets, live, place, at)),
        KN => came_to(do_constant(cells, area, firsts, starts, live, place, at)),
        CL => came_to(do_call(
            code,
            cells,
            area,
            firsts,
            starts,
            targets,
            activations,
            live,
            place,
            at,
        )),
        GO => came_to(do_goto(area, firsts, starts, targets, live, place + 1)),
        BK => came_to(do_block(code, activations, live, at)),
        AD => came_to(do_change::<true>(area, firsts, starts, live, place, at)),
        RM => came_to(do_change::<false>(area, firsts, starts, live, place, at)),
        _ => came_to(do_query(area, firsts, starts, live, place, at)),
    }
}
