// The statements, each with its mark at `place` of the area, after which its fields stand, and its operation at `at` of the resolved script.
ghost use Rattle.std.specs.Prelude.{◌≡◌, ◌+◌, ◌*◌, ◌<◌, ◌≤◌, length, get_or, set};
ghost use Rattle.language.specs.Encoding.{signed};
ghost use Rattle.run_moves.specs.Effects.{effect_of, cells_of};
ghost use Rattle.run_statements.specs.Pieces.{move_after};
ghost use Rattle.copy_arms.specs.Parts.{cell_at, variable_at, NameAt, result_at, jump_at, branch_move};

use super::fields::{field, named, named_by, target};
use copy_names::{first_of, start_of};
use layout::activation_of;
use run_moves::Move;
use run_statements::computed;

// KN
pub fn do_constant(
    cells: &mut [i32; 8224],
    area: &[u32],
    firsts: &[u32; 256],
    starts: &[u16; 256],
    live: usize,
    place: usize,
    at: usize,
) -> Move
    requires at_bound { at + 4 ≤ 4096 }
    requires place_in_bounds { place + 4 ≤ length area.now }
    requires name_at { NameAt area.now firsts.now starts.now live (place + 1) }
    requires place_bound { get_or area.now (place + 2) 0 < 65536 }
    requires place_bound_2 { get_or area.now (place + 3) 0 < 65536 }
    ensures value { result ≡ Move.On (at + 4) }
    ensures cells_after { cells.new ≡ set cells.old (cell_at area.now firsts.now starts.now live (place + 1)) (signed (get_or area.now (place + 2) 0 + 65536 * get_or area.now (place + 3) 0)) }
{
    let bits = field(area, place + 2) + 65536 * field(area, place + 3);
    let cell = named(area, firsts, starts, live, place + 1);
    run_words::store(cells, cell, run_words::signed(bits));
    Move::On(at + 4)
}

// AR
pub fn do_arithmetic(
    cells: &mut [i32; 8224],
    area: &[u32],
    firsts: &[u32; 256],
    starts: &[u16; 256],
    live: usize,
    place: usize,
    at: usize,
) -> Move
    requires at_bound { at + 5 ≤ 4096 }
    requires name_at { NameAt area.now firsts.now starts.now live (place + 1) }
    requires name_at_2 { NameAt area.now firsts.now starts.now live (place + 3) }
    requires name_at_3 { NameAt area.now firsts.now starts.now live (place + 4) }
    ensures value { result ≡ move_after (effect_of (result_at cells.old area.now firsts.now starts.now live place)) (at + 5) }
    ensures cells_after { cells.new ≡ cells_of cells.old (cell_at area.now firsts.now starts.now live (place + 1)) (result_at cells.old area.now firsts.now starts.now live place) }
{
    let first = first_of(firsts, live);
    let start = start_of(starts, live);
    let to = named_by(area, firsts, starts, live, first, start, place + 1);
    let left = named_by(area, firsts, starts, live, first, start, place + 3);
    let right = named_by(area, firsts, starts, live, first, start, place + 4);
    let operation = field(area, place + 2);
    if operation == layout::PLUS {
        return computed(run_words::add(cells, to, left, right), at);
    }
    if operation == layout::MINUS {
        return computed(run_words::subtract(cells, to, left, right), at);
    }
    run_words::compare(cells, to, left, right);
    Move::On(at + 5)
}

// GO, also where IF goes: the label stands at `place`.
pub fn do_goto(
    area: &[u32],
    firsts: &[u32; 256],
    starts: &[u16; 256],
    targets: &[u16; 8224],
    live: usize,
    place: usize,
) -> Move
    requires { NameAt area.now firsts.now starts.now live place }
    ensures { result ≡ jump_at area.now firsts.now starts.now targets.now live place }
{
    let label = named(area, firsts, starts, live, place);
    Move::Jump(activation_of(label), target(targets, label))
}

// IF
pub fn do_branch(
    cells: &[i32; 8224],
    area: &[u32],
    firsts: &[u32; 256],
    starts: &[u16; 256],
    targets: &[u16; 8224],
    live: usize,
    place: usize,
    at: usize,
) -> Move
    requires at_bound { at + 3 ≤ 4096 }
    requires name_at { NameAt area.now firsts.now starts.now live (place + 1) }
    requires name_at_2 { NameAt area.now firsts.now starts.now live (place + 2) }
    ensures { result ≡ branch_move (variable_at cells.now area.now firsts.now starts.now live (place + 1)) (at + 3) (jump_at area.now firsts.now starts.now targets.now live (place + 2)) }
{
    if cells[named(area, firsts, starts, live, place + 1)] == 0 {
        return Move::On(at + 3);
    }
    do_goto(area, firsts, starts, targets, live, place + 2)
}
