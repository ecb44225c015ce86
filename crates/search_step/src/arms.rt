// The statements, each with its names found by the search. `at` is the place of the statement's operation. A name that may be a formal is most often the
// innermost activation's own, and is asked for there first.
ghost use Rattle.std.specs.Prelude.{◌≡◌, ◌+◌, ◌<◌, ◌≤◌, get_or};
ghost use Rattle.language.specs.Text.{plus, minus, less};
ghost use Rattle.resolved.specs.Resolved.{target_in};
ghost use Rattle.resolved.specs.Layout.{activation_in};
ghost use Rattle.arrays.specs.Found.{cell_by, home_by, target_by};
ghost use Rattle.run_moves.specs.Acting.{do_constant, do_arithmetic, do_goto, do_branch, do_change, do_query};
ghost use Rattle.run_statements.specs.Pieces.{only-cells};
ghost use Rattle.run_statements.specs.Scenes.{Done};
ghost use Rattle.run_cells.specs.Calling.{word_after};
ghost use Rattle.run_cells.specs.Finding.{Reachable, Direct, ThroughFormal};
ghost use Rattle.search_names.specs.Seeking.{first_at, Falls};
ghost use Rattle.search_step.specs.Asked.{OneName, TwoNames, ThreeNames, Operands, ByOne, ByTwo, ByThree, ByOperands};

use layout::{activation_of, cell_of, formal_of, lead_of, position_of, target_of};
use run_moves::{Ask, Move};
use run_statements::computed;
use run_words::code_at;
use search_names::{first_cell, near_cell};

// KN
pub fn do_constant(
    code: &[u32; 4096],
    numbers: &[u32; 4096],
    cells: &mut [i32; 8224],
    blocks: &[u16; 256],
    froms: &[u16; 256],
    live: usize,
    at: usize,
) -> Move
    requires { OneName code.now numbers.now blocks.now froms.now live cells.old at Direct 4 }
    ensures { ByOne code.now numbers.now blocks.now froms.now live cells.old at (λ F. Done (do_constant F (only-cells code.now cells.old at)) result cells.new) }
{
    let first = first_cell(numbers, blocks, froms, live, at + 1);
    run_cells::do_constant(code, cells, at, first)
}

pub fn do_constant_formal(
    code: &[u32; 4096],
    numbers: &[u32; 4096],
    cells: &mut [i32; 8224],
    blocks: &[u16; 256],
    froms: &[u16; 256],
    live: usize,
    at: usize,
) -> Move
    requires { OneName code.now numbers.now blocks.now froms.now live cells.old at Reachable 4 }
    ensures { ByOne code.now numbers.now blocks.now froms.now live cells.old at (λ F. Done (do_constant F (only-cells code.now cells.old at)) result cells.new) }
{
    let first = near_cell(numbers, blocks, froms, live, at + 1);
    run_cells::do_constant_formal(code, cells, at, first)
}

// AR
pub fn do_add(
    code: &[u32; 4096],
    numbers: &[u32; 4096],
    cells: &mut [i32; 8224],
    blocks: &[u16; 256],
    froms: &[u16; 256],
    live: usize,
    at: usize,
) -> Move
    requires { Operands code.now numbers.now blocks.now froms.now live cells.old at Direct }
    ensures { ByOperands code.now numbers.now blocks.now froms.now live cells.old at (λ F. Done (do_arithmetic F (only-cells code.now cells.old at) plus) result cells.new) }
{
    let second = first_cell(numbers, blocks, froms, live, at + 3);
    let third = first_cell(numbers, blocks, froms, live, at + 4);
    let first = first_cell(numbers, blocks, froms, live, at + 1);
    run_cells::do_add(code, cells, at, first, second, third)
}

pub fn do_subtract(
    code: &[u32; 4096],
    numbers: &[u32; 4096],
    cells: &mut [i32; 8224],
    blocks: &[u16; 256],
    froms: &[u16; 256],
    live: usize,
    at: usize,
) -> Move
    requires { Operands code.now numbers.now blocks.now froms.now live cells.old at Direct }
    ensures { ByOperands code.now numbers.now blocks.now froms.now live cells.old at (λ F. Done (do_arithmetic F (only-cells code.now cells.old at) minus) result cells.new) }
{
    let second = first_cell(numbers, blocks, froms, live, at + 3);
    let third = first_cell(numbers, blocks, froms, live, at + 4);
    let first = first_cell(numbers, blocks, froms, live, at + 1);
    run_cells::do_subtract(code, cells, at, first, second, third)
}

pub fn do_compare(
    code: &[u32; 4096],
    numbers: &[u32; 4096],
    cells: &mut [i32; 8224],
    blocks: &[u16; 256],
    froms: &[u16; 256],
    live: usize,
    at: usize,
) -> Move
    requires { Operands code.now numbers.now blocks.now froms.now live cells.old at Direct }
    ensures { ByOperands code.now numbers.now blocks.now froms.now live cells.old at (λ F. Done (do_arithmetic F (only-cells code.now cells.old at) less) result cells.new) }
{
    let second = first_cell(numbers, blocks, froms, live, at + 3);
    let third = first_cell(numbers, blocks, froms, live, at + 4);
    let first = first_cell(numbers, blocks, froms, live, at + 1);
    run_cells::do_compare(code, cells, at, first, second, third)
}

// The cell that the name at a place finally stands for.
fn found(
    code: &[u32; 4096],
    numbers: &[u32; 4096],
    cells: &[i32; 8224],
    blocks: &[u16; 256],
    froms: &[u16; 256],
    live: usize,
    place: usize,
) -> usize
    requires { Falls froms.now live × (place < 4096) × Reachable cells.now (first_at numbers.now blocks.now froms.now live place) (get_or code.now place 0) }
    ensures { (result ≡ cell_by cells.now (first_at numbers.now blocks.now froms.now live place) (get_or code.now place 0)) × (result < 8192) }
{
    let word = code_at(code, place);
    let own = near_cell(numbers, blocks, froms, live, place) + position_of(word);
    if formal_of(word) == 0 {
        return own;
    }
    cell_of(run_words::whole(cells[own]))
}

pub fn do_add_formal(
    code: &[u32; 4096],
    numbers: &[u32; 4096],
    cells: &mut [i32; 8224],
    blocks: &[u16; 256],
    froms: &[u16; 256],
    live: usize,
    at: usize,
) -> Move
    requires { Operands code.now numbers.now blocks.now froms.now live cells.old at Reachable }
    ensures { ByOperands code.now numbers.now blocks.now froms.now live cells.old at (λ F. Done (do_arithmetic F (only-cells code.now cells.old at) plus) result cells.new) }
{
    let left = found(code, numbers, cells, blocks, froms, live, at + 3);
    let right = found(code, numbers, cells, blocks, froms, live, at + 4);
    let target = found(code, numbers, cells, blocks, froms, live, at + 1);
    computed(run_words::add(cells, target, left, right), at)
}

pub fn do_subtract_formal(
    code: &[u32; 4096],
    numbers: &[u32; 4096],
    cells: &mut [i32; 8224],
    blocks: &[u16; 256],
    froms: &[u16; 256],
    live: usize,
    at: usize,
) -> Move
    requires { Operands code.now numbers.now blocks.now froms.now live cells.old at Reachable }
    ensures { ByOperands code.now numbers.now blocks.now froms.now live cells.old at (λ F. Done (do_arithmetic F (only-cells code.now cells.old at) minus) result cells.new) }
{
    let left = found(code, numbers, cells, blocks, froms, live, at + 3);
    let right = found(code, numbers, cells, blocks, froms, live, at + 4);
    let target = found(code, numbers, cells, blocks, froms, live, at + 1);
    computed(run_words::subtract(cells, target, left, right), at)
}

pub fn do_compare_formal(
    code: &[u32; 4096],
    numbers: &[u32; 4096],
    cells: &mut [i32; 8224],
    blocks: &[u16; 256],
    froms: &[u16; 256],
    live: usize,
    at: usize,
) -> Move
    requires { Operands code.now numbers.now blocks.now froms.now live cells.old at Reachable }
    ensures { ByOperands code.now numbers.now blocks.now froms.now live cells.old at (λ F. Done (do_arithmetic F (only-cells code.now cells.old at) less) result cells.new) }
{
    let left = found(code, numbers, cells, blocks, froms, live, at + 3);
    let right = found(code, numbers, cells, blocks, froms, live, at + 4);
    let target = found(code, numbers, cells, blocks, froms, live, at + 1);
    run_words::compare(cells, target, left, right);
    Move::On(at + 5)
}

// GO
pub fn do_goto(
    code: &[u32; 4096],
    numbers: &[u32; 4096],
    blocks: &[u16; 256],
    froms: &[u16; 256],
    live: usize,
    at: usize,
) -> Move
    requires { Falls froms.now live × (at + 2 ≤ 4096) }
    ensures { result ≡ Move.Jump (activation_in (first_at numbers.now blocks.now froms.now live (at + 1))) (target_in (word_after code.now at 1)) }
{
    let first = first_cell(numbers, blocks, froms, live, at + 1);
    run_cells::do_goto(code, at, first)
}

pub fn do_goto_formal(
    code: &[u32; 4096],
    numbers: &[u32; 4096],
    cells: &[i32; 8224],
    blocks: &[u16; 256],
    froms: &[u16; 256],
    live: usize,
    at: usize,
) -> Move
    requires { OneName code.now numbers.now blocks.now froms.now live cells.now at ThroughFormal 2 }
    ensures { ByOne code.now numbers.now blocks.now froms.now live cells.now at (λ F. result ≡ (do_goto F (only-cells code.now cells.now at)).move) }
{
    let first = near_cell(numbers, blocks, froms, live, at + 1);
    run_cells::do_goto_formal(code, cells, at, first)
}

// IF
pub fn do_branch(
    code: &[u32; 4096],
    numbers: &[u32; 4096],
    cells: &[i32; 8224],
    blocks: &[u16; 256],
    froms: &[u16; 256],
    live: usize,
    at: usize,
) -> Move
    requires { TwoNames code.now numbers.now blocks.now froms.now live cells.now at Direct }
    ensures { ByTwo code.now numbers.now blocks.now froms.now live cells.now at (λ F. result ≡ (do_branch F (only-cells code.now cells.now at)).move) }
{
    let first = first_cell(numbers, blocks, froms, live, at + 1);
    let second = first_cell(numbers, blocks, froms, live, at + 2);
    run_cells::do_branch(code, cells, at, first, second)
}

// A jump to the label that the name at a place finally stands for.
fn jump_to(
    code: &[u32; 4096],
    numbers: &[u32; 4096],
    cells: &[i32; 8224],
    blocks: &[u16; 256],
    froms: &[u16; 256],
    live: usize,
    place: usize,
) -> Move
    requires { Falls froms.now live × (place < 4096) × Reachable cells.now (first_at numbers.now blocks.now froms.now live place) (get_or code.now place 0) }
    ensures { result ≡ Move.Jump (home_by cells.now (first_at numbers.now blocks.now froms.now live place) (get_or code.now place 0)) (target_by cells.now (first_at numbers.now blocks.now froms.now live place) (get_or code.now place 0)) }
{
    let word = code_at(code, place);
    let first = near_cell(numbers, blocks, froms, live, place);
    let mut home = activation_of(first);
    let mut target = target_of(word);
    if formal_of(word) != 0 {
        let held = run_words::whole(cells[first + position_of(word)]);
        home = activation_of(cell_of(held));
        target = lead_of(held);
    }
    Move::Jump(home, target)
}

pub fn do_branch_formal(
    code: &[u32; 4096],
    numbers: &[u32; 4096],
    cells: &[i32; 8224],
    blocks: &[u16; 256],
    froms: &[u16; 256],
    live: usize,
    at: usize,
) -> Move
    requires { TwoNames code.now numbers.now blocks.now froms.now live cells.now at Reachable }
    ensures { ByTwo code.now numbers.now blocks.now froms.now live cells.now at (λ F. result ≡ (do_branch F (only-cells code.now cells.now at)).move) }
{
    if cells[found(code, numbers, cells, blocks, froms, live, at + 2)] == 0 {
        return Move::On(at + 3);
    }
    jump_to(code, numbers, cells, blocks, froms, live, at + 1)
}

// AD and RM
pub fn do_change(
    code: &[u32; 4096],
    numbers: &[u32; 4096],
    cells: &[i32; 8224],
    blocks: &[u16; 256],
    froms: &[u16; 256],
    live: usize,
    at: usize,
    ask: Ask,
) -> Move
    requires { TwoNames code.now numbers.now blocks.now froms.now live cells.now at Reachable }
    ensures { ByTwo code.now numbers.now blocks.now froms.now live cells.now at (λ F. result ≡ (do_change F (only-cells code.now cells.now at) ask).move) }
{
    let first = first_cell(numbers, blocks, froms, live, at + 1);
    let second = first_cell(numbers, blocks, froms, live, at + 2);
    run_cells::do_change(code, cells, at, first, second, ask)
}

// QY
pub fn do_query(
    code: &[u32; 4096],
    numbers: &[u32; 4096],
    cells: &[i32; 8224],
    blocks: &[u16; 256],
    froms: &[u16; 256],
    live: usize,
    at: usize,
) -> Move
    requires { ThreeNames code.now numbers.now blocks.now froms.now live cells.now at Reachable }
    ensures { ByThree code.now numbers.now blocks.now froms.now live cells.now at (λ F. result ≡ (do_query F (only-cells code.now cells.now at)).move) }
{
    let first = first_cell(numbers, blocks, froms, live, at + 1);
    let second = first_cell(numbers, blocks, froms, live, at + 2);
    let third = first_cell(numbers, blocks, froms, live, at + 3);
    run_cells::do_query(code, cells, at, first, second, third)
}
