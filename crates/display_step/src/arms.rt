// The statements, each with its names found by the display. `at` is the place of the statement's operation. A statement none of whose
// names is a formal has a function of its own. Each does what its definition in Acting says.
ghost use Rattle.std.specs.Prelude.{◌≡◌, ◌+◌, ◌<◌, ◌≤◌, get_or};
ghost use Rattle.language.specs.Text.{plus, minus, less};
ghost use Rattle.resolved.specs.Resolved.{target_in};
ghost use Rattle.arrays.specs.Found.{cell_by, held_by};
ghost use Rattle.run_moves.specs.Acting.{do_constant, do_arithmetic, operation_of, do_goto, do_branch, do_call, do_call_formal, do_change, do_query, arguments_from, set_all};
ghost use Rattle.run_moves.specs.Acting.{scene_by};
ghost use Rattle.resolved.specs.Layout.{activation_in, lead_in};
ghost use Rattle.run_statements.specs.Pieces.{only-cells, FormalsBefore, entered_by};
ghost use Rattle.run_statements.specs.Scenes.{Done};
ghost use Rattle.display_step.specs.Finding.{first_cell, own_cell, next_first, by_display, Reachable, Direct, ThroughFormal, TwoNames, ThreeNames, Operands, ArgumentsReachable, Callable};

use super::names::{cell, first_cell, held, own_cell};
use language::Stop;
use layout::{SHARE, activation_of, cell_of, formal_of, formals_of, lead_of, target_of};
use run_moves::{Ask, Move};
use run_statements::{computed, constant};
use run_words::code_at;

// The own cell of the name whose word stands at a place, and the cell that it finally stands for.
fn own_at(code: &[u32; 4096], display: &[u16; 256], place: usize) -> usize
    requires { place < 4096 }
    ensures { result ≡ own_cell display.now (get_or code.now place 0) }
{
    own_cell(display, code_at(code, place))
}

fn found_at(code: &[u32; 4096], cells: &[i32; 8224], display: &[u16; 256], place: usize) -> usize
    requires { (place < 4096) × Reachable cells.now display.now (get_or code.now place 0) }
    ensures { result ≡ cell_by cells.now (first_cell display.now (get_or code.now place 0)) (get_or code.now place 0) }
{
    cell(cells, display, code_at(code, place))
}

pub fn do_constant(
    code: &[u32; 4096],
    cells: &mut [i32; 8224],
    display: &[u16; 256],
    at: usize,
) -> Move
    requires { (at + 4 ≤ 4096) × Direct cells.old display.now (get_or code.now (at + 1) 0) }
    ensures { Done (do_constant (by_display cells.old display.now) (only-cells code.now cells.old at)) result cells.new }
{
    constant(code, cells, own_at(code, display, at + 1), at)
}

pub fn do_constant_formal(
    code: &[u32; 4096],
    cells: &mut [i32; 8224],
    display: &[u16; 256],
    at: usize,
) -> Move
    requires { (at + 4 ≤ 4096) × Reachable cells.old display.now (get_or code.now (at + 1) 0) }
    ensures { Done (do_constant (by_display cells.old display.now) (only-cells code.now cells.old at)) result cells.new }
{
    constant(code, cells, found_at(code, cells, display, at + 1), at)
}

pub fn do_add(code: &[u32; 4096], cells: &mut [i32; 8224], display: &[u16; 256], at: usize) -> Move
    requires { Operands (Direct cells.old display.now) code.now at }
    ensures { Done (do_arithmetic (by_display cells.old display.now) (only-cells code.now cells.old at) plus) result cells.new }
{
    let target = own_at(code, display, at + 1);
    let left = own_at(code, display, at + 3);
    let right = own_at(code, display, at + 4);
    computed(run_words::add(cells, target, left, right), at)
}

pub fn do_subtract(
    code: &[u32; 4096],
    cells: &mut [i32; 8224],
    display: &[u16; 256],
    at: usize,
) -> Move
    requires { Operands (Direct cells.old display.now) code.now at }
    ensures { Done (do_arithmetic (by_display cells.old display.now) (only-cells code.now cells.old at) minus) result cells.new }
{
    let target = own_at(code, display, at + 1);
    let left = own_at(code, display, at + 3);
    let right = own_at(code, display, at + 4);
    computed(run_words::subtract(cells, target, left, right), at)
}

pub fn do_compare(
    code: &[u32; 4096],
    cells: &mut [i32; 8224],
    display: &[u16; 256],
    at: usize,
) -> Move
    requires { Operands (Direct cells.old display.now) code.now at }
    ensures { Done (do_arithmetic (by_display cells.old display.now) (only-cells code.now cells.old at) less) result cells.new }
{
    let target = own_at(code, display, at + 1);
    let left = own_at(code, display, at + 3);
    let right = own_at(code, display, at + 4);
    run_words::compare(cells, target, left, right);
    Move::On(at + 5)
}

pub fn do_arithmetic_formal(
    code: &[u32; 4096],
    cells: &mut [i32; 8224],
    display: &[u16; 256],
    at: usize,
) -> Move
    requires { Operands (Reachable cells.old display.now) code.now at }
    ensures { Done (do_arithmetic (by_display cells.old display.now) (only-cells code.now cells.old at) (operation_of (get_or code.now (at + 2) 0))) result cells.new }
{
    let target = found_at(code, cells, display, at + 1);
    let left = found_at(code, cells, display, at + 3);
    let right = found_at(code, cells, display, at + 4);
    let operation = code_at(code, at + 2);
    if operation == layout::PLUS {
        return computed(run_words::add(cells, target, left, right), at);
    }
    if operation == layout::MINUS {
        return computed(run_words::subtract(cells, target, left, right), at);
    }
    run_words::compare(cells, target, left, right);
    Move::On(at + 5)
}

// GO
pub fn do_goto(code: &[u32; 4096], display: &[u16; 256], at: usize) -> Move
    requires { at + 2 ≤ 4096 }
    ensures { result ≡ Move.Jump (activation_in (first_cell display.now (get_or code.now (at + 1) 0))) (target_in (get_or code.now (at + 1) 0)) }
{
    let label = code_at(code, at + 1);
    Move::Jump(activation_of(first_cell(display, label)), target_of(label))
}

pub fn do_goto_formal(
    code: &[u32; 4096],
    cells: &[i32; 8224],
    display: &[u16; 256],
    at: usize,
) -> Move
    requires { (at + 2 ≤ 4096) × ThroughFormal cells.now display.now (get_or code.now (at + 1) 0) }
    ensures { result ≡ (do_goto (by_display cells.now display.now) (only-cells code.now cells.now at)).move }
{
    let to = held(cells, display, code_at(code, at + 1));
    Move::Jump(activation_of(cell_of(to)), lead_of(to))
}

// IF
pub fn do_branch(code: &[u32; 4096], cells: &[i32; 8224], display: &[u16; 256], at: usize) -> Move
    requires { TwoNames (Direct cells.now display.now) code.now at }
    ensures { result ≡ (do_branch (by_display cells.now display.now) (only-cells code.now cells.now at)).move }
{
    if cells[own_at(code, display, at + 2)] == 0 {
        return Move::On(at + 3);
    }
    do_goto(code, display, at)
}

pub fn do_branch_formal(
    code: &[u32; 4096],
    cells: &[i32; 8224],
    display: &[u16; 256],
    at: usize,
) -> Move
    requires { TwoNames (Reachable cells.now display.now) code.now at }
    ensures { result ≡ (do_branch (by_display cells.now display.now) (only-cells code.now cells.now at)).move }
{
    if cells[found_at(code, cells, display, at + 2)] == 0 {
        return Move::On(at + 3);
    }
    if formal_of(code_at(code, at + 1)) == 0 {
        return do_goto(code, display, at);
    }
    do_goto_formal(code, cells, display, at)
}

// What the arguments hand on goes to the first cells of the next activation.
fn arguments(
    code: &[u32; 4096],
    cells: &mut [i32; 8224],
    display: &[u16; 256],
    live: usize,
    at: usize,
    count: usize,
)
    requires { (live ≤ 254) × ArgumentsReachable code.now display.now live at count }
    ensures { cells.new ≡ set_all cells.old (next_first live) (arguments_from (by_display cells.old display.now) (only-cells code.now cells.old at) at count) }
{
    let first = SHARE * live + SHARE;
    for i in 0..count {
        let word = code_at(code, at + i);
        cells[first + i] = run_words::handed(cells, word, own_cell(display, word));
    }
}

// CL, once the procedure is found: the activation that declares it and the place of its body.
fn enter_body(
    code: &[u32; 4096],
    cells: &mut [i32; 8224],
    display: &[u16; 256],
    activations: usize,
    live: usize,
    at: usize,
    home: usize,
    body: usize,
) -> Move
    requires { Callable code.now display.now activations live at }
    ensures { Done (entered_by (by_display cells.old display.now) (scene_by code.now cells.old activations live at) home body) result cells.new }
{
    if activations <= live + 1 {
        return Move::Stop(Stop::NoActivationLeft);
    }
    let count = code_at(code, at + 2);
    arguments(code, cells, display, live, at + 3, count);
    Move::Enter(body, home, at + 3 + count)
}

pub fn do_call(
    code: &[u32; 4096],
    cells: &mut [i32; 8224],
    display: &[u16; 256],
    activations: usize,
    live: usize,
    at: usize,
) -> Move
    requires callable { Callable code.now display.now activations live at }
    requires direct { Direct cells.old display.now (get_or code.now (at + 1) 0) }
    ensures { Done (do_call (by_display cells.old display.now) (scene_by code.now cells.old activations live at)) result cells.new }
{
    let procedure = code_at(code, at + 1);
    let home = activation_of(first_cell(display, procedure));
    enter_body(
        code,
        cells,
        display,
        activations,
        live,
        at,
        home,
        target_of(procedure),
    )
}

// 26 goes before 22.
pub fn do_call_formal(
    code: &[u32; 4096],
    cells: &mut [i32; 8224],
    display: &[u16; 256],
    activations: usize,
    live: usize,
    at: usize,
) -> Move
    requires callable { Callable code.now display.now activations live at }
    requires through_formal { ThroughFormal cells.old display.now (get_or code.now (at + 1) 0) }
    requires formals_before { FormalsBefore code.now (lead_in (held_by cells.old (first_cell display.now (get_or code.now (at + 1) 0)) (get_or code.now (at + 1) 0))) }
    ensures { Done (do_call_formal (by_display cells.old display.now) (scene_by code.now cells.old activations live at)) result cells.new }
{
    let procedure = held(cells, display, code_at(code, at + 1));
    let body = lead_of(procedure);
    let count = code_at(code, at + 2);
    if formals_of(code_at(code, body)) != count {
        return Move::Stop(Stop::ArgumentsDiffer);
    }
    if !run_words::kinds_agree(code, at + 3, body - 3 * count, count) {
        return Move::Stop(Stop::ArgumentsDiffer);
    }
    enter_body(
        code,
        cells,
        display,
        activations,
        live,
        at,
        activation_of(cell_of(procedure)),
        body,
    )
}

// AD and RM
pub fn do_change(
    code: &[u32; 4096],
    cells: &[i32; 8224],
    display: &[u16; 256],
    at: usize,
    ask: Ask,
) -> Move
    requires { TwoNames (Reachable cells.now display.now) code.now at }
    ensures { result ≡ (do_change (by_display cells.now display.now) (only-cells code.now cells.now at) ask).move }
{
    let group = found_at(code, cells, display, at + 1);
    let member = found_at(code, cells, display, at + 2);
    Move::Table(at + 3, group, member, 0, ask)
}

// QY
pub fn do_query(code: &[u32; 4096], cells: &[i32; 8224], display: &[u16; 256], at: usize) -> Move
    requires { ThreeNames (Reachable cells.now display.now) code.now at }
    ensures { result ≡ (do_query (by_display cells.now display.now) (only-cells code.now cells.now at)).move }
{
    let target = found_at(code, cells, display, at + 1);
    let group = found_at(code, cells, display, at + 2);
    let member = found_at(code, cells, display, at + 3);
    Move::Table(at + 4, group, member, target, Ask::Query)
}
