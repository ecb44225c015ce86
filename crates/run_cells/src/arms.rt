// The statements, each with the first cells of the activations that declare its names. `at` is the place of the statement's operation. A statement none of
// whose names is a formal has a function of its own. Each does what its definition in Acting says, by whatever way of finding names has these cells.
ghost use Rattle.std.specs.Prelude.{◌≡◌, ℕ, ◌+◌, ◌≤◌};
ghost use Rattle.language.specs.Text.{plus, minus, less};
ghost use Rattle.resolved.specs.Resolved.{target_in};
ghost use Rattle.arrays.specs.Found.{held_by};
ghost use Rattle.resolved.specs.Layout.{activation_in, lead_in};
ghost use Rattle.run_moves.specs.Acting.{do_constant, do_arithmetic, operation_of, do_goto, do_branch, do_call_formal, do_change, do_query};
ghost use Rattle.run_moves.specs.Acting.{scene_by};
ghost use Rattle.run_statements.specs.Pieces.{only-cells, FormalsBefore};
ghost use Rattle.steps.specs.Finding.{by_first};
ghost use Rattle.run_cells.specs.Finding.{Reachable, Direct, ThroughFormal};
ghost use Rattle.run_cells.specs.Calling.{word_after, Calling, call_move};

use super::names::{cell, held, own};
use language::Stop;
use layout::{activation_of, cell_of, formal_of, formals_of, lead_of, target_of};
use run_moves::{Ask, Move};
use run_statements::{computed, constant};
use run_words::code_at;

pub fn do_constant(code: &[u32; 4096], cells: &mut [i32; 8224], at: usize, first: usize) -> Move
    requires { (at + 4 ≤ 4096) × Direct cells.old first (word_after code.now at 1) }
    ensures { (first_of : ℕ → ℕ) → first ≡ first_of (word_after code.now at 1) → (result ≡ (do_constant (by_first cells.old first_of) (only-cells code.now cells.old at)).move) × (cells.new ≡ (do_constant (by_first cells.old first_of) (only-cells code.now cells.old at)).cells) }
{
    constant(code, cells, own(code, at + 1, first), at)
}

pub fn do_constant_formal(
    code: &[u32; 4096],
    cells: &mut [i32; 8224],
    at: usize,
    first: usize,
) -> Move
    requires { (at + 4 ≤ 4096) × Reachable cells.old first (word_after code.now at 1) }
    ensures { (first_of : ℕ → ℕ) → first ≡ first_of (word_after code.now at 1) → (result ≡ (do_constant (by_first cells.old first_of) (only-cells code.now cells.old at)).move) × (cells.new ≡ (do_constant (by_first cells.old first_of) (only-cells code.now cells.old at)).cells) }
{
    constant(code, cells, cell(code, cells, at + 1, first), at)
}

pub fn do_add(
    code: &[u32; 4096],
    cells: &mut [i32; 8224],
    at: usize,
    first: usize,
    second: usize,
    third: usize,
) -> Move
    requires { (at + 5 ≤ 4096) × Direct cells.old first (word_after code.now at 1) × Direct cells.old second (word_after code.now at 3) × Direct cells.old third (word_after code.now at 4) }
    ensures { (first_of : ℕ → ℕ) → first ≡ first_of (word_after code.now at 1) → second ≡ first_of (word_after code.now at 3) → third ≡ first_of (word_after code.now at 4) → (result ≡ (do_arithmetic (by_first cells.old first_of) (only-cells code.now cells.old at) plus).move) × (cells.new ≡ (do_arithmetic (by_first cells.old first_of) (only-cells code.now cells.old at) plus).cells) }
{
    let target = own(code, at + 1, first);
    let left = own(code, at + 3, second);
    let right = own(code, at + 4, third);
    computed(run_words::add(cells, target, left, right), at)
}

pub fn do_subtract(
    code: &[u32; 4096],
    cells: &mut [i32; 8224],
    at: usize,
    first: usize,
    second: usize,
    third: usize,
) -> Move
    requires { (at + 5 ≤ 4096) × Direct cells.old first (word_after code.now at 1) × Direct cells.old second (word_after code.now at 3) × Direct cells.old third (word_after code.now at 4) }
    ensures { (first_of : ℕ → ℕ) → first ≡ first_of (word_after code.now at 1) → second ≡ first_of (word_after code.now at 3) → third ≡ first_of (word_after code.now at 4) → (result ≡ (do_arithmetic (by_first cells.old first_of) (only-cells code.now cells.old at) minus).move) × (cells.new ≡ (do_arithmetic (by_first cells.old first_of) (only-cells code.now cells.old at) minus).cells) }
{
    let target = own(code, at + 1, first);
    let left = own(code, at + 3, second);
    let right = own(code, at + 4, third);
    computed(run_words::subtract(cells, target, left, right), at)
}

pub fn do_compare(
    code: &[u32; 4096],
    cells: &mut [i32; 8224],
    at: usize,
    first: usize,
    second: usize,
    third: usize,
) -> Move
    requires { (at + 5 ≤ 4096) × Direct cells.old first (word_after code.now at 1) × Direct cells.old second (word_after code.now at 3) × Direct cells.old third (word_after code.now at 4) }
    ensures { (first_of : ℕ → ℕ) → first ≡ first_of (word_after code.now at 1) → second ≡ first_of (word_after code.now at 3) → third ≡ first_of (word_after code.now at 4) → (result ≡ (do_arithmetic (by_first cells.old first_of) (only-cells code.now cells.old at) less).move) × (cells.new ≡ (do_arithmetic (by_first cells.old first_of) (only-cells code.now cells.old at) less).cells) }
{
    let target = own(code, at + 1, first);
    let left = own(code, at + 3, second);
    let right = own(code, at + 4, third);
    run_words::compare(cells, target, left, right);
    Move::On(at + 5)
}

pub fn do_arithmetic_formal(
    code: &[u32; 4096],
    cells: &mut [i32; 8224],
    at: usize,
    first: usize,
    second: usize,
    third: usize,
) -> Move
    requires { (at + 5 ≤ 4096) × Reachable cells.old first (word_after code.now at 1) × Reachable cells.old second (word_after code.now at 3) × Reachable cells.old third (word_after code.now at 4) }
    ensures { (first_of : ℕ → ℕ) → first ≡ first_of (word_after code.now at 1) → second ≡ first_of (word_after code.now at 3) → third ≡ first_of (word_after code.now at 4) → (result ≡ (do_arithmetic (by_first cells.old first_of) (only-cells code.now cells.old at) (operation_of (word_after code.now at 2))).move) × (cells.new ≡ (do_arithmetic (by_first cells.old first_of) (only-cells code.now cells.old at) (operation_of (word_after code.now at 2))).cells) }
{
    let target = cell(code, cells, at + 1, first);
    let left = cell(code, cells, at + 3, second);
    let right = cell(code, cells, at + 4, third);
    let operation = code_at(code, at + 2);
    if operation == layout::PLUS {
        return computed(run_words::add(cells, target, left, right), at);
    }
    if operation == layout::MINUS {
        return computed(run_words::subtract(cells, target, left, right), at);
    }
    run_words::compare(cells, target, left, right);
    Move::On(at + 5)
}

// GO
pub fn do_goto(code: &[u32; 4096], at: usize, first: usize) -> Move
    requires { at + 2 ≤ 4096 }
    ensures { result ≡ Move.Jump (activation_in first) (target_in (word_after code.now at 1)) }
{
    Move::Jump(activation_of(first), target_of(code_at(code, at + 1)))
}

pub fn do_goto_formal(code: &[u32; 4096], cells: &[i32; 8224], at: usize, first: usize) -> Move
    requires { (at + 2 ≤ 4096) × ThroughFormal cells.now first (word_after code.now at 1) }
    ensures { (first_of : ℕ → ℕ) → first ≡ first_of (word_after code.now at 1) → result ≡ (do_goto (by_first cells.now first_of) (only-cells code.now cells.now at)).move }
{
    let to = held(code, cells, at + 1, first);
    Move::Jump(activation_of(cell_of(to)), lead_of(to))
}

// IF
pub fn do_branch(
    code: &[u32; 4096],
    cells: &[i32; 8224],
    at: usize,
    first: usize,
    second: usize,
) -> Move
    requires { (at + 3 ≤ 4096) × Direct cells.now first (word_after code.now at 1) × Direct cells.now second (word_after code.now at 2) }
    ensures { (first_of : ℕ → ℕ) → first ≡ first_of (word_after code.now at 1) → second ≡ first_of (word_after code.now at 2) → result ≡ (do_branch (by_first cells.now first_of) (only-cells code.now cells.now at)).move }
{
    if cells[own(code, at + 2, second)] == 0 {
        return Move::On(at + 3);
    }
    do_goto(code, at, first)
}

pub fn do_branch_formal(
    code: &[u32; 4096],
    cells: &[i32; 8224],
    at: usize,
    first: usize,
    second: usize,
) -> Move
    requires { (at + 3 ≤ 4096) × Reachable cells.now first (word_after code.now at 1) × Reachable cells.now second (word_after code.now at 2) }
    ensures { (first_of : ℕ → ℕ) → first ≡ first_of (word_after code.now at 1) → second ≡ first_of (word_after code.now at 2) → result ≡ (do_branch (by_first cells.now first_of) (only-cells code.now cells.now at)).move }
{
    if cells[cell(code, cells, at + 2, second)] == 0 {
        return Move::On(at + 3);
    }
    if formal_of(code_at(code, at + 1)) == 0 {
        return do_goto(code, at, first);
    }
    do_goto_formal(code, cells, at, first)
}

// CL, once the procedure is found: the activation that declares it and the place of its body.
fn enter_body(
    code: &[u32; 4096],
    activations: usize,
    live: usize,
    at: usize,
    home: usize,
    body: usize,
) -> Move
    requires { Calling code.now activations live at }
    ensures { result ≡ call_move code.now activations live at home body }
{
    if activations <= live + 1 {
        return Move::Stop(Stop::NoActivationLeft);
    }
    Move::Enter(body, home, at + 3 + code_at(code, at + 2))
}

pub fn do_call(code: &[u32; 4096], activations: usize, live: usize, at: usize, first: usize) -> Move
    requires { Calling code.now activations live at }
    ensures { result ≡ call_move code.now activations live at (activation_in first) (target_in (word_after code.now at 1)) }
{
    enter_body(
        code,
        activations,
        live,
        at,
        activation_of(first),
        target_of(code_at(code, at + 1)),
    )
}

// 26 goes before 22.
pub fn do_call_formal(
    code: &[u32; 4096],
    cells: &[i32; 8224],
    activations: usize,
    live: usize,
    at: usize,
    first: usize,
) -> Move
    requires { Calling code.now activations live at × ThroughFormal cells.now first (word_after code.now at 1) × FormalsBefore code.now (lead_in (held_by cells.now first (word_after code.now at 1))) }
    ensures { (first_of : ℕ → ℕ) → first ≡ first_of (word_after code.now at 1) → result ≡ (do_call_formal (by_first cells.now first_of) (scene_by code.now cells.now activations live at)).move }
{
    let procedure = held(code, cells, at + 1, first);
    let body = lead_of(procedure);
    let count = code_at(code, at + 2);
    if formals_of(code_at(code, body)) != count {
        return Move::Stop(Stop::ArgumentsDiffer);
    }
    if !run_words::kinds_agree(code, at + 3, body - 3 * count, count) {
        return Move::Stop(Stop::ArgumentsDiffer);
    }
    enter_body(
        code,
        activations,
        live,
        at,
        activation_of(cell_of(procedure)),
        body,
    )
}

// AD and RM
pub fn do_change(
    code: &[u32; 4096],
    cells: &[i32; 8224],
    at: usize,
    first: usize,
    second: usize,
    ask: Ask,
) -> Move
    requires { (at + 3 ≤ 4096) × Reachable cells.now first (word_after code.now at 1) × Reachable cells.now second (word_after code.now at 2) }
    ensures { (first_of : ℕ → ℕ) → first ≡ first_of (word_after code.now at 1) → second ≡ first_of (word_after code.now at 2) → result ≡ (do_change (by_first cells.now first_of) (only-cells code.now cells.now at) ask).move }
{
    let group = cell(code, cells, at + 1, first);
    let member = cell(code, cells, at + 2, second);
    Move::Table(at + 3, group, member, 0, ask)
}

// QY
pub fn do_query(
    code: &[u32; 4096],
    cells: &[i32; 8224],
    at: usize,
    first: usize,
    second: usize,
    third: usize,
) -> Move
    requires { (at + 4 ≤ 4096) × Reachable cells.now first (word_after code.now at 1) × Reachable cells.now second (word_after code.now at 2) × Reachable cells.now third (word_after code.now at 3) }
    ensures { (first_of : ℕ → ℕ) → first ≡ first_of (word_after code.now at 1) → second ≡ first_of (word_after code.now at 2) → third ≡ first_of (word_after code.now at 3) → result ≡ (do_query (by_first cells.now first_of) (only-cells code.now cells.now at)).move }
{
    let target = cell(code, cells, at + 1, first);
    let group = cell(code, cells, at + 2, second);
    let member = cell(code, cells, at + 3, third);
    Move::Table(at + 4, group, member, target, Ask::Query)
}
