// The statements in classes: those of a class have as many names at most, and a function of their own that is handed the first cells of the activations
// that declare these. The statement at a place is done as far as cells go; where the run goes on is the answer. A call's arguments are not handed on
// yet.
#![tactic(auto)]

ghost use Rattle.std.specs.Prelude.{◌≡◌, ℕ, ◌<◌, get_or};
ghost use Rattle.run_moves.specs.Acting.{scene_by, acting, op_of};
ghost use Rattle.steps.specs.Finding.{by_first};
ghost use Rattle.run_classes.specs.Asking.{Ready, Leads, Did, one_class, branch_class, pair_class, class_of};

use layout::operation_of;
use run_moves::{Ask, Move};
use run_words::code_at;

// The classes of statements. What is done most has a class of its own, so that one jump leads to it.
#[derive(Clone, Copy)]
pub enum Class {
    // GO, BK, CL, and KN of a formal
    One,
    // AR where no name is a formal, by its operation, and AR where one is
    Add,
    Subtract,
    Compare,
    ArithmeticFormal,
    // IF
    Branch,
    // AD and RM
    Pair,
    // QY
    Query,
    // KN of no formal
    Constant,
}

// The class of the statement at a place. Each operation is named but CALL_FORMAL, which is what is left of sixteen: a range needs no test then.
pub fn class_of(code: &[u32; 4096], at: usize) -> Class
    requires { at < 4096 }
    ensures { result ≡ class_of (op_of (get_or code.now at 0)) }
{
    match operation_of(code_at(code, at)) {
        layout::CONSTANT => Class::Constant,
        layout::ADD => Class::Add,
        layout::SUBTRACT => Class::Subtract,
        layout::COMPARE => Class::Compare,
        layout::BRANCH => Class::Branch,
        layout::GOTO => Class::One,
        layout::BLOCK => Class::One,
        layout::CALL => Class::One,
        layout::ADD_PAIR => Class::Pair,
        layout::REMOVE_PAIR => Class::Pair,
        layout::QUERY => Class::Query,
        layout::CONSTANT_FORMAL => Class::One,
        layout::ARITHMETIC_FORMAL => Class::ArithmeticFormal,
        layout::BRANCH_FORMAL => Class::Branch,
        layout::GOTO_FORMAL => Class::One,
        _ => Class::One,
    }
}

// GO, BK, CL, and KN of a formal
pub fn act_one(
    code: &[u32; 4096],
    cells: &mut [i32; 8224],
    activations: usize,
    live: usize,
    at: usize,
    first: usize,
) -> Move
    requires { (at < 4096) × (class_of (op_of (get_or code.now at 0)) ≡ one_class) × Ready code.now cells.old activations live at first 0 0
        (op_of (get_or code.now at 0)) }
    ensures { (first_of : ℕ → ℕ) → Leads first_of code.now at first 0 0 (op_of (get_or code.now at 0))
        → Did (acting (by_first cells.old first_of) (scene_by code.now cells.old activations live at))
        cells.old result cells.new }
{
    match operation_of(code_at(code, at)) {
        layout::GOTO => run_cells::do_goto(code, at, first),
        layout::BLOCK => run_statements::do_block(code, activations, live, at),
        layout::CALL => run_cells::do_call(code, activations, live, at, first),
        layout::CONSTANT_FORMAL => run_cells::do_constant_formal(code, cells, at, first),
        layout::GOTO_FORMAL => run_cells::do_goto_formal(code, cells, at, first),
        _ => run_cells::do_call_formal(code, cells, activations, live, at, first),
    }
}

// IF
pub fn act_branch(
    code: &[u32; 4096],
    cells: &[i32; 8224],
    at: usize,
    first: usize,
    second: usize,
) -> Move
    requires { (at < 4096) × (class_of (op_of (get_or code.now at 0)) ≡ branch_class) × Ready code.now cells.now 0 0 at first second 0
        (op_of (get_or code.now at 0)) }
    ensures { (first_of : ℕ → ℕ) (activations live : ℕ) → Leads first_of code.now at first second 0 (op_of (get_or code.now at 0))
        → Did (acting (by_first cells.now first_of) (scene_by code.now cells.now activations live at))
        cells.now result cells.now }
{
    match operation_of(code_at(code, at)) {
        layout::BRANCH => run_cells::do_branch(code, cells, at, first, second),
        _ => run_cells::do_branch_formal(code, cells, at, first, second),
    }
}

// AD and RM
pub fn act_pair(
    code: &[u32; 4096],
    cells: &[i32; 8224],
    at: usize,
    first: usize,
    second: usize,
) -> Move
    requires { (at < 4096) × (class_of (op_of (get_or code.now at 0)) ≡ pair_class) × Ready code.now cells.now 0 0 at first second 0
        (op_of (get_or code.now at 0)) }
    ensures { (first_of : ℕ → ℕ) (activations live : ℕ) → Leads first_of code.now at first second 0 (op_of (get_or code.now at 0))
        → Did (acting (by_first cells.now first_of) (scene_by code.now cells.now activations live at))
        cells.now result cells.now }
{
    match operation_of(code_at(code, at)) {
        layout::ADD_PAIR => run_cells::do_change(code, cells, at, first, second, Ask::Add),
        _ => run_cells::do_change(code, cells, at, first, second, Ask::Remove),
    }
}
