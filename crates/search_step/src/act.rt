// The statement at a place is done as far as cells and passers go; where the run goes on is the answer.
ghost use Rattle.search_step.specs.Acted.{Doing, Acts};

use super::arms::{
    do_add, do_add_formal, do_branch, do_branch_formal, do_change, do_compare, do_compare_formal,
    do_constant, do_constant_formal, do_goto, do_goto_formal, do_query, do_subtract,
    do_subtract_formal,
};
use layout::{
    ADD, ADD_PAIR, ARITHMETIC_FORMAL, BLOCK, BRANCH, BRANCH_FORMAL, CALL, COMPARE, CONSTANT,
    CONSTANT_FORMAL, GOTO, GOTO_FORMAL, MINUS, PLUS, QUERY, REMOVE_PAIR, SUBTRACT, operation_of,
};
use run_moves::Ask;
use run_statements::{Moved, came_to, do_block};
use run_words::code_at;
use search_calls::{do_call, do_call_formal};

pub fn act(
    code: &[u32; 4096],
    numbers: &[u32; 4096],
    cells: &mut [i32; 8224],
    passers: &mut [u16; 8192],
    blocks: &[u16; 256],
    froms: &[u16; 256],
    activations: usize,
    live: usize,
    at: usize,
) -> Moved
    requires { Doing code.now numbers.now cells.old passers.old blocks.now froms.now activations live at }
    ensures { (d : Doing code.now numbers.now cells.old passers.old blocks.now froms.now activations live at) → Acts d result cells.new passers.new }
{
    let operation = operation_of(code_at(code, at));
    match operation {
        CONSTANT => came_to(do_constant(code, numbers, cells, blocks, froms, live, at)),
        ADD => came_to(do_add(code, numbers, cells, blocks, froms, live, at)),
        SUBTRACT => came_to(do_subtract(code, numbers, cells, blocks, froms, live, at)),
        COMPARE => came_to(do_compare(code, numbers, cells, blocks, froms, live, at)),
        BRANCH => came_to(do_branch(code, numbers, cells, blocks, froms, live, at)),
        GOTO => came_to(do_goto(code, numbers, blocks, froms, live, at)),
        BLOCK => came_to(do_block(code, activations, live, at)),
        CALL => came_to(do_call(
            code,
            numbers,
            cells,
            passers,
            blocks,
            froms,
            activations,
            live,
            at,
        )),
        ADD_PAIR => came_to(do_change(code, numbers, cells, blocks, froms, live, at, Ask::Add)),
        REMOVE_PAIR => came_to(do_change(
            code,
            numbers,
            cells,
            blocks,
            froms,
            live,
            at,
            Ask::Remove,
        )),
        QUERY => came_to(do_query(code, numbers, cells, blocks, froms, live, at)),
        CONSTANT_FORMAL => came_to(do_constant_formal(
            code, numbers, cells, blocks, froms, live, at,
        )),
        ARITHMETIC_FORMAL => match code_at(code, at + 2) {
            PLUS => came_to(do_add_formal(code, numbers, cells, blocks, froms, live, at)),
            MINUS => came_to(do_subtract_formal(code, numbers, cells, blocks, froms, live, at)),
            _ => came_to(do_compare_formal(code, numbers, cells, blocks, froms, live, at)),
        },
        BRANCH_FORMAL => came_to(do_branch_formal(code, numbers, cells, blocks, froms, live, at)),
        GOTO_FORMAL => came_to(do_goto_formal(code, numbers, cells, blocks, froms, live, at)),
        _ => came_to(do_call_formal(
            code,
            numbers,
            cells,
            passers,
            blocks,
            froms,
            activations,
            live,
            at,
        )),
    }
}
