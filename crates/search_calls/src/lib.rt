// CL: the arguments handed on, each procedure with its passer, and where the search goes on from the activation that is entered.
#![tactic(auto)]

ghost use Rattle.std.specs.Prelude.{◌+◌, ◌<◌, ◌≤◌};
ghost use Rattle.resolved.specs.Resolved.{target_in};
ghost use Rattle.resolved.specs.Layout.{lead_in};
ghost use Rattle.arrays.specs.Found.{held_by};
ghost use Rattle.run_statements.specs.Pieces.{FormalsBefore};
ghost use Rattle.run_cells.specs.Finding.{ThroughFormal};
ghost use Rattle.run_cells.specs.Calling.{word_after};
ghost use Rattle.search_names.specs.Seeking.{first_at, Falls};
ghost use Rattle.search_calls.specs.Passing.{Callable, Handed, AllHanded, Called, CalledFormal};

use language::Stop;
use layout::{PROCEDURE, SHARE, formal_of, formals_of, kind_of, lead_of, position_of, target_of};
use numbers::from_u16;
use run_moves::Move;
use run_words::code_at;
use search_names::{first_cell, near_cell};

// What a call hands on of the argument whose word stands at a place, to a cell of the next activation.
fn hand(
    code: &[u32; 4096],
    numbers: &[u32; 4096],
    cells: &mut [i32; 8224],
    passers: &mut [u16; 8192],
    blocks: &[u16; 256],
    froms: &[u16; 256],
    live: usize,
    place: usize,
    to: usize,
)
    requires { Falls froms.now live × (place < 4096) × (to < 8192) }
    ensures { Handed code.now numbers.now blocks.now froms.now live cells.old passers.old place to cells.new passers.new }
{
    let word = code_at(code, place);
    let own = first_cell(numbers, blocks, froms, live, place) + position_of(word);
    cells[to] = run_words::handed(cells, word, own);
    if kind_of(word) == PROCEDURE {
        if formal_of(word) == 0 {
            passers[to] = live as u16;
        } else {
            passers[to] = passers[own];
        }
    }
}

// So many arguments from a place on go to the first cells of the next activation.
fn arguments(
    code: &[u32; 4096],
    numbers: &[u32; 4096],
    cells: &mut [i32; 8224],
    passers: &mut [u16; 8192],
    blocks: &[u16; 256],
    froms: &[u16; 256],
    live: usize,
    at: usize,
    count: usize,
)
    requires { Falls froms.now live × (live ≤ 254) × (count ≤ 32) × (at + count ≤ 4096) }
    ensures { AllHanded code.now numbers.now blocks.now froms.now live cells.old passers.old at count cells.new passers.new }
{
    let first = SHARE * live + SHARE;
    for i in 0..count {
        hand(
            code,
            numbers,
            cells,
            passers,
            blocks,
            froms,
            live,
            at + i,
            first + i,
        );
    }
}

// CL, once the procedure is found: where the search goes on from its activation, and the place of its body.
fn enter_body(
    code: &[u32; 4096],
    numbers: &[u32; 4096],
    cells: &mut [i32; 8224],
    passers: &mut [u16; 8192],
    blocks: &[u16; 256],
    froms: &[u16; 256],
    activations: usize,
    live: usize,
    at: usize,
    from: usize,
    body: usize,
) -> Move
    requires { Callable code.now froms.now activations live at }
    ensures { Called code.now numbers.now blocks.now froms.now live cells.old passers.old activations at from body result cells.new passers.new }
{
    if activations <= live + 1 {
        return Move::Stop(Stop::NoActivationLeft);
    }
    let count = code_at(code, at + 2);
    arguments(
        code,
        numbers,
        cells,
        passers,
        blocks,
        froms,
        live,
        at + 3,
        count,
    );
    Move::Enter(body, from, at + 3 + count)
}

// Under its declared name: the search goes on from the caller.
pub fn do_call(
    code: &[u32; 4096],
    numbers: &[u32; 4096],
    cells: &mut [i32; 8224],
    passers: &mut [u16; 8192],
    blocks: &[u16; 256],
    froms: &[u16; 256],
    activations: usize,
    live: usize,
    at: usize,
) -> Move
    requires { Callable code.now froms.now activations live at }
    ensures { Called code.now numbers.now blocks.now froms.now live cells.old passers.old activations at live (target_in (word_after code.now at 1)) result cells.new passers.new }
{
    let body = target_of(code_at(code, at + 1));
    enter_body(
        code,
        numbers,
        cells,
        passers,
        blocks,
        froms,
        activations,
        live,
        at,
        live,
        body,
    )
}

// Through a formal: it goes on from the formal's passer. 26 goes before 22.
pub fn do_call_formal(
    code: &[u32; 4096],
    numbers: &[u32; 4096],
    cells: &mut [i32; 8224],
    passers: &mut [u16; 8192],
    blocks: &[u16; 256],
    froms: &[u16; 256],
    activations: usize,
    live: usize,
    at: usize,
) -> Move
    requires { Callable code.now froms.now activations live at × ThroughFormal cells.old (first_at numbers.now blocks.now froms.now live (at + 1)) (word_after code.now at 1) × FormalsBefore code.now (lead_in (held_by cells.old (first_at numbers.now blocks.now froms.now live (at + 1)) (word_after code.now at 1))) }
    ensures { CalledFormal code.now numbers.now blocks.now froms.now live cells.old passers.old activations at result cells.new passers.new }
{
    let own = near_cell(numbers, blocks, froms, live, at + 1) + position_of(code_at(code, at + 1));
    let body = lead_of(run_words::whole(cells[own]));
    let count = code_at(code, at + 2);
    if formals_of(code_at(code, body)) != count {
        return Move::Stop(Stop::ArgumentsDiffer);
    }
    if !run_words::kinds_agree(code, at + 3, body - 3 * count, count) {
        return Move::Stop(Stop::ArgumentsDiffer);
    }
    let passer = from_u16(passers[own]);
    enter_body(
        code,
        numbers,
        cells,
        passers,
        blocks,
        froms,
        activations,
        live,
        at,
        passer,
        body,
    )
}
