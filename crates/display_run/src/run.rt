// The run: steps until the program is left, a statement has a cause to stop, or the allowance is spent.
ghost use Rattle.std.specs.Prelude.{◌≡◌, ◌<◌, set};
ghost use Rattle.table_laws.specs.Listing.{HasList, KeepsList};
ghost use Rattle.frames.specs.Frame.{designates, frame_run, frame_start};
ghost use Rattle.run_state.specs.Limits.{limits_by};
ghost use Rattle.run_state.specs.Ended.{RunFrom};
ghost use Rattle.display_moves.specs.Running.{Running, Looking, Placed};
ghost use Rattle.display_run.specs.Program.{Beginning, Ended};

use display_moves::note_place;
use display_step::{cell, step};
use numbers::from_u16;
use run_sheet::designator_of;
use run_state::{Halt, Registers, Turn, finished, named, spent, stopped};
use run_statements::begin;
use run_words::code_at;

// The designator of the looked-up name, whose word stands in the innermost block; 0 where it is not visible.
fn looked_up(
    code: &[u32; 4096],
    cells: &[i32; 8224],
    blocks: &[u16; 256],
    display: &[u16; 256],
    live: usize,
) -> u32
    requires { Looking code.now cells.now blocks.now display.now live }
    ensures { (w : Looking code.now cells.now blocks.now display.now live) → result ≡ designates w.running.standing.stack.frames w.running.standing.name }
{
    let word = code_at(code, from_u16(blocks[live]) + 2);
    if word == 0 {
        return 0;
    }
    designator_of(cell(cells, display, word))
}

// At the end of a run the place of the innermost activation's next statement is put with the others', and the name is looked up.
fn settle(
    code: &[u32; 4096],
    cells: &[i32; 8224],
    blocks: &[u16; 256],
    nexts: &mut [u16; 256],
    display: &[u16; 256],
    here: Registers,
) -> u32
    requires { Looking code.now cells.now blocks.now display.now here.live × Placed here }
    ensures value { (w : Looking code.now cells.now blocks.now display.now here.live) → result ≡ designates w.running.standing.stack.frames w.running.standing.name }
    ensures nexts_after { nexts.new ≡ set nexts.old here.live here.at }
{
    note_place(nexts, here);
    looked_up(code, cells, blocks, display, here.live)
}

// From any state in which the engine can stand. What the display holds afterwards is the engine's own and is not said.
pub fn run(
    code: &[u32; 4096],
    cells: &mut [i32; 8224],
    blocks: &mut [u16; 256],
    nexts: &mut [u16; 256],
    links: &mut [u16; 256],
    display: &mut [u16; 256],
    table: &mut [i32],
    groups: &mut [i32],
    limit: u32,
    activations: usize,
    allowance: u32,
    start: Registers,
) -> Halt
    requires running { Running code.now activations limit cells.old blocks.old nexts.old links.old display.old table.old start }
    requires has_list { HasList limit table.old start.pairs groups.old }
    ensures run_from { (w : Running code.now activations limit cells.old blocks.old nexts.old links.old display.old table.old start)
        → RunFrom w.standing allowance result cells.new blocks.new nexts.new links.new table.new }
    ensures keeps_list { KeepsList limit table.old start.pairs groups.old table.new result.pairs groups.new }
{
    let mut here = start;
    // Counted down: by `for` over the steps done a step of the display engine takes 44 instructions in place of 35.
    let mut left = allowance;
    while 0 < left {
        match step(
            code,
            cells,
            blocks,
            nexts,
            links,
            display,
            table,
            groups,
            limit,
            activations,
            here,
        ) {
            Turn::Went(next) => {
                here = next;
                left -= 1;
            }
            Turn::Finished => return finished(here, allowance - left + 1),
            Turn::Stopped(cause) => {
                let halt = stopped(here, cause, allowance - left);
                return named(halt, settle(code, cells, blocks, nexts, display, here), 0);
            }
        }
    }
    let halt = spent(here, allowance);
    named(halt, settle(code, cells, blocks, nexts, display, here), 0)
}

pub fn run_program(
    code: &[u32; 4096],
    cells: &mut [i32; 8224],
    blocks: &mut [u16; 256],
    nexts: &mut [u16; 256],
    links: &mut [u16; 256],
    display: &mut [u16; 256],
    table: &mut [i32],
    groups: &mut [i32],
    pairs: usize,
    limit: u32,
    activations: usize,
    allowance: u32,
) -> Halt
    requires beginning { Beginning code.now cells.old blocks.old nexts.old links.old display.old table.old pairs limit activations }
    requires has_list { HasList limit table.old pairs groups.old }
    ensures ended { (b : Beginning code.now cells.old blocks.old nexts.old links.old display.old table.old pairs limit activations)
        → Ended b.begun.program b.begun.name activations limit
        (frame_run (limits_by activations limit) allowance (frame_start b.begun.program (record { words = table.old; used = pairs })))
        result cells.new blocks.new nexts.new links.new table.new }
    ensures keeps_list { KeepsList limit table.old pairs groups.old table.new result.pairs groups.new }
{
    let start = begin(code, pairs);
    run(
        code,
        cells,
        blocks,
        nexts,
        links,
        display,
        table,
        groups,
        limit,
        activations,
        allowance,
        start,
    )
}
