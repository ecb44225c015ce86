// The run: steps until the program is left, a statement has a cause to stop, or the allowance is spent.
ghost use Rattle.std.specs.Prelude.{◌≡◌, ◌<◌, set};
ghost use Rattle.frames.specs.Frame.{frame_run, frame_start};
ghost use Rattle.table_laws.specs.Listing.{HasList, KeepsList};
ghost use Rattle.run_state.specs.Limits.{limits_by};
ghost use Rattle.run_state.specs.Turns.{pairs_after};
ghost use Rattle.copy_moves.specs.Running.{Running};
ghost use Rattle.copy_moves.specs.Looked.{Lookable, looked_up};
ghost use Rattle.copy_run.specs.Beginning.{Beginning};
ghost use Rattle.copy_run.specs.Turning.{Ready, Turned, Ended, RunFrom};

use copy_entry::enter;
use copy_moves::{begin, looked_up};
use copy_statements::act;
use run_records::{jump, leave, set_next};
use run_state::{Halt, Registers, Turn, finished, named, spent, stopped};
use run_statements::{Moved, after, asked};

// Whose instance of `asked` it is.
struct Engine;

pub fn step(
    code: &[u32; 4096],
    names: &[u32; 4096],
    cells: &mut [i32; 8224],
    area: &mut [u32],
    width: usize,
    blocks: &mut [u16; 256],
    nexts: &mut [u16; 256],
    links: &mut [u16; 256],
    firsts: &mut [u32; 256],
    starts: &mut [u16; 256],
    targets: &mut [u16; 8224],
    looked: &mut [u32; 256],
    table: &mut [i32],
    groups: &mut [i32],
    limit: u32,
    activations: usize,
    here: Registers,
) -> Turn
    requires ready { Ready code.now names.now activations limit cells.old area.old width blocks.old nexts.old links.old firsts.old starts.old
        targets.old looked.old table.old here 1 }
    requires has_list { HasList limit table.old here.pairs groups.old }
    ensures turned { (w : Running code.now names.now activations limit cells.old area.old width blocks.old nexts.old
        links.old firsts.old starts.old targets.old looked.old table.old here)
        → Turned w result cells.new area.new blocks.new nexts.new links.new firsts.new starts.new
        targets.new looked.new table.new }
    ensures keeps_list { KeepsList limit table.old here.pairs groups.old table.new (pairs_after here result) groups.new }
{
    let live = here.live;
    let at = here.at;
    if at == here.end {
        if live == 0 {
            return Turn::Finished;
        }
        return Turn::Went(leave(code, blocks, nexts, here));
    }
    let base = live * width;
    match act(
        code,
        cells,
        area,
        base,
        firsts,
        starts,
        targets,
        activations,
        live,
        at,
    ) {
        Moved::Went(place) => Turn::Went(Registers { at: place, ..here }),
        Moved::Jump(place, home) => Turn::Went(jump(code, blocks, here, home, place)),
        Moved::Enter(body, link, back) => Turn::Went(enter(
            code, names, cells, area, width, blocks, nexts, links, firsts, starts, targets, looked,
            here, body, link, back,
        )),
        Moved::Stop(cause) => Turn::Stopped(cause),
        Moved::Table(place, group, member, target, ask) => after(
            here,
            place,
            asked::<Engine>(
                table, groups, cells, here.pairs, limit, group, member, target, ask,
            ),
        ),
    }
}

// At the end of a run the name is looked up, and the place of the innermost activation's next statement is put with the others'.
fn settle(
    nexts: &mut [u16; 256],
    firsts: &[u32; 256],
    starts: &[u16; 256],
    looked: &[u32; 256],
    here: Registers,
) -> u32
    requires { Lookable firsts.now starts.now looked.now here.live × (here.at < 65536) }
    ensures value { result ≡ looked_up firsts.now starts.now looked.now here.live }
    ensures nexts_after { nexts.new ≡ set nexts.old here.live here.at }
{
    let designator = looked_up(firsts, starts, looked, here.live);
    set_next(nexts, here.live, here.at);
    designator
}

// From any state in which the engine can stand, with new names for so many steps. What the copies and their names are afterwards is the engine's own and is
// not said; the area keeps its length.
pub fn run(
    code: &[u32; 4096],
    names: &[u32; 4096],
    cells: &mut [i32; 8224],
    area: &mut [u32],
    width: usize,
    blocks: &mut [u16; 256],
    nexts: &mut [u16; 256],
    links: &mut [u16; 256],
    firsts: &mut [u32; 256],
    starts: &mut [u16; 256],
    targets: &mut [u16; 8224],
    looked: &mut [u32; 256],
    table: &mut [i32],
    groups: &mut [i32],
    limit: u32,
    activations: usize,
    allowance: u32,
    start: Registers,
) -> Halt
    requires ready { Ready code.now names.now activations limit cells.old area.old width blocks.old nexts.old links.old firsts.old starts.old
        targets.old looked.old table.old start allowance }
    requires has_list { HasList limit table.old start.pairs groups.old }
    ensures run_from { (w : Running code.now names.now activations limit cells.old area.old width blocks.old nexts.old
        links.old firsts.old starts.old targets.old looked.old table.old start)
        → RunFrom w allowance result cells.new blocks.new nexts.new links.new table.new }
    ensures keeps_list { KeepsList limit table.old start.pairs groups.old table.new result.pairs groups.new }
{
    let mut here = start;
    // Counted down: by `for` over the steps done a step of the display engine takes 44 instructions in place of 35.
    let mut left = allowance;
    while 0 < left {
        match step(
            code,
            names,
            cells,
            area,
            width,
            blocks,
            nexts,
            links,
            firsts,
            starts,
            targets,
            looked,
            table,
            groups,
            limit,
            activations,
            here,
        ) {
            Turn::Went(next) => {
                here = next;
                left -= 1;
            }
            Turn::Finished => return finished(here, allowance - left + 1),
            Turn::Stopped(cause) => {
                let halt = stopped(here, cause, allowance - left);
                return named(halt, settle(nexts, firsts, starts, looked, here), 0);
            }
        }
    }
    let halt = spent(here, allowance);
    named(halt, settle(nexts, firsts, starts, looked, here), 0)
}

// The program's text is the first in the area: whatever the area held makes no difference.
pub fn run_program(
    script: &[u8],
    code: &[u32; 4096],
    names: &[u32; 4096],
    cells: &mut [i32; 8224],
    area: &mut [u32],
    blocks: &mut [u16; 256],
    nexts: &mut [u16; 256],
    links: &mut [u16; 256],
    table: &mut [i32],
    groups: &mut [i32],
    pairs: usize,
    limit: u32,
    activations: usize,
    allowance: u32,
) -> Halt
    requires beginning { Beginning script.now code.now names.now cells.old area.old blocks.old nexts.old links.old table.old pairs limit activations allowance }
    requires has_list { HasList limit table.old pairs groups.old }
    ensures ended { (b : Beginning script.now code.now names.now cells.old area.old blocks.old nexts.old
        links.old table.old pairs limit activations allowance)
        → Ended b.begun.program b.begun.name activations limit
        (frame_run (limits_by activations limit) allowance (frame_start b.begun.program (record { words = table.old; used = pairs })))
        result cells.new blocks.new nexts.new links.new table.new }
    ensures keeps_list { KeepsList limit table.old pairs groups.old table.new result.pairs groups.new }
{
    let width = script.len() / 2;
    let mut firsts = [0u32; 256];
    let mut starts = [0u16; 256];
    let mut targets = [0u16; 8224];
    let mut looked = [0u32; 256];
    let start = begin(
        script,
        code,
        names,
        area,
        &mut firsts,
        &mut targets,
        &mut looked,
        pairs,
    );
    run(
        code,
        names,
        cells,
        area,
        width,
        blocks,
        nexts,
        links,
        &mut firsts,
        &mut starts,
        &mut targets,
        &mut looked,
        table,
        groups,
        limit,
        activations,
        allowance,
        start,
    )
}
