// A step of the search engine: a name is found by its number, along the callers' chain and, after an entry through a formal, from that formal's passer on.
#![tactic(auto)]

ghost use Rattle.table_laws.specs.Listing.{HasList, KeepsList};
ghost use Rattle.run_state.specs.Turns.{pairs_after};
ghost use Rattle.search_moves.specs.Running.{Running};
ghost use Rattle.search_step.specs.Turning.{arrays_of, TurnsTo};

use act::act;
use run_records::{jump, leave};
use run_state::{Registers, Turn};
use run_statements::{Moved, after, asked};
use search_moves::enter;

mod act;
mod arms;

// Whose instance of `asked` it is.
struct Engine;

pub fn step(
    code: &[u32; 4096],
    numbers: &[u32; 4096],
    cells: &mut [i32; 8224],
    passers: &mut [u16; 8192],
    blocks: &mut [u16; 256],
    nexts: &mut [u16; 256],
    froms: &mut [u16; 256],
    table: &mut [i32],
    groups: &mut [i32],
    limit: u32,
    activations: usize,
    here: Registers,
) -> Turn
    requires running { Running code.now numbers.now activations limit cells.old passers.old blocks.old nexts.old froms.old table.old here }
    requires has_list { HasList limit table.old here.pairs groups.old }
    ensures turns_to { TurnsTo code.now numbers.now activations limit
        (arrays_of cells.old passers.old blocks.old nexts.old froms.old table.old) here
        result (arrays_of cells.new passers.new blocks.new nexts.new froms.new table.new) }
    ensures keeps_list { KeepsList limit table.old here.pairs groups.old table.new (pairs_after here result) groups.new }
{
    let live = here.live;
    let at = here.at;
    if at == here.end {
        if live == 0 {
            return Turn::Finished;
        }
        return Turn::Went(leave(code, blocks, nexts, here));
    }
    match act(
        code,
        numbers,
        cells,
        passers,
        blocks,
        froms,
        activations,
        live,
        at,
    ) {
        Moved::Went(place) => Turn::Went(Registers { at: place, ..here }),
        Moved::Table(place, group, member, target, ask) => after(
            here,
            place,
            asked::<Engine>(
                table, groups, cells, here.pairs, limit, group, member, target, ask,
            ),
        ),
        Moved::Jump(place, home) => Turn::Went(jump(code, blocks, here, home, place)),
        Moved::Enter(body, from, back) => Turn::Went(enter(
            code, cells, blocks, nexts, froms, here, body, from, back,
        )),
        Moved::Stop(cause) => Turn::Stopped(cause),
    }
}
