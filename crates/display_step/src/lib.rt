// A step of the display engine: a name is found by its level and position, the activation of each enclosing level in the display.
#![tactic(auto)]

ghost use Rattle.table_laws.specs.Listing.{HasList, KeepsList};
ghost use Rattle.run_state.specs.Turns.{pairs_after};
ghost use Rattle.display_moves.specs.Running.{Running};
ghost use Rattle.display_step.specs.Turning.{TurnsTo};

use act::act;
use display_moves::{enter, jump, leave};
use run_moves::Move;
use run_state::{Registers, Turn};
use run_statements::{after, asked};

mod act;
mod arms;
mod names;

pub use names::cell;

// Whose instance of `asked` it is.
struct Engine;

pub fn step(
    code: &[u32; 4096],
    cells: &mut [i32; 8224],
    blocks: &mut [u16; 256],
    nexts: &mut [u16; 256],
    links: &mut [u16; 256],
    display: &mut [u16; 256],
    table: &mut [i32],
    groups: &mut [i32],
    limit: u32,
    activations: usize,
    here: Registers,
) -> Turn
    requires running { Running code.now activations limit cells.old blocks.old nexts.old links.old display.old table.old here }
    requires has_list { HasList limit table.old here.pairs groups.old }
    ensures turns_to { TurnsTo code.now activations limit cells.old blocks.old nexts.old links.old display.old table.old here
        result cells.new blocks.new nexts.new links.new display.new table.new }
    ensures keeps_list { KeepsList limit table.old here.pairs groups.old table.new (pairs_after here result) groups.new }
{
    let live = here.live;
    let at = here.at;
    if at == here.end {
        if live == 0 {
            return Turn::Finished;
        }
        return Turn::Went(leave(code, blocks, nexts, links, display, here));
    }
    match act(code, cells, display, activations, live, at) {
        Move::On(place) => Turn::Went(Registers { at: place, ..here }),
        Move::Table(place, group, member, target, ask) => after(
            here,
            place,
            asked::<Engine>(
                table, groups, cells, here.pairs, limit, group, member, target, ask,
            ),
        ),
        Move::Jump(home, place) => {
            Turn::Went(jump(code, blocks, links, display, here, home, place))
        }
        Move::Enter(body, link, back) => Turn::Went(enter(
            code, cells, blocks, nexts, links, display, here, body, link, back,
        )),
        Move::Stop(cause) => Turn::Stopped(cause),
    }
}
