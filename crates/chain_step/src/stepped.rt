// A step: the names of the next statement are found by following links from the innermost activation, the statement is done, and the records are put
// right where another activation becomes the innermost one.
ghost use Rattle.table_laws.specs.Listing.{HasList, KeepsList};
ghost use Rattle.run_state.specs.Turns.{pairs_after};
ghost use Rattle.chain_links.specs.Running.{Running};
ghost use Rattle.chain_step.specs.Turning.{Turned, LeaveReady};

use super::acted::acted;
use super::turn::Moved;
use chain_links::{enter, innermost, left};
use chain_records::{Activation, read};
use run_state::{Registers, Turn};
use run_statements::{after, asked};

// Whose instance of `asked` it is.
struct Engine;

// At the end of its text the innermost activation is left.
fn leave(code: &[u32; 4096], records: &[Activation], here: Registers) -> Turn
    requires { LeaveReady code.now records.now here }
    ensures { (v : LeaveReady code.now records.now here) → Turned v.running result v.cells records.now v.table }
{
    if here.live == 0 {
        return Turn::Finished;
    }
    let activation = read(records, here.live - 1);
    Turn::Went(left(code, here, activation))
}

pub fn step(
    code: &[u32; 4096],
    cells: &mut [i32; 8224],
    records: &mut [Activation],
    table: &mut [i32],
    groups: &mut [i32],
    limit: u32,
    activations: usize,
    here: Registers,
) -> Turn
    requires running { Running code.now activations limit cells.old records.old table.old here }
    requires has_list { HasList limit table.old here.pairs groups.old }
    ensures turned { (w : Running code.now activations limit cells.old records.old table.old here)
        → Turned w result cells.new records.new table.new }
    ensures keeps_list { KeepsList limit table.old here.pairs groups.old table.new (pairs_after here result) groups.new }
{
    if here.at == here.end {
        return leave(code, records, here);
    }
    match acted(code, cells, records, activations, here) {
        Moved::Went(next) => Turn::Went(next),
        Moved::Resume(home, place) => {
            let activation = read(records, home);
            Turn::Went(innermost(code, activation, home, place, here.pairs))
        }
        Moved::Enter(entry) => Turn::Went(enter(code, cells, records, here, entry)),
        Moved::Stopped(cause) => Turn::Stopped(cause),
        Moved::Table(asking) => after(
            here,
            asking.place,
            asked::<Engine>(
                table,
                groups,
                cells,
                here.pairs,
                limit,
                asking.group,
                asking.member,
                asking.target,
                asking.ask,
            ),
        ),
    }
}
