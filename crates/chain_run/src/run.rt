// The run: steps until the program is left, a statement has a cause to stop, or the allowance is spent.
ghost use Rattle.std.specs.Prelude.{◌≡◌};
ghost use Rattle.frames.specs.Frame.{frame_run, frame_start};
ghost use Rattle.table_laws.specs.Listing.{HasList, KeepsList};
ghost use Rattle.run_state.specs.Limits.{limits_by};
ghost use Rattle.chain_links.specs.Running.{activation_of, Running};
ghost use Rattle.chain_run.specs.Running.{Beginning, Ended, RunFrom};
ghost use Rattle.chain_run.specs.Ending.{start_by};

use chain_links::settle;
use chain_records::{Activation, push};
use chain_step::step;
use layout::{first_of, level_of};
use run_state::{Halt, Registers, Turn, finished, named, spent, stopped};
use run_words::code_at;

// From any state in which the engine can stand.
pub fn run(
    code: &[u32; 4096],
    cells: &mut [i32; 8224],
    records: &mut [Activation],
    table: &mut [i32],
    groups: &mut [i32],
    limit: u32,
    activations: usize,
    allowance: u32,
    start: Registers,
) -> Halt
    requires running { Running code.now activations limit cells.old records.old table.old start }
    requires has_list { HasList limit table.old start.pairs groups.old }
    ensures run_from { (w : Running code.now activations limit cells.old records.old table.old start)
        → RunFrom w allowance result cells.new records.new table.new }
    ensures keeps_list { KeepsList limit table.old start.pairs groups.old table.new result.pairs groups.new }
{
    let mut here = start;
    // Counted down: by `for` over the steps done a step of the display engine takes 44 instructions in place of 35.
    let mut left = allowance;
    while 0 < left {
        match step(
            code,
            cells,
            records,
            table,
            groups,
            limit,
            activations,
            here,
        ) {
            Turn::Went(next) => {
                here = next;
                left -= 1;
            }
            Turn::Finished => return finished(here, allowance - left + 1),
            Turn::Stopped(cause) => {
                let halt = stopped(here, cause, allowance - left);
                let found = settle(code, cells, records, here);
                return named(halt, found.designator, found.links);
            }
        }
    }
    let halt = spent(here, allowance);
    let found = settle(code, cells, records, here);
    named(halt, found.designator, found.links)
}

// The program's record, and the state in which it begins.
fn program_record(code: &[u32; 4096]) -> Activation
    ensures { result ≡ activation_of code.now 0 0 }
{
    Activation {
        block: 0,
        next: first_of(code_at(code, 1)) as u32,
        link: 0,
    }
}

fn begin(code: &[u32; 4096], pairs: usize) -> Registers
    ensures { result ≡ start_by code.now pairs }
{
    Registers {
        level: level_of(code_at(code, 0)),
        ..run_statements::begin(code, pairs)
    }
}

// The program's own record is written first: whatever the records held makes no difference.
pub fn run_program(
    code: &[u32; 4096],
    cells: &mut [i32; 8224],
    records: &mut [Activation],
    table: &mut [i32],
    groups: &mut [i32],
    pairs: usize,
    limit: u32,
    activations: usize,
    allowance: u32,
) -> Halt
    requires beginning { Beginning code.now cells.old records.old table.old pairs limit activations }
    requires has_list { HasList limit table.old pairs groups.old }
    ensures ended { (b : Beginning code.now cells.old records.old table.old pairs limit activations)
        → Ended b.begun.program b.begun.name activations limit
        (frame_run (limits_by activations limit) allowance (frame_start b.begun.program (record { words = table.old; used = pairs })))
        result cells.new records.new table.new }
    ensures keeps_list { KeepsList limit table.old pairs groups.old table.new result.pairs groups.new }
{
    push(records, 0, program_record(code));
    let start = begin(code, pairs);
    run(
        code,
        cells,
        records,
        table,
        groups,
        limit,
        activations,
        allowance,
        start,
    )
}
