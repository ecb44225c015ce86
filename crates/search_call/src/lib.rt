// The search engine's call: admission, the resolved script, its names' numbers, the run, the links of what it leaves, the sheet, the answer.
#![tactic(auto)]

ghost use Rattle.language.specs.Text.{Block};
ghost use Rattle.language.specs.Call.{search};
ghost use Rattle.runs.specs.Admission.{Admitted};
ghost use Rattle.call_admission.specs.Lent.{fed_of};
ghost use Rattle.call_answers.specs.Replies.{Answers};

use call_admission::CallNumbers;
use language::Answer;

// What comes of a call that is admitted.
fn ran(
    script: &[u8],
    numbers: CallNumbers,
    table: &mut [i32],
    groups: &mut [i32],
    sheet: &mut [i32],
) -> Answer
    requires { (t : Block) × Admitted search (fed_of numbers script.now table.old groups.old sheet.old) t }
    ensures { Answers search (fed_of numbers script.now table.old groups.old sheet.old) result sheet.new table.new groups.new }
{
    // Made before the passes over the script: after them, the compiled code clears them twice.
    let mut cells = [0i32; 8224];
    let mut code = [0u32; 4096];
    resolve_script::resolve(script, numbers.name as usize, &mut code);
    let mut names = [0u32; 4096];
    search_numbers::number_names(script, &code, &mut names);
    let state = search_run::start_state();
    let mut passers = state.passers;
    let mut blocks = state.blocks;
    let mut nexts = state.nexts;
    let mut froms = state.froms;
    let halt = search_run::run_program(
        &code,
        &names,
        &mut cells,
        &mut passers,
        &mut blocks,
        &mut nexts,
        &mut froms,
        table,
        groups,
        numbers.count,
        numbers.g,
        numbers.d as usize,
        numbers.n,
    );
    let live = halt.live;
    let mut links = [0u16; 256];
    search_links::find_links(&code, &blocks, &froms, live, &mut links);
    let written = run_sheet::write_sheet(&code, &cells, &blocks, &nexts, &links, live, sheet);
    let end = halt.end;
    call_answers::ran_answer(
        end,
        halt.steps,
        halt.offset,
        halt.pairs,
        written,
        numbers.tally,
        halt.designator,
        0,
    )
}

pub fn call(
    script: &[u8],
    numbers: CallNumbers,
    table: &mut [i32],
    groups: &mut [i32],
    sheet: &mut [i32],
) -> Answer
    ensures { Answers search (fed_of numbers script.now table.old groups.old sheet.old) result sheet.new table.new groups.new }
{
    match call_admission::admit(script, numbers, table, groups, sheet, None, None) {
        Err(fault) => {
            call_answers::refused_answer(fault.cause, fault.offset, numbers.count, numbers.tally)
        }
        Ok(()) => ran(script, numbers, table, groups, sheet),
    }
}
