// The display engine's call: admission, the resolved script, the run, the sheet, the answer.
#![tactic(auto)]

ghost use Rattle.language.specs.Text.{Block};
ghost use Rattle.language.specs.Call.{display};
ghost use Rattle.runs.specs.Admission.{Admitted};
ghost use Rattle.call_admission.specs.Lent.{fed_of};
ghost use Rattle.call_answers.specs.Replies.{Answers};

use call_admission::CallNumbers;
use language::Answer;

// What comes of a call that is admitted.
fn ran(
    script: &[u8],
    numbers: CallNumbers,
    table: &mut [i32],
    groups: &mut [i32],
    sheet: &mut [i32],
) -> Answer
    requires { (t : Block) × Admitted display (fed_of numbers script.now table.old groups.old sheet.old) t }
    ensures { Answers display (fed_of numbers script.now table.old groups.old sheet.old) result sheet.new table.new groups.new }
{
    let mut code = [0u32; 4096];
    resolve_script::resolve(script, numbers.name as usize, &mut code);
    let mut cells = [0i32; 8224];
    let state = display_run::start_state();
    let mut blocks = state.blocks;
    let mut nexts = state.nexts;
    let mut links = state.links;
    let mut display = state.display;
    let halt = display_run::run_program(
        &code,
        &mut cells,
        &mut blocks,
        &mut nexts,
        &mut links,
        &mut display,
        table,
        groups,
        numbers.count,
        numbers.g,
        numbers.d as usize,
        numbers.n,
    );
    let live = halt.live;
    let written = run_sheet::write_sheet(&code, &cells, &blocks, &nexts, &links, live, sheet);
    let end = halt.end;
    call_answers::ran_answer(
        end,
        halt.steps,
        halt.offset,
        halt.pairs,
        written,
        numbers.tally,
        halt.designator,
        0,
    )
}

pub fn call(
    script: &[u8],
    numbers: CallNumbers,
    table: &mut [i32],
    groups: &mut [i32],
    sheet: &mut [i32],
) -> Answer
    ensures { Answers display (fed_of numbers script.now table.old groups.old sheet.old) result sheet.new table.new groups.new }
{
    match call_admission::admit(script, numbers, table, groups, sheet, None, None) {
        Err(fault) => {
            call_answers::refused_answer(fault.cause, fault.offset, numbers.count, numbers.tally)
        }
        Ok(()) => ran(script, numbers, table, groups, sheet),
    }
}
