// The copying engine's call: admission, the resolved script and the words of its names, the run on the lent area, the sheet, the answer.
#![tactic(auto)]

ghost use Rattle.std.specs.Prelude.{length};
ghost use Rattle.language.specs.Text.{Block};
ghost use Rattle.language.specs.Call.{copying};
ghost use Rattle.runs.specs.Admission.{Admitted};
ghost use Rattle.call_admission.specs.Lent.{fed_of};
ghost use Rattle.call_answers.specs.Replies.{Answers, AnswersLeaving};

use call_admission::CallNumbers;
use language::Answer;

// What comes of a call that is admitted.
fn ran(
    script: &[u8],
    numbers: CallNumbers,
    table: &mut [i32],
    groups: &mut [i32],
    sheet: &mut [i32],
    area: &mut [u32],
) -> Answer
    requires { (t : Block) × Admitted (copying (length area.old)) (fed_of numbers script.now table.old groups.old sheet.old) t }
    ensures { Answers (copying (length area.old)) (fed_of numbers script.now table.old groups.old sheet.old)
        result sheet.new table.new groups.new }
{
    let mut code = [0u32; 4096];
    resolve_script::resolve(script, numbers.name as usize, &mut code);
    let mut names = [0u32; 4096];
    copy_fields::name_fields(script, &code, &mut names);
    let mut cells = [0i32; 8224];
    let mut blocks = [0u16; 256];
    let mut nexts = [0u16; 256];
    let mut links = [0u16; 256];
    let halt = copy_run::run_program(
        script,
        &code,
        &names,
        &mut cells,
        area,
        &mut blocks,
        &mut nexts,
        &mut links,
        table,
        groups,
        numbers.count,
        numbers.g,
        numbers.d as usize,
        numbers.n,
    );
    let live = halt.live;
    let written = run_sheet::write_sheet(&code, &cells, &blocks, &nexts, &links, live, sheet);
    let end = halt.end;
    call_answers::ran_answer(
        end,
        halt.steps,
        halt.offset,
        halt.pairs,
        written,
        numbers.tally,
        halt.designator,
        0,
    )
}

pub fn call(
    script: &[u8],
    numbers: CallNumbers,
    table: &mut [i32],
    groups: &mut [i32],
    sheet: &mut [i32],
    area: &mut [u32],
) -> Answer
    ensures { AnswersLeaving (copying (length area.old)) (fed_of numbers script.now table.old groups.old sheet.old)
        result sheet.new table.new groups.new area.old area.new }
{
    let held = area.len();
    match call_admission::admit(script, numbers, table, groups, sheet, None, Some(held)) {
        Err(fault) => {
            call_answers::refused_answer(fault.cause, fault.offset, numbers.count, numbers.tally)
        }
        Ok(()) => ran(script, numbers, table, groups, sheet, area),
    }
}
