// The static-chain engine's call: admission, the resolved script, the run on the lent records, the sheet, the answer.
#![tactic(auto)]

ghost use Rattle.std.specs.Prelude.{◌≡◌, ◌≤◌, length, replicate};
ghost use Rattle.language.specs.Text.{Block};
ghost use Rattle.language.specs.Call.{admission, chain};
ghost use Rattle.runs.specs.Admission.{Admitted};
ghost use Rattle.check_script.specs.Verdicts.{verdict_of};
ghost use Rattle.call_admission.specs.Lent.{fed_of};
ghost use Rattle.call_answers.specs.Replies.{Answers, AnswersLeaving};
ghost use Rattle.grammar.specs.Rules.{Bytes};
ghost use Rattle.resolve_script.specs.Resolving.{Resolved};
ghost use Rattle.chain_call.specs.Calls.{halt_answer, AdmittedOn};

use call_admission::CallNumbers;
use call_answers::refused_answer;
use chain_records::Activation;
use language::{Answer, Fault};
use run_state::Halt;

// What is due to a call that is lent so many records.
fn judged(
    script: &[u8],
    numbers: CallNumbers,
    table: &[i32],
    groups: &[i32],
    sheet: &[i32],
    held: usize,
) -> Result<(), Fault>
    ensures { result ≡ verdict_of (admission (chain held) (fed_of numbers script.now table.now groups.now sheet.now)) }
{
    call_admission::admit(script, numbers, table, groups, sheet, Some(held), None)
}

fn activations_of(numbers: CallNumbers) -> usize
    ensures { result ≡ numbers.d }
{
    numbers.d as usize
}

fn answered(halt: Halt, written: usize, numbers: CallNumbers) -> Answer
    requires { numbers.tally ≤ 1000000000000 }
    ensures { result ≡ halt_answer halt written numbers.tally }
{
    let end = halt.end;
    call_answers::ran_answer(
        end,
        halt.steps,
        halt.offset,
        halt.pairs,
        written,
        numbers.tally,
        halt.designator,
        halt.links,
    )
}

// The resolved script, in words that are 0.
fn resolved(script: &[u8], numbers: CallNumbers, code: &mut [u32; 4096])
    requires { code.old ≡ replicate 4096 0 }
    ensures { Resolved script.now numbers.name code.new × Bytes script.now }
{
    resolve_script::resolve(script, numbers.name as usize, code);
}

// What comes of a call that is admitted, in the arrays that it works on.
fn ran_on(
    code: &mut [u32; 4096],
    cells: &mut [i32; 8224],
    script: &[u8],
    numbers: CallNumbers,
    table: &mut [i32],
    groups: &mut [i32],
    sheet: &mut [i32],
    records: &mut [Activation],
) -> Answer
    requires { AdmittedOn code.old cells.old (chain (length records.old)) (fed_of numbers script.now table.old groups.old sheet.old) }
    ensures { Answers (chain (length records.old)) (fed_of numbers script.now table.old groups.old sheet.old)
        result sheet.new table.new groups.new }
{
    resolved(script, numbers, code);
    let halt = chain_run::run_program(
        code,
        cells,
        records,
        table,
        groups,
        numbers.count,
        numbers.g,
        activations_of(numbers),
        numbers.n,
    );
    let written = chain_run::write_sheet(code, cells, records, halt.live, sheet);
    answered(halt, written, numbers)
}

// What comes of a call that is admitted.
fn ran(
    script: &[u8],
    numbers: CallNumbers,
    table: &mut [i32],
    groups: &mut [i32],
    sheet: &mut [i32],
    records: &mut [Activation],
) -> Answer
    requires { (t : Block) × Admitted (chain (length records.old)) (fed_of numbers script.now table.old groups.old sheet.old) t }
    ensures { Answers (chain (length records.old)) (fed_of numbers script.now table.old groups.old sheet.old)
        result sheet.new table.new groups.new }
{
    let mut code = [0u32; 4096];
    let mut cells = [0i32; 8224];
    ran_on(
        &mut code, &mut cells, script, numbers, table, groups, sheet, records,
    )
}

pub fn call(
    script: &[u8],
    numbers: CallNumbers,
    table: &mut [i32],
    groups: &mut [i32],
    sheet: &mut [i32],
    records: &mut [Activation],
) -> Answer
    ensures { AnswersLeaving (chain (length records.old)) (fed_of numbers script.now table.old groups.old sheet.old)
        result sheet.new table.new groups.new records.old records.new }
{
    match judged(script, numbers, table, groups, sheet, records.len()) {
        Err(fault) => refused_answer(fault.cause, fault.offset, numbers.count, numbers.tally),
        Ok(()) => ran(script, numbers, table, groups, sheet, records),
    }
}
