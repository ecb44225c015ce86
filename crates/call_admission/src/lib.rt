// Which refusal is due to a call, for all engines (document 01, "Causes and numbers", and request 3 for the list): one test after the other, each
// refusal straight out.
#![tactic(auto)]

ghost use Rattle.std.specs.Prelude.{Bool, [], ◌≡◌};
ghost use Rattle.language.specs.Call.{limits_fit, holds_at_least, first_failing, tests_before, admission};
ghost use Rattle.check_script.specs.Verdicts.{verdict_of};
ghost use Rattle.call_admission.specs.Lent.{held_in, engine_of, fed_of, with_records, due_of, checked_then};

use language::{Fault, Refusal};
use layout::SHEET_SHARE;

// A call's numbers: D, N, G, the caller's tally, the pairs in use in the table, and the name looked up.
#[derive(Clone, Copy)]
pub struct CallNumbers {
    pub d: u32,
    pub n: u32,
    pub g: u32,
    pub tally: u64,
    pub count: usize,
    pub name: u16,
}

#[tactic(auto, unfolding(language::specs::Call::limits_fit))]
fn limits_fit(numbers: CallNumbers) -> bool
    ensures { result ≡ limits_fit (fed_of numbers [] [] [] []) }
{
    1 <= numbers.d
        && numbers.d <= 256
        && numbers.n <= 1000000
        && 1 <= numbers.g
        && numbers.g <= 65535
        && numbers.tally <= 1000000000000
}

// Whether an area that one engine alone is lent, if it uses one, has so many records or words.
#[tactic(auto, unfolding(language::specs::Call::holds_at_least))]
fn holds_at_least(asked: usize, area: Option<usize>) -> bool
    ensures { result ≡ holds_at_least asked (held_in area) }
{
    match area {
        None => true,
        Some(held) => asked <= held,
    }
}

// The tests before the script check.
fn before_check(
    numbers: CallNumbers,
    table: &[i32],
    groups: &[i32],
    sheet: &[i32],
    records: Option<usize>,
) -> Result<(), Fault>
    ensures { result ≡ due_of (first_failing (tests_before (with_records records) (fed_of numbers [] table.now groups.now sheet.now))) }
{
    if !limits_fit(numbers) {
        return Err(Fault {
            cause: Refusal::LimitRange,
            offset: 0,
        });
    }
    if sheet.len() < numbers.d as usize * SHEET_SHARE {
        return Err(Fault {
            cause: Refusal::AreaTooShort,
            offset: 0,
        });
    }
    if !holds_at_least(numbers.d as usize, records) {
        return Err(Fault {
            cause: Refusal::AreaTooShort,
            offset: 0,
        });
    }
    if groups.len() < 2 * (table.len() / 2) {
        return Err(Fault {
            cause: Refusal::AreaTooShort,
            offset: 0,
        });
    }
    if !table_test::table_and_list_right(table, numbers.count, numbers.g, groups) {
        return Err(Fault {
            cause: Refusal::TableNotRight,
            offset: 0,
        });
    }
    Ok(())
}

// The script check and the copying area.
fn check_and_after(script: &[u8], d: u32, area: Option<usize>) -> Result<(), Fault>
    ensures { result ≡ checked_then script.now d (held_in area) }
{
    check_script::check_script(script)?;
    if !holds_at_least(d as usize * (script.len() / 2), area) {
        return Err(Fault {
            cause: Refusal::AreaTooShort,
            offset: 0,
        });
    }
    Ok(())
}

pub fn admit(
    script: &[u8],
    numbers: CallNumbers,
    table: &[i32],
    groups: &[i32],
    sheet: &[i32],
    records: Option<usize>,
    area: Option<usize>,
) -> Result<(), Fault>
    ensures { (links : Bool) → result ≡ verdict_of (admission (engine_of records area links) (fed_of numbers script.now table.now groups.now sheet.now)) }
{
    before_check(numbers, table, groups, sheet, records)?;
    check_and_after(script, numbers.d, area)
}
