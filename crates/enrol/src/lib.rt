// What programs call, and C programs by the static library of the crate enrol_c. Each function is total: it requires nothing, and its contract fixes every word that
// it writes.
#![tactic(auto)]

ghost use Rattle.std.specs.Prelude.{◌≡◌, length};
ghost use Rattle.language.specs.Check.{check};
ghost use Rattle.language.specs.Call.{copying, display, chain, search};
ghost use Rattle.call_admission.specs.Lent.{fed_of};
ghost use Rattle.call_answers.specs.Replies.{Replies, RepliesLeaving};
ghost use Rattle.check_call.specs.Answers.{check_words};

use call_admission::CallNumbers;
use call_answers::write_answer;
use chain_records::Activation;

// The refusal's number, 0 where the script is accepted, and its offset.
pub fn enrol_check(script: &[u8], answer: &mut [u64; 2])
    ensures { answer.new ≡ check_words (check script.now) }
{
    *answer = check_call::call(script);
}

// A run by the copying engine, on texts in a lent area: the answer's words, what becomes of table, list of groups and sheet, and the area as it was where the call
// is refused.
pub fn enrol_copy(
    script: &[u8],
    d: u32,
    n: u32,
    g: u32,
    tally: u64,
    table: &mut [i32],
    count: usize,
    groups: &mut [i32],
    name: u16,
    sheet: &mut [i32],
    area: &mut [u32],
    answer: &mut [u64; 9],
)
    ensures { RepliesLeaving (copying (length area.old)) (fed_of (record { d = d; n = n; g = g; tally = tally; count = count; name = name })
        script.now table.old groups.old sheet.old)
        answer.new sheet.new table.new groups.new area.old area.new }
{
    let numbers = CallNumbers {
        d,
        n,
        g,
        tally,
        count,
        name,
    };
    write_answer(
        copy_call::call(script, numbers, table, groups, sheet, area),
        answer,
    );
}

// A run by the display engine: the answer's words, and what becomes of table, list of groups and sheet.
pub fn enrol_display(
    script: &[u8],
    d: u32,
    n: u32,
    g: u32,
    tally: u64,
    table: &mut [i32],
    count: usize,
    groups: &mut [i32],
    name: u16,
    sheet: &mut [i32],
    answer: &mut [u64; 9],
)
    ensures { Replies display (fed_of (record { d = d; n = n; g = g; tally = tally; count = count; name = name })
        script.now table.old groups.old sheet.old)
        answer.new sheet.new table.new groups.new }
{
    let numbers = CallNumbers {
        d,
        n,
        g,
        tally,
        count,
        name,
    };
    write_answer(
        display_call::call(script, numbers, table, groups, sheet),
        answer,
    );
}

// A run by the chain engine, on activation records in a lent slice: the same, and the records as they were where the call is refused.
pub fn enrol_chain(
    script: &[u8],
    d: u32,
    n: u32,
    g: u32,
    tally: u64,
    table: &mut [i32],
    count: usize,
    groups: &mut [i32],
    name: u16,
    sheet: &mut [i32],
    records: &mut [Activation],
    answer: &mut [u64; 9],
)
    ensures { RepliesLeaving (chain (length records.old)) (fed_of (record { d = d; n = n; g = g; tally = tally; count = count; name = name })
        script.now table.old groups.old sheet.old)
        answer.new sheet.new table.new groups.new records.old records.new }
{
    let numbers = CallNumbers {
        d,
        n,
        g,
        tally,
        count,
        name,
    };
    write_answer(
        chain_call::call(script, numbers, table, groups, sheet, records),
        answer,
    );
}

// A run by the search engine: the answer's words, and what becomes of table, list of groups and sheet.
pub fn enrol_search(
    script: &[u8],
    d: u32,
    n: u32,
    g: u32,
    tally: u64,
    table: &mut [i32],
    count: usize,
    groups: &mut [i32],
    name: u16,
    sheet: &mut [i32],
    answer: &mut [u64; 9],
)
    ensures { Replies search (fed_of (record { d = d; n = n; g = g; tally = tally; count = count; name = name })
        script.now table.old groups.old sheet.old)
        answer.new sheet.new table.new groups.new }
{
    let numbers = CallNumbers {
        d,
        n,
        g,
        tally,
        count,
        name,
    };
    write_answer(
        search_call::call(script, numbers, table, groups, sheet),
        answer,
    );
}
