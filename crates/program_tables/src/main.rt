// The membership table on small cases. Each row of the table below is run by one function, which prints what it was given and what came
// of it.
#![tactic(auto)]

ghost use Rattle.std.specs.Prelude.{IsTrue};
ghost use Rattle.table_laws.specs.Listing.{HasList};

use language::Stop;
use std::{fmt, io};

enum Operation {
    Test,
    Add,
    Remove,
    Query,
    Append,
    TakeOut,
}

impl fmt::Display for Operation {
    fn fmt<W: fmt::Write>(&self, f: &mut fmt::Formatter<W>) -> fmt::Result {
        f.pad(match self {
            Operation::Test => "right?",
            Operation::Add => "AD",
            Operation::Remove => "RM",
            Operation::Query => "QY",
            Operation::Append => "append",
            Operation::TakeOut => "take out",
        })
    }
}

// What an operation is given: group and member (to take out, the place), G, the count of pairs (-1: the largest), the words of the table, at most eight, and
// those of the list.
struct Row {
    operation: Operation,
    group: i32,
    member: i32,
    limit: u16,
    count: i32,
    table: &'static [i32],
    list: &'static [i32],
}

macro_rules! row {
    (
        $operation:ident $group:literal $member:literal, G $limit:literal, pairs $count:literal,
        [$($word:literal)*] [$($listed:literal)*]
    ) => {
        Row {
            operation: Operation::$operation,
            group: $group,
            member: $member,
            limit: $limit,
            count: $count,
            table: &[$($word),*],
            list: &[$($listed),*],
        }
    };
}

// As they are printed.
const ROWS: [Row; 49] = [
    // lengths and counts
    row!(Test 0 0, G 1, pairs 0, [] []),
    row!(Test 0 0, G 1, pairs 1, [] []),
    row!(Add 5 7, G 1, pairs 0, [] []),
    row!(Query 5 7, G 0, pairs 0, [] []),
    row!(Test 0 0, G 1, pairs 1, [1 2 3] [1 1]),
    row!(Test 0 0, G 3, pairs 3, [1 2 3 4] [0 0 0 0]),
    row!(Test 0 0, G 3, pairs 2, [1 2 3 4] [1 1 3 1]),
    // a table of one place
    row!(Test 0 0, G 1, pairs 0, [0 0] [0 0]),
    row!(Add 5 7, G 1, pairs 0, [0 0] [0 0]),
    row!(Add 5 7, G 1, pairs 1, [5 7] [5 1]),
    row!(Add 5 8, G 1, pairs 1, [5 7] [5 1]),
    row!(Add 5 8, G 2, pairs 1, [5 7] [5 1]),
    row!(Query 5 7, G 0, pairs 1, [5 7] [5 1]),
    row!(Query 5 8, G 0, pairs 1, [5 7] [5 1]),
    row!(Remove 5 8, G 9, pairs 1, [5 7] [5 1]),
    row!(Remove 5 7, G 9, pairs 1, [5 7] [5 1]),
    // a pair twice; a group of G and of one more
    row!(Test 0 0, G 9, pairs 3, [5 7 6 1 5 7] [5 2 6 1 0 0]),
    row!(Test 0 0, G 9, pairs 2, [5 7 6 1 5 7] [5 1 6 1 0 0]),
    row!(Test 0 0, G 3, pairs 3, [5 1 5 2 5 3] [5 3 0 0 0 0]),
    row!(Test 0 0, G 2, pairs 3, [5 1 5 2 5 3] [5 3 0 0 0 0]),
    row!(Add 5 3, G 2, pairs 3, [5 1 5 2 6 1 0 0] [5 2 6 1 0 0 0 0]),
    row!(Add 5 3, G 3, pairs 3, [5 1 5 2 6 1 0 0] [5 2 6 1 0 0 0 0]),
    // numbers below 1 and the largest; a free place is not judged
    row!(Test 0 0, G 1, pairs 1, [0 1] [0 1]),
    row!(Test 0 0, G 1, pairs 1, [1 0] [1 1]),
    row!(Test 0 0, G 1, pairs 1, [-1 1] [-1 1]),
    row!(Test 0 0, G 1, pairs 1, [1 1 -1 0] [1 1 0 0]),
    row!(Test 0 0, G 1, pairs 1, [2147483647 2147483647] [2147483647 1]),
    row!(Add 0 7, G 1, pairs 0, [0 0] [0 0]),
    row!(Add 7 -1, G 1, pairs 0, [0 0] [0 0]),
    row!(Add 2147483647 2147483647, G 1, pairs 0, [0 0] [0 0]),
    row!(Remove 0 7, G 9, pairs 1, [2147483647 2147483647] [2147483647 1]),
    row!(Query 7 -1, G 0, pairs 1, [2147483647 2147483647] [2147483647 1]),
    row!(Query 2147483647 2147483647, G 0, pairs 1, [2147483647 2147483647] [2147483647 1]),
    // the first, the last and the middle pair taken out
    row!(Remove 1 1, G 9, pairs 3, [1 1 2 2 3 3 9 9] [1 1 2 1 3 1 0 0]),
    row!(Remove 3 3, G 9, pairs 3, [1 1 2 2 3 3 9 9] [1 1 2 1 3 1 0 0]),
    row!(Remove 2 2, G 9, pairs 3, [1 1 2 2 3 3 9 9] [1 1 2 1 3 1 0 0]),
    // a count that does not fit, or an odd length
    row!(TakeOut 0 0, G 0, pairs -1, [1 1 2 2 3 3] [0 0 0 0 0 0]),
    row!(TakeOut 0 0, G 0, pairs 2, [1 1 2 2 3] [1 1 2 1]),
    row!(TakeOut 0 0, G 0, pairs 3, [1 1 2 2 3] [0 0 0 0]),
    row!(TakeOut 1 0, G 0, pairs 3, [1 1 2 2 3] [0 0 0 0]),
    row!(TakeOut 1 0, G 0, pairs 1, [1 1 2 2] [1 1 0 0]),
    row!(TakeOut 2 0, G 0, pairs 3, [1 1 2 2] [0 0 0 0]),
    row!(Append 5 7, G 0, pairs 2, [1 1 2 2] [1 1 2 1]),
    row!(Append 5 7, G 0, pairs -1, [1 1 2 2] [0 0 0 0]),
    row!(Append 5 7, G 0, pairs 1, [1 1 9] [1 1]),
    // lists that are not right: a number, the order, a group of no members, a missing group
    row!(Test 0 0, G 3, pairs 2, [1 2 3 4] [1 2 3 1]),
    row!(Test 0 0, G 3, pairs 2, [1 2 3 4] [3 1 1 1]),
    row!(Test 0 0, G 3, pairs 1, [1 2 3 4] [1 1 3 0]),
    row!(Test 0 0, G 3, pairs 2, [1 2 3 4] [1 1 0 0]),
];

// A number in print: of one below 0 only that.
#[derive(Drop)]
struct Shown(i32);

impl fmt::Display for Shown {
    fn fmt<W: fmt::Write>(&self, f: &mut fmt::Formatter<W>) -> fmt::Result {
        if self.0 < 0 {
            return f.write_str("below 0");
        }
        let number = self.0;
        write!(f, "{number}")
    }
}

fn print_words(out: &impl Print, words: &[i32]) -> io::Result<()> {
    print!(out; " [")?;
    for &word in words {
        print!(out; " {}", Shown(word))?;
    }
    print!(out; " ]")
}

fn stopped(out: &impl Print, cause: Stop) -> io::Result<()> {
    print!(out; ": cause {}", u32::from(cause))
}

fn changed(out: &impl Print, outcome: Result<usize, Stop>) -> io::Result<()> {
    match outcome {
        Ok(count) => print!(out; ": pairs {count}"),
        Err(cause) => stopped(out, cause),
    }
}

fn asked(out: &impl Print, outcome: Result<i32, Stop>) -> io::Result<()> {
    match outcome {
        Ok(value) => print!(out; ": {}", Shown(value)),
        Err(cause) => stopped(out, cause),
    }
}

fn judged(out: &impl Print, right: bool) -> io::Result<()> {
    let judgement = if right { "right" } else { "not right" };
    print!(out; ": {judgement}")
}

// Whether the table is right and has its list beside it; a list that is too short is none.
fn right(limit: u16, count: usize, table: &[i32], list: &[i32]) -> bool
    ensures { IsTrue result → HasList limit table.now count list.now }
{
    if list.len() < 2 * (table.len() / 2) {
        return false;
    }
    table_test::table_and_list_right(table, count, u32::from(limit), list)
}

// AD and RM ask for a right table and its list.
fn change(
    out: &impl Print,
    row: &Row,
    count: usize,
    table: &mut [i32],
    list: &mut [i32],
) -> io::Result<()> {
    let limit = row.limit;
    if !right(limit, count, table, list) {
        return judged(out, false);
    }
    let outcome = match row.operation {
        Operation::Add => {
            let limit = u32::from(limit);
            table_pairs::add_pair(table, list, count, limit, row.group, row.member)
        }
        _ => table_pairs::remove_pair(table, list, count, row.group, row.member),
    };
    changed(out, outcome)
}

fn run(out: &impl Print, row: &Row, table: &mut [i32], list: &mut [i32]) -> io::Result<()> {
    let count = usize::try_from(row.count).unwrap_or(usize::MAX);
    match row.operation {
        Operation::Test => judged(out, right(row.limit, count, table, list)),
        Operation::Add | Operation::Remove => change(out, row, count, table, list),
        Operation::Query => {
            let outcome = table_pairs::query_pair(table, count, row.group, row.member);
            asked(out, outcome)
        }
        Operation::Append => {
            table_pairs::append(table, count, row.group, row.member);
            Ok(())
        }
        Operation::TakeOut => {
            let place = usize::try_from(row.group).unwrap_or(0);
            table_moves::take_out(table, count, place);
            Ok(())
        }
    }
}

// The words of a row, at most eight, in a place where a function may change them.
fn copied<'a>(words: &[i32], room: &'a mut [i32; 8]) -> &'a mut [i32] {
    let length = words.len().min(8);
    let copy = &mut room[..length];
    copy.copy_from_slice(&words[..length]);
    copy
}

// What was given, with the words before and after.
fn sample(out: &impl Print, row: &Row) -> io::Result<()> {
    let mut table_room = [0; 8];
    let table = copied(row.table, &mut table_room);
    let mut list_room = [0; 8];
    let list = copied(row.list, &mut list_room);
    print!(out;
        "{:8} {} {}",
        row.operation,
        Shown(row.group),
        Shown(row.member)
    )?;
    print!(out; ", G {}, pairs {}", row.limit, Shown(row.count))?;
    print_words(out, table)?;
    print_words(out, list)?;
    run(out, row, table, list)?;
    print_words(out, table)?;
    print_words(out, list)?;
    println!(out)
}

fn main(rt: HostRuntime) -> io::Result<()> {
    for row in &ROWS {
        sample(&rt, row)?;
    }
    Ok(())
}
