// What the membership table answers, for all engines: group, member and target are cells.
ghost use Rattle.std.specs.Prelude.{◌≡◌, ℕ, ◌<◌};
ghost use Rattle.run_moves.specs.Acting.{answer};
ghost use Rattle.run_moves.specs.declared.Ask.TheVariants.{Add, Remove, Query as Queried};
ghost use Rattle.table_laws.specs.Listing.{HasList, KeepsList};
ghost use Rattle.table_pairs.specs.Outcomes.{table_of, change_of, count_after, words_after};
ghost use Rattle.run_statements.specs.Answers.{turn_after};

use language::Stop;
use run_moves::Ask;
use run_state::{Registers, Turn};

pub fn add(
    table: &mut [i32],
    groups: &mut [i32],
    cells: &[i32; 8224],
    pairs: usize,
    limit: u32,
    group: usize,
    member: usize,
) -> Result<usize, Stop>
    requires group_bound { (group < 8192) × (member < 8192) }
    requires has_list { HasList limit table.old pairs groups.old }
    ensures value { result ≡ change_of (answer limit cells.now (table_of table.old pairs) group member 0 Add).effect }
    ensures table_after { table.new ≡ words_after table.old (answer limit cells.now (table_of table.old pairs) group member 0 Add).effect }
    ensures keeps_list { KeepsList limit table.old pairs groups.old table.new (count_after pairs result) groups.new }
{
    let of = cells[group];
    let who = cells[member];
    table_pairs::add_pair(table, groups, pairs, limit, of, who)
}

pub fn remove(
    table: &mut [i32],
    groups: &mut [i32],
    cells: &[i32; 8224],
    pairs: usize,
    group: usize,
    member: usize,
) -> Result<usize, Stop>
    requires group_bound { (group < 8192) × (member < 8192) }
    requires by_index { (limit : ℕ) × HasList limit table.old pairs groups.old }
    ensures value { result ≡ change_of (answer 0 cells.now (table_of table.old pairs) group member 0 Remove).effect }
    ensures table_after { table.new ≡ words_after table.old (answer 0 cells.now (table_of table.old pairs) group member 0 Remove).effect }
    ensures by_index_2 { (limit : ℕ) → KeepsList limit table.old pairs groups.old table.new (count_after pairs result) groups.new }
{
    let of = cells[group];
    let who = cells[member];
    table_pairs::remove_pair(table, groups, pairs, of, who)
}

pub fn query(
    table: &[i32],
    cells: &mut [i32; 8224],
    pairs: usize,
    group: usize,
    member: usize,
    target: usize,
) -> Result<usize, Stop>
    requires { (group < 8192) × ((member < 8192) × (target < 8192)) }
    ensures value { result ≡ change_of (answer 0 cells.old (table_of table.now pairs) group member target Queried).effect }
    ensures cells_after { cells.new ≡ (answer 0 cells.old (table_of table.now pairs) group member target Queried).cells }
{
    let of = cells[group];
    let who = cells[member];
    let value = table_pairs::query_pair(table, pairs, of, who)?;
    run_words::store(cells, target, value);
    Ok(pairs)
}

// By what is asked, once for each engine `E`: a function that all engines call is not compiled into their steps, and table work on 8 pairs then takes 10 to
// 16 % more instructions.
pub fn asked<E>(
    table: &mut [i32],
    groups: &mut [i32],
    cells: &mut [i32; 8224],
    pairs: usize,
    limit: u32,
    group: usize,
    member: usize,
    target: usize,
    ask: Ask,
) -> Result<usize, Stop>
    requires group_bound { (group < 8192) × ((member < 8192) × (target < 8192)) }
    requires has_list { HasList limit table.old pairs groups.old }
    ensures value { result ≡ change_of (answer limit cells.old (table_of table.old pairs) group member target ask).effect }
    ensures cells_after { cells.new ≡ (answer limit cells.old (table_of table.old pairs) group member target ask).cells }
    ensures table_after { table.new ≡ words_after table.old (answer limit cells.old (table_of table.old pairs) group member target ask).effect }
    ensures keeps_list { KeepsList limit table.old pairs groups.old table.new (count_after pairs result) groups.new }
{
    match ask {
        Ask::Add => add(table, groups, cells, pairs, limit, group, member),
        Ask::Remove => remove(table, groups, cells, pairs, group, member),
        Ask::Query => query(table, cells, pairs, group, member, target),
    }
}

// The step that asked comes to this.
#[tactic(auto, unfolding(crate::specs::Answers::turn_after))]
pub fn after(here: Registers, place: usize, change: Result<usize, Stop>) -> Turn
    ensures { result ≡ turn_after here place change }
{
    match change {
        Ok(pairs) => Turn::Went(Registers {
            at: place,
            pairs,
            ..here
        }),
        Err(cause) => Turn::Stopped(cause),
    }
}
