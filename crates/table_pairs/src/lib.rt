// AD, RM and QY. AD and RM keep the list of groups beside the table as the table has it.
#![tactic(auto)]

ghost use Rattle.std.specs.Prelude.{◌≡◌, ℕ, ◌*◌, ◌≤◌, length, set};
ghost use Rattle.language.specs.Table.{size, holds, add, added, removed, queried};
ghost use Rattle.table_laws.specs.Listing.{HasList, KeepsList};
ghost use Rattle.table_laws.specs.ByList.{added_by_list, removed_by_list};
ghost use Rattle.table_pairs.specs.Outcomes.{table_of, change_of, count_after, value_of, words_after};

use language::Stop;
use table_groups::{find_group, lower, raise};
use table_moves::take_out;
use table_search::{numbers_fit, place_of, present};

// The word at `i` is written, if the table has one there.
fn write_word(table: &mut [i32], i: usize, word: i32)
    ensures { table.new ≡ set table.old i word }
{
    if i < table.len() {
        table[i] = word;
    }
}

// The pair is written after the last one, as much of it as the table has words for.
pub fn append(table: &mut [i32], count: usize, group: i32, member: i32)
    ensures { table.new ≡ (add group member (table_of table.old count)).words }
{
    if count <= table.len() / 2 {
        write_word(table, 2 * count, group);
        write_word(table, 2 * count + 1, member);
    }
}

// Whether the table has the pair. Where the group has no members no pair is looked at.
fn held(table: &[i32], count: usize, group: i32, member: i32, members: u32) -> bool
    requires members_value { members ≡ size group (table_of table.now count) }
    requires count_in_bounds { 2 * count ≤ length table.now }
    ensures { result ≡ holds group member (table_of table.now count) }
{
    members != 0 && present(table, count, group, member)
}

// AD: the count of pairs after it, or the cause to stop. The group is judged by the list and before the table, and both before anything is written.
pub fn add_pair(
    table: &mut [i32],
    groups: &mut [i32],
    count: usize,
    limit: u32,
    group: i32,
    member: i32,
) -> Result<usize, Stop>
    requires { HasList limit table.old count groups.old }
    ensures value { result ≡ change_of (added limit group member (table_of table.old count)) }
    ensures table_after { table.new ≡ words_after table.old (added limit group member (table_of table.old count)) }
    ensures keeps_list { KeepsList limit table.old count groups.old table.new (count_after count result) groups.new }
    ensures value_2 { result ≡ change_of (added_by_list limit group member (table_of table.old count) groups.old) }
{
    if !numbers_fit(group, member) {
        return Err(Stop::NumberBelowOne);
    }
    let found = find_group(groups, count, group);
    if held(table, count, group, member, found.number) {
        return Ok(count);
    }
    if limit <= found.number {
        return Err(Stop::GroupFull);
    }
    if table.len() / 2 <= count {
        return Err(Stop::TableFull);
    }
    append(table, count, group, member);
    raise(groups, count + 1, found, group);
    Ok(count + 1)
}

// RM: the same. An absent pair changes nothing, and is not looked for where its group is not in the list.
pub fn remove_pair(
    table: &mut [i32],
    groups: &mut [i32],
    count: usize,
    group: i32,
    member: i32,
) -> Result<usize, Stop>
    requires { (limit : ℕ) × HasList limit table.old count groups.old }
    ensures value { result ≡ change_of (removed group member (table_of table.old count)) }
    ensures table_after { table.new ≡ words_after table.old (removed group member (table_of table.old count)) }
    ensures by_index { (limit : ℕ) → KeepsList limit table.old count groups.old table.new (count_after count result) groups.new }
    ensures value_2 { result ≡ change_of (removed_by_list group member (table_of table.old count) groups.old) }
{
    if !numbers_fit(group, member) {
        return Err(Stop::NumberBelowOne);
    }
    let found = find_group(groups, count, group);
    if found.number == 0 {
        return Ok(count);
    }
    let Some(place) = place_of(table, count, group, member) else {
        return Ok(count);
    };
    // No other place than `place`: so that the compiler does not carry what `take_out` needs of it through the search.
    take_out(table, count, place % 9223372036854775808);
    lower(groups, count, found);
    Ok(count - 1)
}

// QY: the value that it stores, or the cause to stop. The value is 1 where the pair is present, else 0.
pub fn query_pair(table: &[i32], count: usize, group: i32, member: i32) -> Result<i32, Stop>
    ensures { result ≡ value_of (queried group member (table_of table.now count)) }
{
    if !numbers_fit(group, member) {
        return Err(Stop::NumberBelowOne);
    }
    Ok(i32::from(present(table, count, group, member)))
}
