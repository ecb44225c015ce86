// Whether a table and the list of groups beside it are right.
#![tactic(auto)]

ghost use Rattle.std.specs.Prelude.{◌≡◌, ◌&&◌, ◌*◌, ◌≤◌, length};
ghost use Rattle.language.specs.Table.{numbers_right, right};
ghost use Rattle.language.specs.Groups.{list_words, list_right};
ghost use Rattle.table_pairs.specs.Outcomes.{table_of};

use table_list_test::list_agrees;
use table_once::pairs_differ;
use table_search::{group_at, member_at, numbers_fit};

fn numbers_right(table: &[i32], count: usize) -> bool
    requires { 2 * count ≤ length table.now }
    ensures { result ≡ numbers_right count table.now }
{
    for i in 0..count {
        if !numbers_fit(group_at(table, i), member_at(table, i)) {
            return false;
        }
    }
    true
}

// For a group limit. The list says how large each group is, so that no group is counted but to test the list.
pub fn table_and_list_right(table: &[i32], count: usize, limit: u32, groups: &[i32]) -> bool
    requires { list_words (table_of table.now count) ≤ length groups.now }
    ensures { result ≡ (right limit (table_of table.now count) && list_right (table_of table.now count) groups.now) }
{
    if table.len() % 2 != 0 {
        return false;
    }
    if table.len() / 2 < count {
        return false;
    }
    if !numbers_right(table, count) {
        return false;
    }
    if !pairs_differ(table, count) {
        return false;
    }
    list_agrees(table, count, limit, groups)
}
