// The test of table and list and the search of a pair, for the benchmark and its tests alone; the crate measure_c exports them to C.
#![tactic(auto)]

ghost use Rattle.std.specs.Prelude.{◌&&◌, ◌≡◌};
ghost use Rattle.language.specs.Table.{find, right};
ghost use Rattle.language.specs.Groups.{list_fits, list_right};
ghost use Rattle.table_pairs.specs.Outcomes.{table_of};
ghost use Rattle.measure.specs.Found.{place_or};

use table_search::place_of;
use table_test::table_and_list_right;

// Whether the table is right for a group limit, and its list long enough and right.
pub fn measure_right(table: &[i32], count: usize, limit: u32, groups: &[i32]) -> bool
    ensures { result ≡ (list_fits (table_of table.now count) groups.now && (right limit (table_of table.now count) && list_right (table_of table.now count) groups.now)) }
{
    2 * (table.len() / 2) <= groups.len() && table_and_list_right(table, count, limit, groups)
}

// The place of a pair among the first `count`, and `count` where it is not there.
pub fn measure_find(table: &[i32], count: usize, group: i32, member: i32) -> usize
    ensures { result ≡ place_or count (find group member count table.now) }
{
    place_of(table, count, group, member).unwrap_or(count)
}
