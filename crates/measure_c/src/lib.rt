// The static library that the benchmark and its tests link: each function is the one of measure that has its name, under the same contract.
#![tactic(auto)]

ghost use Rattle.std.specs.Prelude.{◌&&◌, ◌≡◌};
ghost use Rattle.language.specs.Table.{find, right};
ghost use Rattle.language.specs.Groups.{list_fits, list_right};
ghost use Rattle.table_pairs.specs.Outcomes.{table_of};
ghost use Rattle.measure.specs.Found.{place_or};

// Whether the table is right for a group limit, and its list long enough and right.
#[unsafe(no_mangle)]
pub extern "C" fn measure_right(table: &[i32], count: usize, limit: u32, groups: &[i32]) -> bool
    ensures { result ≡ (list_fits (table_of table.now count) groups.now && (right limit (table_of table.now count) && list_right (table_of table.now count) groups.now)) }
{
    measure::measure_right(table, count, limit, groups)
}

// The place of a pair among the first `count`, and `count` where it is not there.
#[unsafe(no_mangle)]
pub extern "C" fn measure_find(table: &[i32], count: usize, group: i32, member: i32) -> usize
    ensures { result ≡ place_or count (find group member count table.now) }
{
    measure::measure_find(table, count, group, member)
}
