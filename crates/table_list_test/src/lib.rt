// Whether a lent list of groups agrees with the table, and no group is larger than the limit.
#![tactic(auto)]

ghost use Rattle.std.specs.Prelude.{◌≡◌, true, ◌&&◌, ◌*◌, ◌≤◌, length};
ghost use Rattle.language.specs.Table.{numbers_right, groups_within};
ghost use Rattle.language.specs.Groups.{list_words, list_right};
ghost use Rattle.table_pairs.specs.Outcomes.{table_of};
ghost use Rattle.table_places.specs.Places.{places_in, Rising};
ghost use Rattle.table_lefts.specs.Lefts.{TalliedIs};

use table_places::read_places;
use table_windows::{exact_in_room, exact_windows};

// Whether each number is a full count of its group, with four slots for each place that there may be.
fn exact(table: &[i32], count: usize, places: &[i32]) -> bool
    requires count_in_bounds { 2 * count ≤ length table.now }
    requires table_value { numbers_right count table.now ≡ true }
    requires rising { Rising (places_in places.now) places.now }
    ensures { TalliedIs result table.now count places.now }
{
    let used = places.len() / 2;
    if used <= 256 {
        return exact_in_room::<256, 1024>(table, count, places, true);
    }
    if used <= 1024 {
        return exact_in_room::<1024, 4096>(table, count, places, true);
    }
    if used <= 4096 {
        return exact_in_room::<4096, 16384>(table, count, places, true);
    }
    exact_windows(table, count, places, true)
}

// Of a table whose numbers are at least 1. The list's numbers are together as many as the pairs, so that full counts leave no pair without a
// place, and none is above the limit, so that no group is.
pub fn list_agrees(table: &[i32], count: usize, limit: u32, groups: &[i32]) -> bool
    requires count_in_bounds { 2 * count ≤ length table.now }
    requires table_value { numbers_right count table.now ≡ true }
    requires count_in_bounds_2 { list_words (table_of table.now count) ≤ length groups.now }
    ensures { result ≡ (groups_within limit (table_of table.now count) count table.now && list_right (table_of table.now count) groups.now) }
{
    let words = 2 * (table.len() / 2);
    match read_places(&groups[..words], limit, count) {
        Some(used) => exact(table, count, &groups[..2 * used]),
        None => false,
    }
}
