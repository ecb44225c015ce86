// Places in slots that are made for them: up to 32,768 at once. A longer list is parted into windows of so many places, and each has a go
// over the table of its own.
#![tactic(auto)]

ghost use Rattle.std.specs.Prelude.{◌≡◌, true, false, ◌*◌, ◌≤◌, ◌<◌, length, replicate};
ghost use Rattle.language.specs.Table.{numbers_right};
ghost use Rattle.table_places.specs.Places.{places_in, Rising};
ghost use Rattle.table_lefts.specs.Lefts.{TalliedIs, Roomy};

use table_blocks::lower_window;
use table_index::fill;
use table_lefts::{exact_in, none_left};

// Whether each number is a full count of its group. Where the places are the whole list, all pairs are looked up and none is passed over.
fn exact_part(
    table: &[i32],
    count: usize,
    places: &[i32],
    whole: bool,
    slots: &mut [u16],
    lefts: &mut [u32],
) -> bool
    requires count_in_bounds { 2 * count ≤ length table.now }
    requires table_value { numbers_right count table.now ≡ true }
    requires rising { Rising (places_in places.now) places.now }
    requires places_nonzero { whole ≡ false → 0 < places_in places.now }
    requires roomy { Roomy (places_in places.now) slots.old lefts.old }
    requires slots_value { slots.old ≡ replicate (length slots.old) 0 }
    ensures { TalliedIs result table.now count places.now }
{
    if whole {
        return exact_in(table, count, places, slots, lefts);
    }
    fill(places, slots, lefts);
    if !lower_window(table, count, places, slots, lefts) {
        return false;
    }
    none_left(lefts, places.len() / 2)
}

// The same in room for so many places and slots. Slots are cleared first, so that a list takes no more room than it needs.
pub fn exact_in_room<const PLACES: usize, const SLOTS: usize>(
    table: &[i32],
    count: usize,
    places: &[i32],
    whole: bool,
) -> bool
    requires count_in_bounds { 2 * count ≤ length table.now }
    requires table_value { numbers_right count table.now ≡ true }
    requires rising { Rising (places_in places.now) places.now }
    requires places_nonzero { whole ≡ false → 0 < places_in places.now }
    requires places_bound { places_in places.now ≤ PLACES }
    requires places_few { PLACES < 65535 }
    requires slots_more { PLACES < SLOTS }
    requires slots_most { SLOTS ≤ 4294967296 }
    ensures { TalliedIs result table.now count places.now }
{
    let mut slots = [0u16; SLOTS];
    let mut lefts = [0u32; PLACES];
    exact_part(table, count, places, whole, &mut slots, &mut lefts)
}

// How many places of more than one window are gone through first.
fn first_half(used: usize) -> usize
    requires lt_used { 32768 < used }
    requires used_bound { used < 9223372036854775808 }
    ensures result_nonzero { 0 < result }
    ensures upper_bound { result < used }
{
    (used + 32767) / 65536 * 32768
}

// The same for any number of places: about half of the windows, and then the rest. Since it calls itself, the slots' room is not taken by its callers,
// which would pay for it at each call.
pub fn exact_windows(table: &[i32], count: usize, places: &[i32], whole: bool) -> bool
    requires count_in_bounds { 2 * count ≤ length table.now }
    requires table_value { numbers_right count table.now ≡ true }
    requires rising { Rising (places_in places.now) places.now }
    requires places_nonzero { 0 < places_in places.now }
    ensures { TalliedIs result table.now count places.now }
{
    let used = places.len() / 2;
    if used <= 32768 {
        return exact_in_room::<32768, 98304>(table, count, places, whole);
    }
    let middle = 2 * first_half(used);
    if !exact_windows(table, count, &places[..middle], false) {
        return false;
    }
    exact_windows(table, count, &places[middle..], false)
}
