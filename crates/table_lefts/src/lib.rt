// Each pair of the table takes one from the number of its group's place. Slots hold the places of a window of the list, all of it where the
// list is short. A pair whose group has no place there is passed over: where all numbers come to 0, and together are as many as the pairs,
// there is none.
#![tactic(auto)]

ghost use Rattle.std.specs.Prelude.{◌≡◌, true, false, ℕ, ◌*◌, ◌≤◌, ◌<◌, length, get_or, replicate};
ghost use Rattle.language.specs.Table.{numbers_right};
ghost use Rattle.table_places.specs.Places.{places_in, Rising};
ghost use Rattle.table_index.specs.Index.{Indexed};
ghost use Rattle.table_totals.specs.Placed.{Tallied};
ghost use Rattle.table_lefts.specs.Lefts.{Lowered, Exhausted, LeftsAre, SomeLeft, TalliedIs, Roomy};

use table_index::{fill, seek};
use table_places::natural_at;

// Takes one from what is left of a group's number: false where nothing is left.
pub fn lower(places: &[i32], slots: &[u16], lefts: &mut [u32], group: u64) -> bool
    requires rising { Rising (places_in places.now) places.now }
    requires slots_len_bound { length slots.now ≤ 4294967296 }
    requires indexed { Indexed places.now (places_in places.now) slots.now }
    requires places_in_bounds { places_in places.now ≤ length lefts.old }
    requires group_bound { group < 4294967296 }
    ensures lowered { result ≡ true → Lowered places.now group lefts.old lefts.new }
    ensures exhausted { result ≡ false → Exhausted places.now group lefts.old }
{
    let Some(place) = seek(places, slots, group) else {
        return true;
    };
    if lefts[place] == 0 {
        return false;
    }
    lefts[place] -= 1;
    true
}

// All pairs of the table: false where one finds nothing left.
pub fn lower_all(
    table: &[i32],
    count: usize,
    places: &[i32],
    slots: &[u16],
    lefts: &mut [u32],
) -> bool
    requires count_in_bounds { 2 * count ≤ length table.now }
    requires table_value { numbers_right count table.now ≡ true }
    requires rising { Rising (places_in places.now) places.now }
    requires slots_len_bound { length slots.now ≤ 4294967296 }
    requires indexed { Indexed places.now (places_in places.now) slots.now }
    requires places_in_bounds { places_in places.now ≤ length lefts.old }
    requires lefts_are { LeftsAre table.now 0 places.now lefts.old }
    ensures lefts_are_2 { result ≡ true → LeftsAre table.now count places.now lefts.new }
    ensures fact { result ≡ false → Tallied table.now count places.now (places_in places.now) → ⊥ }
{
    for i in 0..count {
        if !lower(places, slots, lefts, natural_at(table, 2 * i)) {
            return false;
        }
    }
    true
}

// Whether nothing is left of the first `n` numbers. All are read, with no way out at the first that is not 0.
pub fn none_left(lefts: &[u32], n: usize) -> bool
    requires n_in_bounds { n ≤ length lefts.now }
    requires n_bound { n < 65535 }
    ensures p_value { result ≡ true → (p : ℕ) → p < n → get_or lefts.now p 0 ≡ 0 }
    ensures some_left { result ≡ false → SomeLeft lefts.now n }
{
    let mut others: u32 = 0;
    for &left in &lefts[..n] {
        if left != 0 {
            others += 1;
        }
    }
    others == 0
}

// Whether each number is a full count of its group, for places that are all in the slots at once.
pub fn exact_in(
    table: &[i32],
    count: usize,
    places: &[i32],
    slots: &mut [u16],
    lefts: &mut [u32],
) -> bool
    requires count_in_bounds { 2 * count ≤ length table.now }
    requires table_value { numbers_right count table.now ≡ true }
    requires rising { Rising (places_in places.now) places.now }
    requires roomy { Roomy (places_in places.now) slots.old lefts.old }
    requires slots_value { slots.old ≡ replicate (length slots.old) 0 }
    ensures { TalliedIs result table.now count places.now }
{
    fill(places, slots, lefts);
    if !lower_all(table, count, places, slots, lefts) {
        return false;
    }
    none_left(lefts, places.len() / 2)
}
