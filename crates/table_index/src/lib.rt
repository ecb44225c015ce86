// The groups of a list's places in slots, from a slot that a hash gives on to the first empty one. A slot has 16 bits: with three or four
// slots for each place a search seldom goes past the first.
#![tactic(auto)]

ghost use Rattle.std.specs.Prelude.{◌≡◌, ℕ, ◌+◌, ◌*◌, ◌≤◌, ◌<◌, length, get_or, replicate};
ghost use Rattle.table_places.specs.Places.{number_in, places_in, Rising};
ghost use Rattle.table_probes.specs.Ring.{next as nextSlot};
ghost use Rattle.table_probes.specs.Room.{room};
ghost use Rattle.table_probes.specs.Probes.{Reached};
ghost use Rattle.table_index.specs.Index.{home_of, Indexed, Sought};

use table_places::natural_at;

// The product spreads groups that follow each other. Without the first step it would leave some groups at equal distances close together.
#[tactic(auto, unfolding(crate::specs::Index::home_of))]
fn home(size: usize, group: u64) -> usize
    requires size_nonzero { 0 < size }
    requires size_bound { size ≤ 4294967296 }
    requires group_bound { group < 4294967296 }
    ensures value { result ≡ home_of size group }
    ensures upper_bound { result < size }
{
    let mixed = (group ^ (group / 256)) % 4294967296;
    (mixed * 2654435769 % 4294967296 * size as u64 / 4294967296) as usize
}

fn next(size: usize, q: usize) -> usize
    requires { q < size }
    ensures { result ≡ nextSlot size q }
{
    if q + 1 < size { q + 1 } else { 0 }
}

// The empty slot in which a search for a group that is in no slot ends.
fn vacant(slots: &[u16], group: u64) -> usize
    requires slots_len_bound { length slots.now ≤ 4294967296 }
    requires group_bound { group < 4294967296 }
    requires slots_nonzero { 0 < room slots.now }
    ensures reached { Reached (home_of (length slots.now) group) slots.now result }
    ensures result_value { get_or slots.now result 0 ≡ 0 }
{
    let mut q = home(slots.len(), group);
    // No range: the search ends at an empty slot, whose number is not known before.
    loop {
        if slots[q] == 0 {
            return q;
        }
        q = next(slots.len(), q);
    }
}

// The place with the group, if there is one. The number in a slot is one more than the place, which is 0 where the slot is empty.
pub fn seek(places: &[i32], slots: &[u16], group: u64) -> Option<usize>
    requires slots_len_bound { length slots.now ≤ 4294967296 }
    requires group_bound { group < 4294967296 }
    requires rising { Rising (places_in places.now) places.now }
    requires indexed { Indexed places.now (places_in places.now) slots.now }
    ensures { Sought places.now (places_in places.now) group result }
{
    let mut q = home(slots.len(), group);
    loop {
        let number = usize::from(slots[q]);
        if number == 0 {
            return None;
        }
        if natural_at(places, 2 * (number - 1)) == group {
            return Some(number - 1);
        }
        q = next(slots.len(), q);
    }
}

// The place at `k` is put into a slot.
fn enter(places: &[i32], k: usize, slots: &mut [u16])
    requires rising { Rising (places_in places.now) places.now }
    requires k_bound { k < places_in places.now }
    requires k_bound_2 { k < 65535 }
    requires k_in_bounds { k + 1 < length slots.old }
    requires slots_len_bound { length slots.old ≤ 4294967296 }
    requires indexed { Indexed places.now k slots.old }
    ensures { Indexed places.now (k + 1) slots.new }
{
    let q = vacant(slots, natural_at(places, 2 * k));
    slots[q] = (k + 1) as u16;
}

// All places are put into slots that are empty; their numbers stand in a list beside them.
pub fn fill(places: &[i32], slots: &mut [u16], lefts: &mut [u32])
    requires rising { Rising (places_in places.now) places.now }
    requires places_bound { places_in places.now < 65535 }
    requires places_in_bounds { places_in places.now < length slots.old }
    requires slots_len_bound { length slots.old ≤ 4294967296 }
    requires places_in_bounds_2 { places_in places.now ≤ length lefts.old }
    requires slots_value { slots.old ≡ replicate (length slots.old) 0 }
    ensures indexed { Indexed places.now (places_in places.now) slots.new }
    ensures by_index { (p : ℕ) → p < places_in places.now → get_or lefts.new p 0 ≡ number_in places.now p }
{
    for k in 0..places.len() / 2 {
        enter(places, k, slots);
        lefts[k] = natural_at(places, 2 * k + 1) as u32;
    }
}
