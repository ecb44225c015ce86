// A go over the table for a window of the list's places. The pairs of the window are gathered first, by blocks and without a branch, since
// which of them are in it cannot be guessed.
#![tactic(auto)]

ghost use Rattle.std.specs.Prelude.{◌≡◌, ℕ, ◌+◌, ◌-◌, ◌*◌, ◌<◌, ◌≤◌, true, false, length, take};
ghost use Rattle.language.specs.Table.{numbers_right};
ghost use Rattle.laws.specs.Tables.{group_at};
ghost use Rattle.table_places.specs.Places.{Natural, places_in, Rising};
ghost use Rattle.table_index.specs.Index.{Indexed};
ghost use Rattle.table_totals.specs.Placed.{Tallied};
ghost use Rattle.table_lefts.specs.Lefts.{LeftsAre};
ghost use Rattle.table_blocks.specs.Blocks.{Gathered, Taken, Overdrawn};

use table_lefts::lower;
use table_places::natural_at;

// Whether a group is one of those from `first` to `first` + `span`.
fn between(first: u32, span: u32, group: u32) -> bool
    requires { first + span < 4294967296 }
    ensures { result ≡ false → first ≤ group → group ≤ first + span → ⊥ }
{
    std::num::wrapping_sub_u32(group, first) <= span
}

// The groups of the pairs from `from` to `to` that are within the window's first and last group.
fn gather(table: &[i32], from: usize, to: usize, first: u32, span: u32, block: &mut [u32]) -> usize
    requires to_in_bounds { 2 * to ≤ length table.now }
    requires by_index { (j : ℕ) → j < to → Natural (group_at j table.now) }
    requires from_le_to { from ≤ to }
    requires from_in_bounds { to - from ≤ length block.old }
    requires span_bound { first + span < 4294967296 }
    ensures upper_bound { result ≤ length block.new }
    ensures gathered { Gathered table.now from to first span (take result block.new) }
{
    let mut n: usize = 0;
    for i in from..to {
        let group = natural_at(table, 2 * i) as u32;
        block[n] = group;
        if between(first, span, group) {
            n += 1;
        }
    }
    n
}

// Each group of a block takes one from what is left of its number: false where nothing is left.
fn lower_block(block: &[u32], places: &[i32], slots: &[u16], lefts: &mut [u32]) -> bool
    requires rising { Rising (places_in places.now) places.now }
    requires slots_len_bound { length slots.now ≤ 4294967296 }
    requires indexed { Indexed places.now (places_in places.now) slots.now }
    requires places_in_bounds { places_in places.now ≤ length lefts.old }
    ensures taken { result ≡ true → Taken places.now block.now lefts.old lefts.new }
    ensures overdrawn { result ≡ false → Overdrawn places.now block.now lefts.old }
{
    for &group in block {
        if !lower(places, slots, lefts, u64::from(group)) {
            return false;
        }
    }
    true
}

// Where the block of pairs from `from` on ends.
fn block_end(from: usize, count: usize) -> usize
    requires { from < count }
    ensures lower_bound { from < result }
    ensures upper_bound { result ≤ count }
    ensures from_bound { result - from ≤ 1024 }
{
    if count - from <= 1024 {
        count
    } else {
        from + 1024
    }
}

// All pairs of a window: false where one finds nothing left.
pub fn lower_window(
    table: &[i32],
    count: usize,
    places: &[i32],
    slots: &[u16],
    lefts: &mut [u32],
) -> bool
    requires count_in_bounds { 2 * count ≤ length table.now }
    requires table_value { numbers_right count table.now ≡ true }
    requires rising { Rising (places_in places.now) places.now }
    requires places_nonzero { 0 < places_in places.now }
    requires slots_len_bound { length slots.now ≤ 4294967296 }
    requires indexed { Indexed places.now (places_in places.now) slots.now }
    requires places_in_bounds { places_in places.now ≤ length lefts.old }
    requires lefts_are { LeftsAre table.now 0 places.now lefts.old }
    ensures lefts_are_2 { result ≡ true → LeftsAre table.now count places.now lefts.new }
    ensures fact { result ≡ false → Tallied table.now count places.now (places_in places.now) → ⊥ }
{
    let first = natural_at(places, 0) as u32;
    let last = natural_at(places, 2 * (places.len() / 2 - 1)) as u32;
    let span = last - first;
    let mut block = [0u32; 1024];
    let mut i = 0;
    // No range: a step is a block of pairs, and the last one may be short.
    while i < count {
        let to = block_end(i, count);
        let n = gather(table, i, to, first, span, &mut block);
        if !lower_block(&block[..n], places, slots, lefts) {
            return false;
        }
        i = to;
    }
    true
}
