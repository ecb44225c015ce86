// Counting suspected pairs by key in one go over the table, in slots found by a hash: 27,904 of them, and 256 more for the window of
// the last. They have room for some twenty thousand keys, so the keys are parted into classes, and each class has a pass of its own.
#![tactic(auto)]

ghost use Rattle.std.specs.Prelude.{◌≡◌, true, false, ℕ, ◌+◌, ◌*◌, ◌≤◌, ◌<◌, length, get_or};
ghost use Rattle.table_keys.specs.Keys.{rank_at, within};
ghost use Rattle.table_hash.specs.Hashes.{hash_at};
ghost use Rattle.table_slots.specs.Slots.{place_in, number_in, firsts, Probed, Good, wanted, Counted, TooMany};

use table_filter::is_suspected;
use table_hash::{bucket_of, class_of, hash};
use table_keys::{rank, same_key};

// Where a search for a key among the slots ends: at an empty slot, at the key's own, or nowhere in the window.
#[derive(Clone, Copy)]
pub enum Slot {
    Empty(usize),
    Held(usize),
    Full,
}

fn place_in(v: u64) -> usize
    ensures { result ≡ place_in v }
{
    (v % 4294967296) as usize
}

fn number_in(v: u64) -> u64
    ensures { result ≡ number_in v }
{
    v / 4294967296
}

fn probe(table: &[i32], whole: bool, i: usize, slots: &[u64; 28160], slot: usize) -> Slot
    requires i_in_bounds { 2 * i + 1 < length table.now }
    requires slot_in_bounds { slot + 256 ≤ 28160 }
    requires by_index { (q : ℕ) → 2 * get_or (firsts slots.now) q 0 ≤ length table.now }
    ensures { Probed whole table.now i (firsts slots.now) slot result }
{
    for t in 0..256 {
        let f = place_in(slots[slot + t]);
        if f == 0 {
            return Slot::Empty(slot + t);
        }
        if same_key(table, whole, i, f - 1) {
            return Slot::Held(slot + t);
        }
    }
    Slot::Full
}

// The pair at `i` is counted: whether its rank is within the limit.
fn count_pair(
    table: &[i32],
    whole: bool,
    limit: u32,
    i: usize,
    h: u64,
    slots: &mut [u64; 28160],
) -> bool
    requires i_in_bounds { 2 * i + 1 < length table.now }
    requires i_bound { i < 4294967295 }
    requires limit_nonzero { 0 < limit }
    requires h_value { h ≡ hash_at whole table.now i }
    requires by_index { (q : ℕ) → get_or (firsts slots.old) q 0 ≤ i }
    ensures counted { result ≡ true → Counted whole table.now limit i slots.old slots.new }
    ensures too_many { result ≡ false → TooMany whole table.now limit i slots.old }
{
    let found = probe(table, whole, i, slots, bucket_of(27904, h));
    match found {
        Slot::Empty(q) => {
            slots[q] = (i + 1) as u64 + 4294967296;
            true
        }
        Slot::Held(q) => {
            let v = slots[q];
            if limit as u64 <= number_in(v) {
                return false;
            }
            slots[q] = v + 4294967296;
            true
        }
        Slot::Full => rank(table, whole, i) <= limit as usize,
    }
}

// The pair at `i` is counted, if it is suspected and its key is of the class.
fn count_wanted(
    table: &[i32],
    whole: bool,
    limit: u32,
    class: u64,
    classes: u64,
    i: usize,
    marks: &[u64; 4096],
    slots: &mut [u64; 28160],
) -> bool
    requires i_in_bounds { 2 * i + 1 < length table.now }
    requires i_bound { i < 4294967295 }
    requires limit_nonzero { 0 < limit }
    requires classes_bound { classes < 281474976710656 }
    requires good { Good whole table.now (wanted whole table.now classes class marks.now) i slots.old }
    ensures good_2 { result ≡ true → Good whole table.now (wanted whole table.now classes class marks.now) (i + 1) slots.new }
    ensures table_bound { result ≡ true → wanted whole table.now classes class marks.now i ≡ true → rank_at whole i table.now ≤ limit }
    ensures limit_bound { result ≡ false → limit < rank_at whole i table.now }
{
    let h = hash(table, whole, i);
    if !is_suspected(table, whole, i, h, marks) {
        return true;
    }
    if class_of(h, classes) != class {
        return true;
    }
    count_pair(table, whole, limit, i, h, slots)
}

// Whether the suspected pairs of one class have ranks within the limit. `whole` as in `hash` of table_hash.
pub fn count_class(
    table: &[i32],
    count: usize,
    whole: bool,
    limit: u32,
    class: u64,
    classes: u64,
    marks: &[u64; 4096],
) -> bool
    requires count_in_bounds { 2 * count ≤ length table.now }
    requires count_bound { count ≤ 4294967295 }
    requires limit_nonzero { 0 < limit }
    requires classes_bound { classes < 281474976710656 }
    ensures table_bound { result ≡ true → (j : ℕ) → j < count → wanted whole table.now classes class marks.now j ≡ true → rank_at whole j table.now ≤ limit }
    ensures table_value { result ≡ false → within whole limit count table.now ≡ false }
{
    let mut slots = [0u64; 28160];
    for i in 0..count {
        if !count_wanted(table, whole, limit, class, classes, i, marks, &mut slots) {
            return false;
        }
    }
    true
}
