// Whether pairs differ, in slots of 32 bits: a slot has the place of a pair and 16 bits of its hash. There are twice as many in the room of slots of 64 bits, so
// that more searches end at the first: where one goes on, the processor has guessed wrong.
#![tactic(auto)]

ghost use Rattle.std.specs.Prelude.{◌≡◌, true, false, ℕ, ◌+◌, ◌*◌, ◌≤◌, ◌<◌, length};
ghost use Rattle.language.specs.Table.{numbers_right};
ghost use Rattle.table_probes.specs.Room.{room};
ghost use Rattle.table_keys.specs.Keys.{within};
ghost use Rattle.table_distinct.specs.Slots.{numbers_at, word_at, hash_of, Holds};
ghost use Rattle.table_packed.specs.Packed.{tag_of, pair_in, Named, Placed, NewIn};

use table_distinct::{hash_at, home_of, word_at};

fn tag_of(hash: u64) -> u32
    ensures value { result ≡ tag_of hash }
    ensures upper_bound { result < 65536 }
{
    (hash / 4294967296 % 65536) as u32
}

// Whether a slot's word is that of the pair at `i`: the table is read where the bits of the hash are the same.
fn is_pair(table: &[i32], i: usize, tag: u32, word: u32) -> bool
    requires i_in_bounds { 2 * i + 1 < length table.now }
    requires by_index { (j : ℕ) → j ≤ i → numbers_at table.now j ≡ true }
    requires tag_value { tag ≡ tag_of (hash_of (word_at table.now i)) }
    requires named { Named table.now i word }
    ensures word_value { result ≡ true → pair_in table.now word ≡ word_at table.now i }
    ensures fact { result ≡ false → pair_in table.now word ≡ word_at table.now i → ⊥ }
{
    if word / 65536 != tag {
        return false;
    }
    word_at(table, (word % 65536 - 1) as usize) == word_at(table, i)
}

// Whether the pair at `i` is new: then its place is stored in the first empty slot from its home on. The search goes round the slots, so it is no `for`.
fn store(table: &[i32], i: usize, hash: u64, slots: &mut [u32]) -> bool
    requires i_in_bounds { 2 * i + 1 < length table.now }
    requires i_bound { i < 65535 }
    requires by_index { (j : ℕ) → j ≤ i → numbers_at table.now j ≡ true }
    requires hash_value { hash ≡ hash_of (word_at table.now i) }
    requires placed { Placed table.now i slots.old }
    requires slots_len_bound { length slots.old < 4294967296 }
    requires slots_nonzero { 0 < room slots.old }
    ensures new_in { result ≡ true → NewIn table.now i slots.old slots.new }
    ensures holds { result ≡ false → Holds (pair_in table.now) slots.old (word_at table.now i) }
{
    let tag = tag_of(hash);
    let mut q = home_of(hash, slots.len());
    while slots[q] != 0 {
        if is_pair(table, i, tag, slots[q]) {
            return false;
        }
        q += 1;
        if q == slots.len() {
            q = 0;
        }
    }
    slots[q] = tag * 65536 + (i + 1) as u32;
    true
}

// Whether the pairs differ.
pub fn differ_in_65536(table: &[i32], count: usize) -> bool
    requires count_in_bounds { 2 * count ≤ length table.now }
    requires table_value { numbers_right count table.now ≡ true }
    requires count_bound { count < 65536 }
    ensures { result ≡ within true 1 count table.now }
{
    let mut slots = [0u32; 65536];
    for i in 0..count {
        if !store(table, i, hash_at(table, i), &mut slots) {
            return false;
        }
    }
    true
}
