// Whether pairs differ from each other: each is put into a slot of its own, found by a hash, unless it stands in one.
#![tactic(auto)]

ghost use Rattle.std.specs.Prelude.{◌≡◌, true, false, ◌+◌, ◌*◌, ◌≤◌, ◌<◌, nat_abs, length};
ghost use Rattle.language.specs.Table.{at_least_one, numbers_right};
ghost use Rattle.laws.specs.Tables.{member_at};
ghost use Rattle.table_probes.specs.Room.{room};
ghost use Rattle.table_keys.specs.Keys.{within};
ghost use Rattle.table_distinct.specs.Slots.{numbers_at, word_at, hash_of, slot_of, whole, Stored, Holds};

use table_search::{group_at, member_at};

fn word(number: i32) -> u64
    requires { at_least_one number ≡ true }
    ensures value { result ≡ nat_abs number }
    ensures upper_bound { result < 2147483648 }
{
    (number as u32) as u64
}

// The pair at `i` in one word.
pub fn word_at(table: &[i32], i: usize) -> u64
    requires i_in_bounds { 2 * i + 1 < length table.now }
    requires i_value { numbers_at table.now i ≡ true }
    ensures value { result ≡ word_at table.now i }
    ensures table_bound { nat_abs (member_at i table.now) < 4294967296 }
{
    let group = word(group_at(table, i));
    let member = word(member_at(table, i));
    group * 4294967296 + member
}

// Pairs in sequence have slots far from each other, as the fractions of multiples of a number have.
pub fn hash_at(table: &[i32], i: usize) -> u64
    requires i_in_bounds { 2 * i + 1 < length table.now }
    requires i_value { numbers_at table.now i ≡ true }
    ensures value { result ≡ hash_of (word_at table.now i) }
    ensures table_bound { nat_abs (member_at i table.now) < 4294967296 }
{
    let group = word(group_at(table, i));
    let member = word(member_at(table, i));
    group * 1886004147 + member * 3726408501
}

// The slot from which a pair with the hash is sought, of `size`.
#[tactic(auto, unfolding(crate::specs::Slots::slot_of))]
pub fn home_of(hash: u64, size: usize) -> usize
    requires size_nonzero { 0 < size }
    requires size_bound { size < 4294967296 }
    ensures value { result ≡ slot_of size hash }
    ensures upper_bound { result < size }
{
    (hash % 4294967296 * (size as u64) / 4294967296) as usize
}

// Whether the key is new: then it is stored in the first empty slot from `home` on. The search goes round the slots, so it is no `for`.
pub fn store(slots: &mut [u64], key: u64, home: usize) -> bool
    requires home_in_bounds { home < length slots.old }
    requires slots_nonzero { 0 < room slots.old }
    ensures stored { result ≡ true → Stored whole key home key slots.old slots.new }
    ensures holds { result ≡ false → Holds whole slots.old key }
{
    let mut q = home;
    while slots[q] != 0 {
        if slots[q] == key {
            return false;
        }
        q += 1;
        if q == slots.len() {
            q = 0;
        }
    }
    slots[q] = key;
    true
}

// Whether the pairs differ, in slots of which one stays empty. Fewer slots are cleared sooner, and where most are in use, a search passes many.
pub fn differ_in_slots<const SLOTS: usize>(table: &[i32], count: usize) -> bool
    requires count_in_bounds { 2 * count ≤ length table.now }
    requires table_value { numbers_right count table.now ≡ true }
    requires count_bound { count < SLOTS }
    requires slots_bound { SLOTS < 4294967296 }
    ensures { result ≡ within true 1 count table.now }
{
    let mut slots = [0u64; SLOTS];
    for i in 0..count {
        let home = home_of(hash_at(table, i), SLOTS);
        if !store(&mut slots, word_at(table, i), home) {
            return false;
        }
    }
    true
}
