// Whether many pairs differ. Each pair sets two bits of a word that its hash chooses: where one of them was clear, the pair stands nowhere before.
// The others are suspected, and each of them sets a bit among the marks: pairs whose bit is set there are stored in slots.
#![tactic(auto)]

ghost use Rattle.std.specs.Prelude.{◌≡◌, true, false, ℕ, ◌*◌, ◌≤◌, ◌<◌, IfSome, length, get_or};
ghost use Rattle.language.specs.Table.{numbers_right};
ghost use Rattle.table_keys.specs.Keys.{within};
ghost use Rattle.table_filter.specs.Filter.{covers, Has};
ghost use Rattle.table_sieve.specs.Sieve.{cell_of, mask_of, mark_of, bit_of, set_in, Known};

use table_distinct::{hash_at, home_of, store, word_at};

fn cell_of(hash: u64) -> usize
    ensures value { result ≡ cell_of hash }
    ensures upper_bound { result < 32768 }
{
    (hash / 131072 % 32768) as usize
}

// A bit of each half: where the bits of pairs in sequence are far from each other in one half, those of the other half take none of them away.
fn mask_of(hash: u64) -> u64
    ensures { result ≡ mask_of hash }
{
    (1u64 << (hash / 4096 % 32)) | (4294967296u64 << (hash / 4294967296 % 32))
}

fn mark_of(hash: u64) -> usize
    ensures value { result ≡ mark_of hash }
    ensures upper_bound { result < 12288 }
{
    (hash / 1024 % 16384 * 3 / 4) as usize
}

fn bit_of(hash: u64) -> u64
    ensures { result ≡ bit_of hash }
{
    1u64 << (hash / 16 % 64)
}

fn is_marked(hash: u64, marks: &[u64; 12288]) -> bool
    ensures { result ≡ covers (get_or marks.now (mark_of hash) 0) (bit_of hash) }
{
    let bit = bit_of(hash);
    marks[mark_of(hash)] & bit == bit
}

// The bits of a pair are set, and where they were set before, it is marked: whether it is.
fn insert(hash: u64, seen: &mut [u64; 32768], marks: &mut [u64; 12288]) -> bool
    ensures seen_after { seen.new ≡ set_in seen.old (cell_of hash) (mask_of hash) }
    ensures marks_after { result ≡ true → marks.new ≡ set_in marks.old (mark_of hash) (bit_of hash) }
    ensures marks_unchanged { result ≡ false → marks.new ≡ marks.old }
    ensures fact { result ≡ false → Has seen.old (cell_of hash) (mask_of hash) → ⊥ }
{
    let q = cell_of(hash);
    let before = seen[q];
    let after = before | mask_of(hash);
    seen[q] = after;
    if after != before {
        return false;
    }
    let p = mark_of(hash);
    marks[p] = marks[p] | bit_of(hash);
    true
}

// Whether a pair is suspected.
fn sieve(table: &[i32], count: usize, marks: &mut [u64; 12288]) -> bool
    requires count_in_bounds { 2 * count ≤ length table.now }
    requires table_value { numbers_right count table.now ≡ true }
    ensures by_index { (j : ℕ) → j < count → Known table.now marks.new j }
    ensures table_value_2 { result ≡ false → within true 1 count table.now ≡ true }
{
    let mut seen = [0u64; 32768];
    let mut suspected = false;
    for i in 0..count {
        if insert(hash_at(table, i), &mut seen, marks) {
            suspected = true;
        }
    }
    suspected
}

// Whether the pairs differ, told by those whose bits are set among the marks: nothing where the slots have no room.
fn settle(table: &[i32], count: usize, marks: &[u64; 12288]) -> Option<bool>
    requires count_in_bounds { 2 * count ≤ length table.now }
    requires table_value { numbers_right count table.now ≡ true }
    requires by_index { (j : ℕ) → j < count → Known table.now marks.now j }
    ensures { IfSome result (λ differ. differ ≡ within true 1 count table.now) }
{
    let mut slots = [0u64; 32768];
    let mut kept: usize = 0;
    for i in 0..count {
        let hash = hash_at(table, i);
        if is_marked(hash, marks) {
            if kept == 28000 {
                return None;
            }
            if !store(&mut slots, word_at(table, i), home_of(hash, 32768)) {
                return Some(false);
            }
            kept += 1;
        }
    }
    Some(true)
}

// Whether the pairs differ, or nothing where the slots have no room. Of 400,000 random pairs some 24,000 are stored in slots.
pub fn sieved(table: &[i32], count: usize) -> Option<bool>
    requires count_in_bounds { 2 * count ≤ length table.now }
    requires table_value { numbers_right count table.now ≡ true }
    ensures { IfSome result (λ differ. differ ≡ within true 1 count table.now) }
{
    let mut marks = [0u64; 12288];
    if !sieve(table, count, &mut marks) {
        return Some(true);
    }
    settle(table, count, &marks)
}
