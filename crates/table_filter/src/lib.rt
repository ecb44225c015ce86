// Which pairs may have the key of one before them. Each pair has three bits set in a word that its hash chooses: where one of them
// is clear, no pair before has its key. The others are suspected, and their bits are set among the marks, in fewer words.
#![tactic(auto)]

ghost use Rattle.std.specs.Prelude.{◌≡◌, true, ℕ, ◌+◌, ◌*◌, ◌≤◌, ◌<◌, length, get_or, set};
ghost use Rattle.table_hash.specs.Hashes.{hash_at, bucket};
ghost use Rattle.table_filter.specs.Filter.{covers, join, suspected, OfClass, Cleared, Inserted};

use table_hash::{bucket_of, class_of, hash, mark_of, mask_of};

fn is_covered(word: u64, mask: u64) -> bool
    ensures { result ≡ covers word mask }
{
    word & mask == mask
}

// A mask's bits are set in a word.
pub fn put(bits: &mut [u64], q: usize, mask: u64)
    requires { q < length bits.old }
    ensures { bits.new ≡ set bits.old q (join (get_or bits.old q 0) mask) }
{
    bits[q] |= mask;
}

// Whether the bits of the pair at `i`, whose hash is known, are set among the marks.
pub fn is_suspected(table: &[i32], whole: bool, i: usize, h: u64, marks: &[u64; 4096]) -> bool
    requires { h ≡ hash_at whole table.now i }
    ensures { result ≡ suspected whole table.now marks.now i }
{
    is_covered(marks[mark_of(h)], mask_of(h))
}

// A pair of another class sets no bits, in a word that no pair uses: a choice of numbers is quicker than a branch that is not foreseen.
fn word_for(own: bool, h: u64) -> usize
    ensures value { own ≡ true → result ≡ bucket 28160 h }
    ensures upper_bound { result < 28161 }
{
    let q = bucket_of(28160, h);
    if own {
        return q;
    }
    28160
}

fn mask_for(own: bool, mask: u64) -> u64
    ensures { own ≡ true → result ≡ mask }
{
    if own {
        return mask;
    }
    0
}

// The bits of the pair at `i` are set, if its key is of the class, and it is marked if they were set before.
fn insert(
    table: &[i32],
    whole: bool,
    class: u64,
    classes: u64,
    i: usize,
    seen: &mut [u64; 28161],
    marks: &mut [u64; 4096],
)
    requires i_in_bounds { 2 * i + 1 < length table.now }
    requires classes_bound { classes < 281474976710656 }
    requires inserted { Inserted whole table.now classes class i seen.old marks.old }
    ensures { Inserted whole table.now classes class (i + 1) seen.new marks.new }
{
    let h = hash(table, whole, i);
    let mask = mask_of(h);
    let own = class_of(h, classes) == class;
    let q = word_for(own, h);
    let word = seen[q];
    put(seen, q, mask_for(own, mask));
    if is_covered(word, mask) {
        put(marks, mark_of(h), mask);
    }
}

pub fn clear_marks(marks: &mut [u64])
    requires { length marks.old ≡ 4096 }
    ensures { (q : ℕ) → get_or marks.new q 0 ≡ 0 }
{
    marks.fill(0);
}

// The pairs of a class that are not suspected have a key that no pair before them has. `whole` as in `hash` of table_hash.
pub fn insert_all(
    table: &[i32],
    count: usize,
    whole: bool,
    class: u64,
    classes: u64,
    marks: &mut [u64; 4096],
)
    requires count_in_bounds { 2 * count ≤ length table.now }
    requires classes_bound { classes < 281474976710656 }
    ensures { (j : ℕ) → j < count → OfClass whole table.now classes class j → Cleared whole table.now 1 marks.new j }
{
    let mut seen = [0u64; 28161];
    for i in 0..count {
        insert(table, whole, class, classes, i, &mut seen, marks);
    }
}
