// Whether each pair of a table stands once. Which way is taken depends on how many pairs there are.
#![tactic(auto)]

ghost use Rattle.std.specs.Prelude.{◌≡◌, true, false, ℕ, ◌*◌, ◌≤◌, ◌<◌, IfSome, length};
ghost use Rattle.language.specs.Table.{numbers_right};
ghost use Rattle.table_keys.specs.Keys.{rank_at, within};
ghost use Rattle.table_filter.specs.Filter.{OfClass};

use table_distinct::differ_in_slots;
use table_filter::insert_all;
use table_keys::rank;
use table_packed::differ_in_65536;
use table_sieve::sieved;
use table_slots::count_class;

// Whether the pairs differ: for each of them all before it are read.
fn differ_by_reading(table: &[i32], count: usize) -> bool
    requires { 2 * count ≤ length table.now }
    ensures { result ≡ within true 1 count table.now }
{
    for i in 0..count {
        if 1 < rank(table, true, i) {
            return false;
        }
    }
    true
}

// Whether the pairs of one class differ.
fn class_differs(table: &[i32], count: usize, class: u64, classes: u64) -> bool
    requires count_in_bounds { 2 * count ≤ length table.now }
    requires count_bound { count ≤ 4294967295 }
    requires classes_bound { classes < 281474976710656 }
    ensures table_bound { result ≡ true → (j : ℕ) → j < count → OfClass true table.now classes class j → rank_at true j table.now ≤ 1 }
    ensures table_value { result ≡ false → within true 1 count table.now ≡ false }
{
    let mut marks = [0u64; 4096];
    insert_all(table, count, true, class, classes, &mut marks);
    count_class(table, count, true, 1, class, classes, &marks)
}

// Whether the pairs differ, in classes of some 400,000.
fn classes_differ(table: &[i32], count: usize) -> bool
    requires count_in_bounds { 2 * count ≤ length table.now }
    requires count_bound { count ≤ 4294967295 }
    ensures { result ≡ within true 1 count table.now }
{
    let classes = (count / 409600) as u64 + 1;
    for class in 0..classes {
        if !class_differs(table, count, class, classes) {
            return false;
        }
    }
    true
}

// Whether the pairs differ, by a quick way that may have no room, or by one that always has it.
fn tested(table: &[i32], count: usize, quick: bool) -> Option<bool>
    requires count_in_bounds { 2 * count ≤ length table.now }
    requires table_value { numbers_right count table.now ≡ true }
    ensures says { IfSome result (λ differ. differ ≡ within true 1 count table.now) }
    ensures value { quick ≡ false → result ≡ Some (within true 1 count table.now) }
{
    if quick {
        if count <= 2500 {
            return Some(differ_in_slots::<8192>(table, count));
        }
        if count <= 8000 {
            return Some(differ_in_slots::<32768>(table, count));
        }
        if count <= 24000 {
            return Some(differ_in_65536(table, count));
        }
        return sieved(table, count);
    }
    if 4294967295 < count {
        return Some(differ_by_reading(table, count));
    }
    Some(classes_differ(table, count))
}

// A function that is called from two places is not compiled into its caller, so that a few pairs do not pay for its arrays.
fn many_differ(table: &[i32], count: usize) -> bool
    requires count_in_bounds { 2 * count ≤ length table.now }
    requires table_value { numbers_right count table.now ≡ true }
    ensures { result ≡ within true 1 count table.now }
{
    match tested(table, count, count <= 400000) {
        Some(differ) => differ,
        None => tested(table, count, false).unwrap_or(false),
    }
}

// Whether no pair stands twice.
pub fn pairs_differ(table: &[i32], count: usize) -> bool
    requires count_in_bounds { 2 * count ≤ length table.now }
    requires table_value { numbers_right count table.now ≡ true }
    ensures { result ≡ within true 1 count table.now }
{
    if count <= 90 {
        return differ_in_slots::<128>(table, count);
    }
    if count <= 1000 {
        return differ_in_slots::<2048>(table, count);
    }
    many_differ(table, count)
}
