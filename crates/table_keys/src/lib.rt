// Pairs with one key: the whole pair, or its group alone.
#![tactic(auto)]

ghost use Rattle.std.specs.Prelude.{◌≡◌, ◌+◌, ◌*◌, ◌<◌, length};
ghost use Rattle.table_keys.specs.Keys.{same_at, rank_at};

use table_search::{group_at, member_at};

// Whether the pair at `j` has the key of the one at `i`.
pub fn same_key(table: &[i32], whole: bool, i: usize, j: usize) -> bool
    requires i_in_bounds { 2 * i + 1 < length table.now }
    requires j_in_bounds { 2 * j + 1 < length table.now }
    ensures { result ≡ same_at whole table.now i j }
{
    group_at(table, j) == group_at(table, i)
        && (!whole || member_at(table, j) == member_at(table, i))
}

// How many pairs up to place `i`, and with it, have its key: each is read.
pub fn rank(table: &[i32], whole: bool, i: usize) -> usize
    requires { 2 * i + 1 < length table.now }
    ensures { result ≡ rank_at whole i table.now }
{
    let mut found = 0;
    for j in 0..=i {
        if same_key(table, whole, i, j) {
            found += 1;
        }
    }
    found
}
