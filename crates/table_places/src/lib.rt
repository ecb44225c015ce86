// The lent list of groups as it stands, with no look at the table: its places, up to the first whose group is 0, and zeros after them. The
// words 2 p and 2 p + 1 of the slice are the group and the number of the place at p.
#![tactic(auto)]

ghost use Rattle.std.specs.Prelude.{◌≡◌, ◌+◌, ◌*◌, ◌<◌, ◌≤◌, pos, nat_abs, length, take, drop, get_or};
ghost use Rattle.table_places.specs.Places.{Natural, place_fits, all_zero, ended, read_places};

use table_search::{group_at, member_at, numbers_fit};

// A word that is not negative.
pub fn natural_at(words: &[i32], at: usize) -> u64
    requires at_in_bounds { at < length words.now }
    requires natural { Natural (get_or words.now at (pos 0)) }
    ensures value { result ≡ nat_abs (get_or words.now at (pos 0)) }
    ensures upper_bound { result < 2147483648 }
{
    words[at] as u64
}

// Whether all words of a block are 0. All are read, with no way out at the first that is not, so that several are tested at once.
fn block_zero(block: &[i32]) -> bool
    requires { length block.now ≤ 64 }
    ensures { result ≡ all_zero block.now }
{
    let mut others: u32 = 0;
    for &word in block {
        if word != 0 {
            others += 1;
        }
    }
    others == 0
}

// Blocks are cut off as arrays, so that the compiler knows their length: over `chunks(64)` the same took two thirds longer.
fn zero_from(list: &[i32], from: usize) -> bool
    requires { from ≤ length list.now }
    ensures { result ≡ all_zero (drop from list.now) }
{
    let mut rest = &list[from..];
    while let Some((block, after)) = rest.split_first_chunk::<64>() {
        if !block_zero(block) {
            return false;
        }
        rest = after;
    }
    block_zero(rest)
}

// Whether a place may come after one of group `last`, where `left` pairs are to be counted yet.
fn place_fits(group: i32, number: i32, last: u64, limit: u32, left: usize) -> bool
    ensures { result ≡ place_fits limit last left group number }
{
    if !numbers_fit(group, number) {
        return false;
    }
    if group as u64 <= last {
        return false;
    }
    if (limit as u64) < number as u64 {
        return false;
    }
    number as usize <= left
}

// The end of the places: all pairs are counted, and zeros follow.
fn ends(list: &[i32], k: usize, left: usize) -> Option<usize>
    requires { 2 * k ≤ length list.now }
    ensures { result ≡ ended left k (drop (2 * k) list.now) }
{
    if left != 0 {
        return None;
    }
    if !zero_from(list, 2 * k) {
        return None;
    }
    Some(k)
}

// How many places are in use, or nothing where the list is wrong whatever the table holds: groups rise, each number is from 1 to the limit, and all numbers
// together are the count.
pub fn read_places(list: &[i32], limit: u32, count: usize) -> Option<usize>
    ensures { result ≡ read_places limit 0 count 0 list.now }
{
    let mut last: u64 = 0;
    let mut left = count;
    for k in 0..list.len() / 2 {
        let group = group_at(list, k);
        if group == 0 {
            return ends(list, k, left);
        }
        let number = member_at(list, k);
        if !place_fits(group, number, last, limit, left) {
            return None;
        }
        last = group as u64;
        left -= number as usize;
    }
    ends(list, list.len() / 2, left)
}
