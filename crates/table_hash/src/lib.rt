// The hash of a pair's key, the whole pair or its group alone, and what is taken from it.
#![tactic(auto)]

ghost use Rattle.std.specs.Prelude.{◌≡◌, ◌+◌, ◌*◌, ◌≤◌, ◌<◌, length};
ghost use Rattle.table_hash.specs.Hashes.{weight_of, combine, mix, hash_at, class_of, bucket, mask_of, mark_of};

use table_search::{group_at, member_at};

// A number as it is hashed.
fn weight(number: i32) -> u64
    ensures value { result ≡ weight_of number }
    ensures upper_bound { result < 2147483648 }
{
    if number < 0 {
        return 0;
    }
    number as u64
}

fn combined(group: u64, member: u64) -> u64
    requires group_bound { group < 2147483648 }
    requires member_bound { member < 2147483648 }
    ensures { result ≡ combine group member }
{
    group * 1640531527 + member * 1540483477
}

// Numbers that follow each other are common in a table, so a product alone would leave a pattern.
fn mixed(h: u64) -> u64
    ensures { result ≡ mix h }
{
    let a = h ^ (h / 4294967296);
    (a ^ (a / 65536)) % 4294967296 * 3266489909
}

// `whole` is true at every call today, and stays: the size of a group is the same rule with false (`groups-within` of table_test), and a must-fail edit of
// table_once takes the group alone for the key.
pub fn hash(table: &[i32], whole: bool, i: usize) -> u64
    requires { 2 * i + 1 < length table.now }
    ensures { result ≡ hash_at whole table.now i }
{
    let group = weight(group_at(table, i));
    if whole {
        return mixed(combined(group, weight(member_at(table, i))));
    }
    mixed(combined(group, 0))
}

#[tactic(auto, unfolding(crate::specs::Hashes::class_of))]
pub fn class_of(hash: u64, classes: u64) -> u64
    requires { classes < 281474976710656 }
    ensures { result ≡ class_of classes hash }
{
    hash % 65536 * classes / 65536
}

#[tactic(auto, unfolding(crate::specs::Hashes::bucket))]
pub fn bucket_of(buckets: u64, hash: u64) -> usize
    requires buckets_bound { buckets ≤ 4294967296 }
    requires buckets_nonzero { 0 < buckets }
    ensures value { result ≡ bucket buckets hash }
    ensures upper_bound { result < buckets }
{
    (hash / 1048576 % 4294967296 * buckets / 4294967296) as usize
}

pub fn mask_of(hash: u64) -> u64
    ensures { result ≡ mask_of hash }
{
    (1u64 << (hash / 16777216 % 64))
        | (1u64 << (hash / 1073741824 % 64))
        | (1u64 << (hash / 4503599627370496 % 64))
}

pub fn mark_of(hash: u64) -> usize
    ensures value { result ≡ mark_of hash }
    ensures upper_bound { result < 4096 }
{
    (hash / 256 % 4096) as usize
}
