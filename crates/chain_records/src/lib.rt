// The activation records of the chain engine: small structs in a slice that the caller lends, read, pushed and followed. Nothing else looks into the slice.
#![tactic(auto)]

ghost use Rattle.std.specs.Prelude.{◌≡◌, ◌<◌, ◌≤◌, length, set};
ghost use Rattle.chain_records.specs.Records.{at, hop, Linked};

// The place of an activation's BK, the place of its next statement, and its link.
#[repr(C)]
#[derive(Clone, Copy)]
pub struct Activation {
    pub block: u32,
    pub next: u32,
    pub link: u32,
}

pub fn read(records: &[Activation], k: usize) -> Activation
    requires { k < length records.now }
    ensures { result ≡ at records.now k }
{
    records[k]
}

pub fn push(records: &mut [Activation], k: usize, activation: Activation)
    requires { k < length records.old }
    ensures { records.new ≡ set records.old k activation }
{
    records[k] = activation;
}

// The activation so many links further out. Most names are at most one link away, and the first link is taken before the loop.
pub fn follow(records: &[Activation], from: usize, count: usize) -> usize
    requires { Linked records.now from }
    ensures { (result ≡ hop records.now from count) × (result ≤ from) }
{
    if count == 0 {
        return from;
    }
    let mut activation = records[from].link as usize;
    for taken in 1..count {
        activation = records[activation].link as usize;
    }
    activation
}
