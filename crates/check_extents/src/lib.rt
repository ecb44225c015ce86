// Passing over the records of a script, where each ends, and the entries of those that declare names. All is safe on any bytes up to 8,192.
#![tactic(auto)]

ghost use Rattle.std.specs.Prelude.{◌+◌, ◌<◌, ◌≤◌, length};
ghost use Rattle.check_extents.specs.Passing.{Ends, Placed};

use check_fields::word;
use check_symbols::entry_of;

mod ends;
mod passing;

pub use ends::skip;
pub use passing::{Step, pass, past, past_pair};

// So many records from an offset on declare names: their entries are put from `base` on.
pub fn push(
    script: &[u8],
    entries: &mut [usize],
    ends: &mut [u32; 683],
    at: usize,
    count: usize,
    base: usize,
)
    requires { (length script.now ≤ 8192) × (at ≤ 1000000) × (base + count ≤ length entries.old) × Ends script.now ends.old }
    ensures { Placed script.now entries.old entries.new ends.new at count base }
{
    let mut here = at;
    for entry in &mut entries[base..base + count] {
        *entry = entry_of(word(script, here + 2), here);
        here = skip(script, ends, here);
    }
}
