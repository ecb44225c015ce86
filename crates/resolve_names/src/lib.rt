// A block's own names with their words, put into the array of visible names. All is safe on any bytes up to 8,192.
#![tactic(auto)]

ghost use Rattle.std.specs.Prelude.{◌≡◌, false, ◌+◌, ◌^◌, ◌<◌, ◌≤◌, length, get_or};
ghost use Rattle.check_extents.specs.Passing.{Ends};
ghost use Rattle.resolve_names.specs.Declared.{Noted, Unlabelled, IfLabelled, Worded, DeclaredEntry, FormalEntry, OwnEntry, OwnPut, Declarable, Declares};

use check_extents::skip;
use check_fields::word;
use check_marks::{BK_BYTES, FM_BYTES, LB, PR, PR_BYTES};
use check_symbols::entry_of;
use layout::name_word;
use numbers::from_u32;

// An offset of the array; 0 past its end.
fn start_of(starts: &[u32], i: usize) -> usize
    ensures { (result ≡ get_or starts.now i 0) × (result < 2 ^ 32) }
{
    starts.get(i).map_or(0, |start| from_u32(*start))
}

// Where so many records from an offset on begin is put from `base` on. The answer is where they end.
fn places(
    script: &[u8],
    ends: &mut [u32; 683],
    starts: &mut [u32],
    at: usize,
    count: usize,
    base: usize,
) -> usize
    requires { (length script.now ≤ 8192) × (at ≤ 1000000) × (count < 65536) × (base < 65536) × Ends script.now ends.old }
    ensures { Noted script.now starts.old starts.new ends.new at count base result }
{
    let mut here = at;
    for i in 0..count {
        if starts.len() <= base + i {
            return here;
        }
        starts[base + i] = here as u32;
        here = skip(script, ends, here);
    }
    here
}

// Whether some of d records whose offsets are noted is a label.
fn labelled(script: &[u8], starts: &[u32], d: usize) -> bool
    ensures { result ≡ false → Unlabelled script.now starts.now d }
{
    (0..d).any(|i| word(script, start_of(starts, i)) == LB)
}

// Where the statements of a block stand is noted after its d declarations, if one of these is a label.
fn note_statements(
    script: &[u8],
    ends: &mut [u32; 683],
    starts: &mut [u32],
    at: usize,
    count: usize,
    d: usize,
)
    requires { (length script.now ≤ 8192) × (at ≤ 1000000) × (count < 65536) × (d < 65536) × Ends script.now ends.old }
    ensures { IfLabelled script.now starts.old starts.new ends.new at count d }
{
    if labelled(script, starts, d) {
        places(script, ends, starts, at, count, d);
    }
}

// The word of the name that the declaration at an offset declares, one of d in its block.
fn declared_word(
    script: &[u8],
    starts: &[u32],
    at: usize,
    d: usize,
    level: usize,
    i: usize,
) -> usize
    requires { (at < 2 ^ 32) × (1 ≤ d) × (d < 65536) × (level ≤ 1000000) × (i < 2 ^ 17) }
    ensures { Worded script.now starts.now at d level i result × (result < 2 ^ 48) }
{
    match word(script, at) {
        PR => {
            let body = (at + PR_BYTES + FM_BYTES * word(script, at + 4)) / 2;
            name_word(i, 0, layout::PROCEDURE, level, body)
        }
        LB => {
            let statement = start_of(starts, d - 1 + word(script, at + 4)) / 2;
            name_word(i, 0, layout::LABEL, level, statement)
        }
        _ => name_word(i, 0, layout::VARIABLE, level, 0),
    }
}

fn declared_entry(
    script: &[u8],
    starts: &[u32],
    at: usize,
    d: usize,
    level: usize,
    i: usize,
) -> usize
    requires { (at < 2 ^ 32) × (1 ≤ d) × (d < 65536) × (level ≤ 1000000) × (i < 2 ^ 17) }
    ensures { DeclaredEntry script.now starts.now at d level i result }
{
    let w = declared_word(script, starts, at, d, level, i);
    entry_of(word(script, at + 2), w)
}

// The entry of the formal at an offset.
fn formal_entry(script: &[u8], at: usize, level: usize, i: usize) -> usize
    requires { (at < 2 ^ 32) × (level ≤ 1000000) × (i < 2 ^ 17) }
    ensures { FormalEntry script.now at level i result }
{
    let w = name_word(i, 1, word(script, at + 4), level, 0);
    entry_of(word(script, at + 2), w)
}

// The entry of a block's name with a position: so many formals at an offset, then d declarations whose offsets are noted.
fn own_entry(
    script: &[u8],
    starts: &[u32],
    at: usize,
    count: usize,
    d: usize,
    level: usize,
    i: usize,
) -> usize
    requires { (at ≤ 1000000) × (count < 65536) × (d < 65536) × (level ≤ 1000000) × (i < count + d) }
    ensures { OwnEntry script.now starts.now at count d level i result }
{
    if i < count {
        return formal_entry(script, at + FM_BYTES * i, level, i);
    }
    let here = start_of(starts, i - count);
    declared_entry(script, starts, here, d, level, i)
}

fn push_own(
    script: &[u8],
    entries: &mut [usize],
    starts: &[u32],
    at: usize,
    count: usize,
    d: usize,
    base: usize,
    level: usize,
)
    requires { (at ≤ 1000000) × (count < 65536) × (d < 65536) × (level ≤ 1000000) × (base + (count + d) ≤ length entries.old) }
    ensures { OwnPut script.now starts.now entries.old entries.new at count d base level }
{
    for i in 0..count + d {
        entries[base + i] = own_entry(script, starts, at, count, d, level, i);
    }
}

// The entries of a block's names: so many formals at an offset, and d declarations after its BK. The answer is where its first statement
// stands.
pub fn declare(
    script: &[u8],
    entries: &mut [usize],
    ends: &mut [u32; 683],
    starts: &mut [u32],
    at: usize,
    count: usize,
    d: usize,
    s: usize,
    base: usize,
    level: usize,
) -> usize
    requires { Declarable script.now entries.old starts.old ends.old at count d s base level }
    ensures { Declares script.now entries.old entries.new ends.new at count d base level result }
{
    let first = places(script, ends, starts, at + FM_BYTES * count + BK_BYTES, d, 0);
    note_statements(script, ends, starts, first, s, d);
    push_own(script, entries, starts, at, count, d, base, level);
    first
}
