// The walk over a script's records in file order. It is safe on any bytes up to 8,192.
ghost use Rattle.std.specs.Prelude.{◌+◌, ◌<◌, ◌≤◌, length};
ghost use Rattle.check_scope.specs.Walking.{Ready, Kept, Ahead, BlockJudged, ItemsJudged, ItemJudged};

use check_extents::push;
use check_fields::word;
use check_marks::{BK, BK_BYTES, FM_BYTES, LB, LB_BYTES, PR, PR_BYTES, VR, VR_BYTES};
use check_statements::action;
use check_symbols::{insert, remove};
use check_uses::Scope;
use language::{Fault, Refusal};

// So many formals at an offset and their block after them. Its names are put below `top` before any of its text is judged.
#[cycle(block_item_items)]
pub fn block(
    script: &[u8],
    entries: &mut [usize],
    ends: &mut [u32; 683],
    at: usize,
    count: usize,
    top: usize,
) -> Result<usize, Fault>
    requires { Ready script.now entries.old ends.old top × (at ≤ 500000) × (count < 65536) }
    ensures judged { BlockJudged script.now entries.old at count top result }
    ensures ahead { Ahead at (length script.now) result }
    ensures kept { Kept script.now entries.old entries.new ends.new top }
{
    let start = at + FM_BYTES * count;
    if word(script, start) != BK {
        return Err(Fault {
            cause: Refusal::MarkMisplaced,
            offset: start,
        });
    }
    let d = word(script, start + 2);
    let s = word(script, start + 4);
    if top < 768 + (count + d) {
        return Err(Fault {
            cause: Refusal::TooManyNames,
            offset: start,
        });
    }
    let base = top - (count + d);
    push(script, entries, ends, start + BK_BYTES, d, base + count);
    push(script, entries, ends, at, count, base);
    insert(entries, base, top);
    let judged = items(script, entries, ends, start + BK_BYTES, d + s, base);
    remove(entries, base, top);
    judged
}

// So many declarations and statements from an offset on.
#[cycle(block_item_items)]
fn items(
    script: &[u8],
    entries: &mut [usize],
    ends: &mut [u32; 683],
    at: usize,
    count: usize,
    top: usize,
) -> Result<usize, Fault>
    requires { Ready script.now entries.old ends.old top × (at ≤ length script.now + 131076) × (count ≤ 131070) }
    ensures judged { ItemsJudged script.now entries.old at count top result }
    ensures ahead { Ahead at (length script.now) result }
    ensures kept { Kept script.now entries.old entries.new ends.new top }
{
    let mut here = at;
    for _ in 0..count {
        if script.len() <= here {
            return Err(Fault {
                cause: Refusal::PastTheEnd,
                offset: here,
            });
        }
        here = item(script, entries, ends, here, top)?;
    }
    Ok(here)
}

// One declaration or statement.
#[cycle(block_item_items)]
fn item(
    script: &[u8],
    entries: &mut [usize],
    ends: &mut [u32; 683],
    at: usize,
    top: usize,
) -> Result<usize, Fault>
    requires { Ready script.now entries.old ends.old top × (at < length script.now) }
    ensures judged { ItemJudged script.now entries.old at top result }
    ensures ahead { Ahead at (length script.now) result }
    ensures kept { Kept script.now entries.old entries.new ends.new top }
{
    let mark = word(script, at);
    if mark == PR {
        return block(
            script,
            entries,
            ends,
            at + PR_BYTES,
            word(script, at + 4),
            top,
        );
    }
    if mark == BK {
        return block(script, entries, ends, at, 0, top);
    }
    if mark == VR {
        return Ok(at + VR_BYTES);
    }
    if mark == LB {
        return Ok(at + LB_BYTES);
    }
    let scope = Scope {
        script,
        entries,
        top,
    };
    action(scope, at, mark)
}
