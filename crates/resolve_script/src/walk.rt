// The walk over a script's records in file order. It is safe on any bytes. What is lent stays apart in its functions: of a struct handed on
// whole, each would have to say which parts it leaves alone, as `kinds` and `leaf` would, which write the code alone.
ghost use Rattle.std.specs.Prelude.{◌≡◌, ℕ, ◌+◌, ◌<◌, ◌≤◌, length};
ghost use Rattle.language.specs.Encoding.{BK-mark, PR-mark};
ghost use Rattle.laws.specs.Fields.{field_at};
ghost use Rattle.check_symbols.specs.Chains.{Chained};
ghost use Rattle.check_scope.specs.Walking.{Ready, Kept};
ghost use Rattle.resolve_names.specs.Declared.{Declarable};
ghost use Rattle.resolve_script.specs.Resolving.{FormalsWritten, Enters, BlockWritten, ItemsWritten, ItemWritten, Onward};

use check_extents::past;
use check_fields::word;
use check_marks::{BK, BK_BYTES, FM_BYTES, LB, LB_BYTES, PR, PR_BYTES, VR, VR_BYTES};
use check_symbols::{insert, remove};
use check_uses::Scope;
use layout::{bounds_word, head_word};
use resolve_names::declare;
use resolve_statements::emit;
use resolve_words::{emit_name, named, put, put_all};

// A record that holds no other, with its mark.
fn leaf(scope: Scope<'_>, code: &mut [u32], at: usize, mark: usize) -> usize
    requires { (length scope.script.now ≤ 8192) × (at < length scope.script.now) × (mark < 65536)
        × (mark ≡ field_at scope.script.now at) × (mark ≡ PR-mark → ⊥) × (mark ≡ BK-mark → ⊥) }
    ensures written { (name level : ℕ) → ItemWritten scope.entry.script.now scope.entry.entries.now name at scope.entry.top level code.old code.new result }
    ensures onward { Onward at (length scope.entry.script.now) result }
{
    match mark {
        VR => {
            emit_name(scope, code, at);
            at + VR_BYTES
        }
        LB => {
            emit_name(scope, code, at);
            at + LB_BYTES
        }
        _ => {
            emit(scope, code, at, mark);
            past(scope.script, at, mark)
        }
    }
}

// The kinds of so many formals from an offset on.
fn kinds(script: &[u8], code: &mut [u32], at: usize, count: usize)
    requires { (at ≤ 1000000) × (count < 65536) }
    ensures { FormalsWritten script.now at count code.old code.new }
{
    for i in 0..count {
        let here = at + FM_BYTES * i + 4;
        put(code, here, word(script, here));
    }
}

// A block's names come into the array, and its formals' kinds and its BK's words are written. Where its text ends is not known yet.
fn enter(
    script: &[u8],
    entries: &mut [usize],
    ends: &mut [u32; 683],
    starts: &mut [u32],
    code: &mut [u32],
    name: usize,
    at: usize,
    count: usize,
    d: usize,
    s: usize,
    base: usize,
    level: usize,
) -> usize
    requires { Declarable script.now entries.old starts.old ends.old at count d s base level × (768 ≤ base) × Chained entries.old (base + (count + d)) }
    ensures { Enters script.now entries.old entries.new ends.new code.old code.new name at count d base level result }
{
    let first = declare(script, entries, ends, starts, at, count, d, s, base, level);
    insert(entries, base, base + (count + d));
    kinds(script, code, at, count);
    let scope = Scope {
        script,
        entries,
        top: base,
    };
    let looked = named(scope, name);
    let head = head_word(level, count, count + d);
    put_all(code, at + FM_BYTES * count, &[head, 0, looked]);
    first
}

// So many formals at an offset and their block after them. Its names are put below `top` before any of its text is walked.
#[cycle(block_item_items)]
pub fn block(
    script: &[u8],
    entries: &mut [usize],
    ends: &mut [u32; 683],
    starts: &mut [u32],
    code: &mut [u32],
    name: usize,
    at: usize,
    count: usize,
    top: usize,
    level: usize,
) -> usize
    requires { Ready script.now entries.old ends.old top × (2048 ≤ length starts.old) × (at ≤ length script.now + 6) × (count < 65536) × (level ≤ at + 1) }
    ensures written { BlockWritten script.now entries.old name at count top level code.old code.new result }
    ensures onward { Onward at (length script.now) result }
    ensures kept { Kept script.now entries.old entries.new ends.new top }
{
    let start = at + FM_BYTES * count;
    if word(script, start) != BK {
        return start;
    }
    let d = word(script, start + 2);
    let s = word(script, start + 4);
    if top < 768 + (count + d) {
        return start;
    }
    let base = top - (count + d);
    let first = enter(
        script, entries, ends, starts, code, name, at, count, d, s, base, level,
    );
    let end = items(
        script,
        entries,
        ends,
        starts,
        code,
        name,
        start + BK_BYTES,
        d + s,
        base,
        level,
    );
    put(code, start + 2, bounds_word(end / 2, first / 2));
    remove(entries, base, top);
    end
}

// So many declarations and statements from an offset on.
#[cycle(block_item_items)]
fn items(
    script: &[u8],
    entries: &mut [usize],
    ends: &mut [u32; 683],
    starts: &mut [u32],
    code: &mut [u32],
    name: usize,
    at: usize,
    count: usize,
    top: usize,
    level: usize,
) -> usize
    requires { Ready script.now entries.old ends.old top × (2048 ≤ length starts.old) × (at ≤ length script.now + 400000) × (count ≤ 131070) × (level ≤ at) }
    ensures written { ItemsWritten script.now entries.old name at count top level code.old code.new result }
    ensures onward { Onward at (length script.now) result }
    ensures kept { Kept script.now entries.old entries.new ends.new top }
{
    let mut here = at;
    for _ in 0..count {
        if script.len() <= here {
            return here;
        }
        here = item(script, entries, ends, starts, code, name, here, top, level);
    }
    here
}

// One declaration or statement.
#[cycle(block_item_items)]
fn item(
    script: &[u8],
    entries: &mut [usize],
    ends: &mut [u32; 683],
    starts: &mut [u32],
    code: &mut [u32],
    name: usize,
    at: usize,
    top: usize,
    level: usize,
) -> usize
    requires { Ready script.now entries.old ends.old top × (2048 ≤ length starts.old) × (at < length script.now) × (level ≤ at) }
    ensures written { ItemWritten script.now entries.old name at top level code.old code.new result }
    ensures onward { Onward at (length script.now) result }
    ensures kept { Kept script.now entries.old entries.new ends.new top }
{
    match word(script, at) {
        PR => {
            let scope = Scope {
                script,
                entries,
                top,
            };
            emit_name(scope, code, at);
            let count = word(script, at + 4);
            block(
                script,
                entries,
                ends,
                starts,
                code,
                name,
                at + PR_BYTES,
                count,
                top,
                level + 1,
            )
        }
        BK => block(
            script,
            entries,
            ends,
            starts,
            code,
            name,
            at,
            0,
            top,
            level + 1,
        ),
        mark => {
            let scope = Scope {
                script,
                entries,
                top,
            };
            leaf(scope, code, at, mark)
        }
    }
}
