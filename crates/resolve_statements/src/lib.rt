// The words of a statement of the resolved script, written at their places. All is safe on any bytes.
#![tactic(auto)]

ghost use Rattle.std.specs.Prelude.{◌≡◌, ◌∷◌, ◌+◌, ◌*◌, ◌^◌, ◌<◌, eqb, drop};
ghost use Rattle.laws.specs.Fields.{field_at};
ghost use Rattle.resolved.specs.Resolved.{chosen};
ghost use Rattle.resolve_statements.specs.Emitted.{kn_words, ar_words, if_words, go_words, cl_words, pair_words, qy_words, argument_words, Written, Emitted};

use check_fields::word;
use check_marks::{AD, AR, CL, GO, IF, KN, RM};
use check_uses::Scope;
use layout::formal_of;
use resolve_words::{put, put_all, used};

// The operation of a statement with so many formals among its names.
fn operation(formals: usize, plain: usize, other: usize) -> usize
    ensures { result ≡ chosen (eqb formals 0) plain other }
{
    if formals == 0 {
        return plain;
    }
    other
}

fn emit_kn(scope: Scope<'_>, code: &mut [u32], at: usize)
    requires { at < 2 ^ 32 }
    ensures { Written kn_words scope.entry.script.now (drop scope.entry.top scope.entry.entries.now) at code.old code.new }
{
    let w = used(scope, at + 2);
    let value = word(scope.script, at + 4) + 65536 * word(scope.script, at + 6);
    let op = operation(formal_of(w), layout::CONSTANT, layout::CONSTANT_FORMAL);
    put_all(code, at, &[op, w, value, 0]);
}

fn emit_ar(scope: Scope<'_>, code: &mut [u32], at: usize)
    requires { at < 2 ^ 32 }
    ensures { Written ar_words scope.entry.script.now (drop scope.entry.top scope.entry.entries.now) at code.old code.new }
{
    let w = used(scope, at + 2);
    let o = word(scope.script, at + 4);
    let a = used(scope, at + 6);
    let b = used(scope, at + 8);
    let op = operation(
        formal_of(w) + (formal_of(a) + formal_of(b)),
        layout::ADD + o,
        layout::ARITHMETIC_FORMAL,
    );
    put_all(code, at, &[op, w, o, a, b]);
}

fn emit_if(scope: Scope<'_>, code: &mut [u32], at: usize)
    requires { at < 2 ^ 32 }
    ensures { Written if_words scope.entry.script.now (drop scope.entry.top scope.entry.entries.now) at code.old code.new }
{
    let w = used(scope, at + 2);
    let a = used(scope, at + 4);
    let op = operation(
        formal_of(w) + formal_of(a),
        layout::BRANCH,
        layout::BRANCH_FORMAL,
    );
    put_all(code, at, &[op, a, w]);
}

fn emit_go(scope: Scope<'_>, code: &mut [u32], at: usize)
    requires { at < 2 ^ 32 }
    ensures { Written go_words scope.entry.script.now (drop scope.entry.top scope.entry.entries.now) at code.old code.new }
{
    let a = used(scope, at + 2);
    let op = operation(formal_of(a), layout::GOTO, layout::GOTO_FORMAL);
    put_all(code, at, &[op, a]);
}

// AD and RM, with their operation.
fn emit_pair(scope: Scope<'_>, code: &mut [u32], at: usize, op: usize)
    requires { (at < 2 ^ 32) × (op < 65536) }
    ensures { Written (pair_words op) scope.entry.script.now (drop scope.entry.top scope.entry.entries.now) at code.old code.new }
{
    let g = used(scope, at + 2);
    let m = used(scope, at + 4);
    put_all(code, at, &[op, g, m]);
}

fn emit_qy(scope: Scope<'_>, code: &mut [u32], at: usize)
    requires { at < 2 ^ 32 }
    ensures { Written qy_words scope.entry.script.now (drop scope.entry.top scope.entry.entries.now) at code.old code.new }
{
    let t = used(scope, at + 2);
    let g = used(scope, at + 4);
    let m = used(scope, at + 6);
    put_all(code, at, &[layout::QUERY, t, g, m]);
}

// So many names from an offset on.
fn arguments(scope: Scope<'_>, code: &mut [u32], at: usize, count: usize)
    requires { (at < 2 ^ 32 + 6) × (count < 65536) }
    ensures { Written (argument_words count) scope.entry.script.now (drop scope.entry.top scope.entry.entries.now) at code.old code.new }
{
    for i in 0..count {
        put(code, at + 2 * i, used(scope, at + 2 * i));
    }
}

fn emit_cl(scope: Scope<'_>, code: &mut [u32], at: usize)
    requires { at < 2 ^ 32 }
    ensures { Written cl_words scope.entry.script.now (drop scope.entry.top scope.entry.entries.now) at code.old code.new }
{
    let w = used(scope, at + 2);
    let count = word(scope.script, at + 4);
    let op = operation(formal_of(w), layout::CALL, layout::CALL_FORMAL);
    put_all(code, at, &[op, w, count]);
    arguments(scope, code, at + 6, count);
}

// A statement other than BK, with its mark.
pub fn emit(scope: Scope<'_>, code: &mut [u32], at: usize, mark: usize)
    requires { (at < 2 ^ 32) × (mark ≡ field_at scope.script.now at) }
    ensures { Emitted scope.entry.script.now (drop scope.entry.top scope.entry.entries.now) at code.old code.new }
{
    match mark {
        AR => emit_ar(scope, code, at),
        IF => emit_if(scope, code, at),
        KN => emit_kn(scope, code, at),
        CL => emit_cl(scope, code, at),
        GO => emit_go(scope, code, at),
        AD => emit_pair(scope, code, at, layout::ADD_PAIR),
        RM => emit_pair(scope, code, at, layout::REMOVE_PAIR),
        _ => emit_qy(scope, code, at),
    }
}
