// CL: the name called, its arguments, and 11.
#![tactic(auto)]

ghost use Rattle.std.specs.Prelude.{◌≡◌, true, ◌^◌, ◌<◌};
ghost use Rattle.std.proofs.Math.Option.{some};
ghost use Rattle.language.specs.Scope as definitions;
ghost use Rattle.check_calls.specs.Calls.{names_at, arguments_at, call_at};
ghost use Rattle.check_uses.specs.Meanings.{meaning_at, kinds_at, scope_from, verdict_of};

use check_fields::word;
use check_marks::PR;
use check_uses::{Kind, Scope, kind_at};
use language::{Fault, Refusal};

// The arguments of the call at an offset are visible, whatever their kind.
fn visible(scope: Scope<'_>, at: usize, count: usize) -> Result<(), Fault>
    requires { (at < 2 ^ 32) × (count < 65536) }
    ensures { result ≡ verdict_of (definitions.all_visible
        (scope_from scope.entry.script.now scope.entry.entries.now scope.entry.top) at (names_at scope.entry.script.now at count)) }
{
    for i in 0..count {
        if scope.find(word(scope.script, at + 6 + 2 * i)).is_none() {
            return Err(Fault {
                cause: Refusal::NotVisible,
                offset: at,
            });
        }
    }
    Ok(())
}

// The arguments of the call at an offset are of the kinds of so many formals, one by one.
fn matching(scope: Scope<'_>, at: usize, formals: usize, count: usize) -> bool
    requires { (at < 2 ^ 32) × (formals < 2 ^ 50) × (count < 65536) }
    ensures { result ≡ definitions.agree (kinds_at scope.entry.script.now formals count)
        (arguments_at scope.entry.script.now scope.entry.entries.now scope.entry.top at count) }
{
    for i in 0..count {
        let Some(place) = scope.find(word(scope.script, at + 6 + 2 * i)) else {
            return false;
        };
        let wanted = Kind::from(word(scope.script, formals + 4 + 6 * i));
        if kind_at(scope.script, place) != wanted {
            return false;
        }
    }
    true
}

// 11 is for a declared procedure.
fn agrees(scope: Scope<'_>, at: usize, place: usize, count: usize) -> Result<(), Fault>
    requires { (at < 2 ^ 32) × (place < 2 ^ 48) × (count < 65536) }
    ensures { result ≡ verdict_of (definitions.agrees at (some (meaning_at scope.entry.script.now place))
        (arguments_at scope.entry.script.now scope.entry.entries.now scope.entry.top at count)) }
{
    if word(scope.script, place) != PR {
        return Ok(());
    }
    if word(scope.script, place + 4) != count {
        return Err(Fault {
            cause: Refusal::CallMismatch,
            offset: at,
        });
    }
    if matching(scope, at, place + 6, count) {
        return Ok(());
    }
    Err(Fault {
        cause: Refusal::CallMismatch,
        offset: at,
    })
}

// CL: the name called, then its arguments, then 11.
fn judge_call(scope: Scope<'_>, at: usize) -> Result<(), Fault>
    requires { at < 2 ^ 32 }
    ensures { result ≡ verdict_of (definitions.judge_action
        (scope_from scope.entry.script.now scope.entry.entries.now scope.entry.top) at (call_at scope.entry.script.now at)) }
{
    let name = word(scope.script, at + 2);
    let count = word(scope.script, at + 4);
    scope.uses(at, Kind::Procedure, name)?;
    visible(scope, at, count)?;
    let Some(place) = scope.find(name) else {
        return Ok(());
    };
    agrees(scope, at, place, count)
}

// Whether a declared procedure is called with arguments of its formals' kinds: then they are visible too, and nothing is refused.
fn kinds_agree(scope: Scope<'_>, at: usize) -> bool
    requires { at < 2 ^ 32 }
    ensures { result ≡ true → Ok tt ≡ verdict_of (definitions.judge_action
        (scope_from scope.entry.script.now scope.entry.entries.now scope.entry.top) at (call_at scope.entry.script.now at)) }
{
    let name = word(scope.script, at + 2);
    let count = word(scope.script, at + 4);
    let Some(place) = scope.find(name) else {
        return false;
    };
    if word(scope.script, place) != PR {
        return false;
    }
    if word(scope.script, place + 4) != count {
        return false;
    }
    matching(scope, at, place + 6, count)
}

// CL. A call whose kinds agree looks each argument up once.
pub fn call(scope: Scope<'_>, at: usize) -> Result<(), Fault>
    requires { at < 2 ^ 32 }
    ensures { result ≡ verdict_of (definitions.judge_action
        (scope_from scope.entry.script.now scope.entry.entries.now scope.entry.top) at (call_at scope.entry.script.now at)) }
{
    if kinds_agree(scope, at) {
        return Ok(());
    }
    judge_call(scope, at)
}
