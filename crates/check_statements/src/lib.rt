// The names of a statement other than BK, judged left to right: 9 to 11, and where the walk goes on.
#![tactic(auto)]

ghost use Rattle.std.specs.Prelude.{◌≡◌, ◌^◌, ◌<◌};
ghost use Rattle.language.specs.Encoding.{BK-mark, PR-mark, VR-mark};
ghost use Rattle.laws.specs.Fields.{field_at};
ghost use Rattle.check_statements.specs.Walked.{Walked};

use check_calls::call;
use check_extents::{past, past_pair};
use check_fields::word;
use check_marks::{AR, CL, GO, IF, KN, QY};
use check_uses::{Kind, Scope};
use language::Fault;

// A statement other than BK. Its end is asked for by the mark as a constant, so that the mark is not looked for a second time.
pub fn action(scope: Scope<'_>, at: usize, mark: usize) -> Result<usize, Fault>
    requires { (at < 2 ^ 32) × (mark ≡ field_at scope.script.now at) × (mark ≡ BK-mark → ⊥) × (mark ≡ PR-mark → ⊥) × (mark ≡ VR-mark → ⊥) }
    ensures { Walked scope.entry.script.now scope.entry.entries.now scope.entry.top at result }
{
    if mark == CL {
        let next = past(scope.script, at, CL);
        call(scope, at)?;
        return Ok(next);
    }
    if mark == GO {
        let next = past(scope.script, at, GO);
        scope.uses(at, Kind::Label, word(scope.script, at + 2))?;
        return Ok(next);
    }
    if mark == IF {
        let next = past(scope.script, at, IF);
        scope.both(at, Kind::Variable, at + 2, Kind::Label, at + 4)?;
        return Ok(next);
    }
    if mark == KN {
        let next = past(scope.script, at, KN);
        scope.uses(at, Kind::Variable, word(scope.script, at + 2))?;
        return Ok(next);
    }
    if mark == AR {
        let next = past(scope.script, at, AR);
        scope.three(at, at + 2, at + 6, at + 8)?;
        return Ok(next);
    }
    if mark == QY {
        let next = past(scope.script, at, QY);
        scope.three(at, at + 2, at + 4, at + 6)?;
        return Ok(next);
    }
    let next = past_pair(scope.script, at, mark);
    scope.both(at, Kind::Variable, at + 2, Kind::Variable, at + 4)?;
    Ok(next)
}
