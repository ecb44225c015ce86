// The script check: 1 to 11 with the offset, in the paper's order. Structure first, then scope and kinds.
#![tactic(auto)]

ghost use Rattle.std.specs.Prelude.{◌≡◌};
ghost use Rattle.language.specs.Check.{check};
ghost use Rattle.check_script.specs.Verdicts.{verdict_of};

use language::Fault;

pub fn check_script(script: &[u8]) -> Result<(), Fault>
    ensures { result ≡ verdict_of (check script.now) }
{
    check_structure::structure(script)?;
    check_scope::scope_verdict(script)
}
