// The script check's call, from the script's bytes to the answer's words.
#![tactic(auto)]

ghost use Rattle.std.specs.Prelude.{◌≡◌};
ghost use Rattle.language.specs.Check.{check};
ghost use Rattle.check_call.specs.Answers.{check_words};

// The refusal's number, 0 where the script is accepted, and its offset.
pub fn call(script: &[u8]) -> [u64; 2]
    ensures { result ≡ check_words (check script.now) }
{
    match check_script::check_script(script) {
        Ok(()) => [0, 0],
        Err(fault) => [u32::from(fault.cause) as u64, fault.offset as u64],
    }
}
