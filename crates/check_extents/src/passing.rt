// Passing over one record, or over its head where it holds others.
ghost use Rattle.std.specs.Prelude.{◌≡◌, ◌^◌, ◌<◌, ◌≤◌};
ghost use Rattle.language.specs.Encoding.{BK-mark, PR-mark};
ghost use Rattle.laws.specs.Fields.{field_at};
ghost use Rattle.check_extents.specs.Passing.{Passed, Alone, TwoFields};

use check_fields::word;
use check_marks::{AD, BK, BK_BYTES, CL, PR, PR_BYTES, field_count};

// A record passed: where the next one begins, and how many records stand inside this one.
#[derive(Clone, Copy)]
pub struct Step {
    pub next: usize,
    pub more: usize,
}

// Past a record that holds no other. The argument names of a CL come after its fields.
pub fn past(script: &[u8], at: usize, mark: usize) -> usize
    requires { (at < 2 ^ 32) × (mark < 65536) × (mark ≡ field_at script.now at) × (mark ≡ BK-mark → ⊥) × (mark ≡ PR-mark → ⊥) }
    ensures { Alone script.now at result }
{
    let end = at + 2 + 2 * field_count(mark as u32);
    if mark == CL {
        return end + 2 * word(script, at + 4);
    }
    end
}

// Past AD or RM, and past letters that are no mark, which count as having as many fields.
pub fn past_pair(script: &[u8], at: usize, mark: usize) -> usize
    requires { (at < 2 ^ 32) × (mark ≡ field_at script.now at) × TwoFields mark }
    ensures { Alone script.now at result }
{
    at + 2 + 2 * field_count(AD as u32)
}

// Past the head of a BK.
pub fn block_head(script: &[u8], at: usize) -> Step
    requires { (at < 2 ^ 32) × (field_at script.now at ≡ BK-mark) }
    ensures { Passed script.now at result }
{
    Step {
        next: at + BK_BYTES,
        more: word(script, at + 2) + word(script, at + 4),
    }
}

// Past the head of a PR.
pub fn procedure_head(script: &[u8], at: usize) -> Step
    requires { (at < 2 ^ 32) × (field_at script.now at ≡ PR-mark) }
    ensures { Passed script.now at result }
{
    Step {
        next: at + PR_BYTES,
        more: word(script, at + 4) + 1,
    }
}

// Past the head of a record. The functions of `ends` go by the mark themselves and do not call this, so that all is compiled into them.
pub fn pass(script: &[u8], at: usize, mark: usize) -> Step
    requires { (at < 2 ^ 32) × (mark < 65536) × (mark ≡ field_at script.now at) }
    ensures { Passed script.now at result }
{
    if mark == BK {
        return block_head(script, at);
    }
    if mark == PR {
        return procedure_head(script, at);
    }
    Step {
        next: past(script, at, mark),
        more: 0,
    }
}
