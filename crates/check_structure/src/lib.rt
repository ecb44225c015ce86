// The script check's first half, 1 to 8: the length, the program's block and all that stands in it, and nothing after it.
#![tactic(auto)]

ghost use Rattle.std.specs.Prelude.{◌≡◌};
ghost use Rattle.check_structure.specs.Structure.{closing, structure_of};

use check_records::Reading;
use language::{Fault, Refusal};

const LONGEST: usize = 8192;

// 5 where reading ended before the last byte.
fn ended(p: Result<usize, Fault>, n: usize) -> Result<(), Fault>
    ensures { result ≡ closing p n }
{
    let end = p?;
    if end < n {
        return Err(Fault {
            cause: Refusal::BytesAfter,
            offset: end,
        });
    }
    Ok(())
}

pub fn structure(script: &[u8]) -> Result<(), Fault>
    ensures { result ≡ structure_of script.now }
{
    let n = script.len();
    if n == 0 {
        return Err(Fault {
            cause: Refusal::ScriptLength,
            offset: 0,
        });
    }
    if LONGEST < n {
        return Err(Fault {
            cause: Refusal::ScriptLength,
            offset: 0,
        });
    }
    if n % 2 == 1 {
        return Err(Fault {
            cause: Refusal::ScriptLength,
            offset: 0,
        });
    }
    let reading = check_readers::read_block(script, 0);
    let Reading::Taken { next, f0, f1, .. } = reading else {
        return ended(check_records::onward(reading), n);
    };
    let mut names = [0u32; check_blocks::PLACES];
    let program = check_blocks::block(
        script,
        &mut names,
        0,
        next,
        f0 as usize,
        f1 as usize,
        0,
        check_blocks::LEVELS,
    );
    ended(program, n)
}
