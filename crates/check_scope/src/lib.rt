// The script check's second half: what each name used stands for, refusals 9 to 11, in file order. The walk is safe on any
// bytes up to 8,192: only its answer asks for a script that is fit in structure.
#![tactic(auto)]

ghost use Rattle.std.specs.Prelude.{◌≤◌, length};
ghost use Rattle.language.specs.Encoding.{fields_of};
ghost use Rattle.language.specs.Structure.{program};
ghost use Rattle.check_scope.specs.Walking.{Judged};

use check_symbols::empty_chains;
use language::{Fault, Refusal};
use walk::block;

mod walk;

// 9 to 11. The answer is the definitions' for a script of up to 8,192 bytes that they read whole; any other script gets some refusal or
// none.
pub fn scope_verdict(script: &[u8]) -> Result<(), Fault>
    ensures { length script.now ≤ 8192 → Judged (program 0 (fields_of script.now)) result }
{
    if 8192 < script.len() {
        return Err(Fault {
            cause: Refusal::ScriptLength,
            offset: 0,
        });
    }
    let mut entries = [0usize; 1280];
    empty_chains(&mut entries);
    let mut ends = [0u32; 683];
    block(script, &mut entries, &mut ends, 0, 0, 1280)?;
    Ok(())
}
