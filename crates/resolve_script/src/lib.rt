// The resolved script, computed from the script's bytes. The walk is safe on any bytes: only its answer asks for a script that the check
// accepts.
#![tactic(auto)]

ghost use Rattle.std.specs.Prelude.{◌≡◌, replicate};
ghost use Rattle.resolve_script.specs.Resolving.{Resolved};

use check_symbols::empty_chains;
use walk::block;

mod walk;

// `name` is the looked-up name.
pub fn resolve(script: &[u8], name: usize, code: &mut [u32])
    requires { code.old ≡ replicate 4096 0 }
    ensures { Resolved script.now name code.new }
{
    if 8192 < script.len() {
        return;
    }
    let mut entries = [0usize; 1280];
    empty_chains(&mut entries);
    let mut ends = [0u32; 683];
    let mut starts = [0u32; 2048];
    block(
        script,
        &mut entries,
        &mut ends,
        &mut starts,
        code,
        name,
        0,
        0,
        1280,
        1,
    );
}
