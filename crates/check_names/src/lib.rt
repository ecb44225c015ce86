// The names of one block, held side by side in an array: whether a name is among them, and the formals of a procedure, which are the
// first names of its body's block.
#![tactic(auto)]

ghost use Rattle.std.specs.Prelude.{◌≡◌, ◌+◌, ◌≤◌, length};
ghost use Rattle.language.specs.Basics.{among};
ghost use Rattle.check_names.specs.Naming.{names_at};

pub mod formals;

// Whether a name is among the count names from a base on. All are looked at, without a way out of the loop, so that several can be
// compared at once.
pub fn seen(names: &[u32], base: usize, count: usize, n: u32) -> bool
    requires { base + count ≤ length names.now }
    ensures { result ≡ among n (names_at names.now base count) }
{
    let mut found = false;
    for &name in &names[base..base + count] {
        if name == n {
            found = true;
        }
    }
    found
}
