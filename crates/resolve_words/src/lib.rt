// Words of the resolved script written one after the other, and those of names, visible and declared. A word's place is half its
// offset in the script.
#![tactic(auto)]

ghost use Rattle.std.specs.Prelude.{◌≡◌, ◌/◌, ◌%◌, ◌^◌, ◌<◌, drop, set};
ghost use Rattle.laws.specs.Each.{Each};
ghost use Rattle.resolve_words.specs.Growth.{Grown};
ghost use Rattle.resolve_words.specs.Visible.{Short, word_in, used_at, Named};

use check_fields::word;
use check_uses::Scope;

// Past the array's end nothing is written.
pub fn put(code: &mut [u32], at: usize, w: usize)
    ensures { code.new ≡ set code.old (at / 2) (w % 4294967296) }
{
    let place = at / 2;
    if place < code.len() {
        code[place] = (w % 4294967296) as u32;
    }
}

// So many words, each after the one before it.
pub fn put_all(code: &mut [u32], at: usize, words: &[usize])
    requires { at < 2 ^ 35 }
    ensures { Each Short words.now → Grown code.old code.new at words.now }
{
    for (i, w) in words.iter().enumerate() {
        put(code, at + 2 * i, *w);
    }
}

// The word of a name; 0 where it is not visible.
pub fn named(scope: Scope<'_>, name: usize) -> usize
    ensures { (result ≡ word_in name (drop scope.entry.top scope.entry.entries.now)) × (result < 2 ^ 48) }
{
    scope.find(name).unwrap_or(0)
}

// The word of the name in the field at an offset.
pub fn used(scope: Scope<'_>, at: usize) -> usize
    requires { at < 2 ^ 33 }
    ensures { (result ≡ used_at scope.entry.script.now (drop scope.entry.top scope.entry.entries.now) at) × (result < 2 ^ 48) }
{
    named(scope, word(scope.script, at))
}

// The name of a declaration. Its mark's word stays 0.
pub fn emit_name(scope: Scope<'_>, code: &mut [u32], at: usize)
    requires { at < 2 ^ 32 }
    ensures { Named scope.entry.script.now (drop scope.entry.top scope.entry.entries.now) at code.old code.new }
{
    put(code, at + 2, used(scope, at + 2));
}
