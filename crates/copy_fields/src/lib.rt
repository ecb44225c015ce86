// The word of the name in each field of a script, taken from the resolved script, which has it at the same place in all records but IF. All is
// safe on any bytes.
#![tactic(auto)]

ghost use Rattle.std.specs.Prelude.{◌≡◌, ◌+◌, ◌<◌, length, replicate};
ghost use Rattle.copy_fields.specs.Layouts.{named_layout};
ghost use Rattle.copy_fields.specs.Naming as naming;

use check_marks::IF;
use resolve_fields::{Notes, leading, put_each, trailing, write_words};

// Two words in the other order. Past the end nothing is written.
fn cross(code: &[u32; 4096], names: &mut [u32; 4096], from: usize)
    requires { (length names.old ≡ 4096) × (from < 5000) }
    ensures crossed { from + 1 < 4096 → names.new ≡ naming.crossed code.now names.old from }
    ensures long { length names.new ≡ 4096 }
{
    if from + 1 < 4096 {
        names[from] = code[from + 1];
        names[from + 1] = code[from];
    }
}

// Nothing is kept beside the words.
#[derive(Drop)]
struct Naming;

impl Notes for Naming {
    ghost layout = { λ name. named_layout };

    ghost ahead = { λ it at ps. Unit {0} };

    // IF's label comes first in the resolved script.
    fn note(
        &mut self,
        script: &[u8],
        code: &[u32; 4096],
        words: &mut [u32; 4096],
        at: usize,
        mark: usize,
    ) {
        if mark == IF {
            cross(code, words, at / 2 + 1);
            return;
        }
        let word = |place: usize| code[place];
        put_each(words, at / 2 + 1, leading(mark), word);
        put_each(words, at / 2 + 3, trailing(script, at, mark), word);
    }
}

// `names` is all zeros before it.
pub fn name_fields(script: &[u8], code: &[u32; 4096], names: &mut [u32; 4096])
    requires { names.old ≡ replicate 4096 0 }
    ensures noted { naming.NamesStand script.now code.now names.new }
    ensures long { length names.new ≡ 4096 }
{
    write_words(script, code, names, &mut Naming);
}
