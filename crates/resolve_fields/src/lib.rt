// How many names a record of a script has, by its mark, and the pass over a script's records that writes a word for each name's field. All is safe on
// any bytes.
#![tactic(auto)]

ghost use Rattle.std.specs.Prelude.{ℕ, ◌≡◌, ◌+◌, ◌<◌, ◌≤◌, List, [], ◌∷◌, length, replicate};
ghost use Rattle.language.specs.Text.{Block};
ghost use Rattle.language.specs.Check.{accepted, check};
ghost use Rattle.laws.specs.Fields.{field_at};
ghost use Rattle.grammar.specs.Rules.{Keeps};
ghost use Rattle.resolved.specs.Resolved.{resolved_of, Covers};
ghost use Rattle.check_extents.specs.Items.{body};
ghost use Rattle.resolve_fields.specs.Layout.{Layout};
ghost use Rattle.resolve_fields.specs.Noting as noting;
ghost use Rattle.resolve_fields.specs.Parts.{Part, placed};
ghost use Rattle.resolve_fields.specs.Taking as taking;

use check_extents::pass;
use check_fields::word;
use check_marks::{AD, AR, BK, CL, IF, QY, RM};

// How many names stand right after a record's mark. A formal's word is 0 in the resolved script.
pub fn leading(mark: usize) -> usize
    ensures { (result ≡ taking.leading mark) × (result ≤ 3) }
{
    match mark {
        BK => 0,
        QY => 3,
        AD | RM | IF => 2,
        _ => 1,
    }
}

// How many names stand after a record's second field.
pub fn trailing(script: &[u8], at: usize, mark: usize) -> usize
    requires { at < 8192 }
    ensures { (result ≡ taking.trailing mark (field_at script.now (at + 4))) × (result < 65536) }
{
    match mark {
        AR => 2,
        CL => word(script, at + 4),
        _ => 0,
    }
}

// So many places from one on are given their words. Past the end nothing is written.
pub fn put_each<F: Fn(usize) -> u32>(words: &mut [u32; 4096], from: usize, count: usize, value: F)
    requires sizes { (length words.old ≡ 4096) × (from < 5000) × (count < 65536) }
    requires asked { (place : ℕ) → place < 4096 → F.pre value place }
    ensures taken { (word : ℕ → ℕ) → ((place w : ℕ) → place < 4096 → F.post value place w → w ≡ word place) → words.new ≡ taking.taken word words.old from count }
    ensures long { length words.new ≡ 4096 }
{
    for place in from..from + count {
        if place < 4096 {
            words[place] = value(place);
        }
    }
}

// How a pass writes the words of one record, and what it keeps beside them for the records still to come.
pub trait Notes {
    // where the words stand, by the looked-up name
    ghost layout: { ℕ → Layout };

    // what is known of the records still to come, from an offset on
    ghost ahead: { Self → ℕ → List Part → Type 0 };

    fn note(
        &mut self,
        script: &[u8],
        code: &[u32; 4096],
        words: &mut [u32; 4096],
        at: usize,
        mark: usize,
    )
        requires { (length words.old ≡ 4096) × (at < 8192) × (mark ≡ field_at script.now at) }
        ensures noted { (name : ℕ) → noting.Noted (layout name) (ahead self.old) (ahead self.new) script.now code.now at words.old words.new name }
        ensures long { length words.new ≡ 4096 };
}

// One pass over the records, which stand one after the other: where the next one begins is read from this one, so no range or slice has
// them. `words` is all zeros before it.
pub fn write_words<N: Notes>(
    script: &[u8],
    code: &[u32; 4096],
    words: &mut [u32; 4096],
    notes: &mut N,
)
    requires zeros { words.old ≡ replicate 4096 0 }
    requires known { (t : Block) → Keeps t → N.ahead notes.old 0 (placed [] [] (body t) ∷ []) }
    ensures written { (t : Block) (name : ℕ) → check script.now ≡ accepted t → Covers code.now 0 (resolved_of name t) → Covers words.new 0 ((N.layout name).of_block t [] []) }
    ensures long { length words.new ≡ 4096 }
{
    if 8192 < script.len() {
        return;
    }
    let mut at = 0;
    while at < script.len() {
        let mark = word(script, at);
        notes.note(script, code, words, at, mark);
        at = pass(script, at, mark).next;
    }
}
