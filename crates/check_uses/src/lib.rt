// The kind of a name, and the names that a record uses, left to right: 9 and 10.
// The marks stay numbers here and in the crates above: they are fields of the script itself, compared as they are read, where an enum would
// have to be searched for in the table of marks first.
#![tactic(auto)]

ghost use Rattle.std.specs.Prelude.{◌≡◌, ◌^◌, ◌<◌, drop};
ghost use Rattle.language.specs.Scope as definitions;
ghost use Rattle.laws.specs.Fields.{field_at};
ghost use Rattle.check_uses.specs.Meanings.{kind_from, kind_meant, meaning_at, scope_from, verdict_of, pair_judged, triple_judged};
ghost use Rattle.check_symbols.specs.Entries.{found_in, Near};

use check_fields::word;
use check_marks::{FM, LB, PR};
use language::{Fault, Refusal};

mod scope;

pub use scope::Scope;

#[derive(Clone, Copy, PartialEq, Eq)]
pub enum Kind {
    Variable,
    Label,
    Procedure,
}

// A formal's kind by its field, which is at most 2 in a script that is fit in structure.
impl From<usize> for Kind {
    ghost from_gives = { λ number kind. kind_meant kind ≡ kind_from number };

    fn from(number: usize) -> Kind {
        match number {
            0 => Kind::Variable,
            1 => Kind::Label,
            _ => Kind::Procedure,
        }
    }
}

// The kind of the name that the record at an offset declares.
pub fn kind_at(script: &[u8], place: usize) -> Kind
    requires { place < 2 ^ 59 }
    ensures { kind_meant result ≡ (meaning_at script.now place).kind }
{
    let mark = word(script, place);
    if mark == PR {
        return Kind::Procedure;
    }
    if mark == LB {
        return Kind::Label;
    }
    if mark == FM {
        return Kind::from(word(script, place + 4));
    }
    Kind::Variable
}

impl<'a> Scope<'a> {
    // The offset of the record that declares a visible name.
    pub fn find(self, name: usize) -> Option<usize>
        ensures { (result ≡ found_in name (drop self.entry.top self.entry.entries.now)) × Near result }
    {
        check_symbols::find(self.entries, self.top, name)
    }

    // A name used where a kind is wanted: 9, then 10.
    pub fn uses(self, at: usize, kind: Kind, name: usize) -> Result<(), Fault>
        ensures { result ≡ verdict_of (definitions.uses (scope_from self.entry.script.now self.entry.entries.now self.entry.top) at (kind_meant kind) name) }
    {
        let Some(place) = self.find(name) else {
            return Err(Fault {
                cause: Refusal::NotVisible,
                offset: at,
            });
        };
        if kind_at(self.script, place) == kind {
            return Ok(());
        }
        Err(Fault {
            cause: Refusal::WrongKind,
            offset: at,
        })
    }

    // Two names of the record at an offset, left to right, and the kinds wanted.
    pub fn both(
        self,
        at: usize,
        kind: Kind,
        first: usize,
        other: Kind,
        second: usize,
    ) -> Result<(), Fault>
        requires { (first < 2 ^ 33) × (second < 2 ^ 33) }
        ensures { result ≡ verdict_of (pair_judged (scope_from self.entry.script.now self.entry.entries.now self.entry.top) at
            (kind_meant kind) (field_at self.entry.script.now first) (kind_meant other) (field_at self.entry.script.now second)) }
    {
        self.uses(at, kind, word(self.script, first))?;
        self.uses(at, other, word(self.script, second))
    }

    // Three variables.
    pub fn three(self, at: usize, first: usize, second: usize, third: usize) -> Result<(), Fault>
        requires { (first < 2 ^ 33) × (second < 2 ^ 33) × (third < 2 ^ 33) }
        ensures { result ≡ verdict_of (triple_judged (scope_from self.entry.script.now self.entry.entries.now self.entry.top) at
            (field_at self.entry.script.now first) (field_at self.entry.script.now second) (field_at self.entry.script.now third)) }
    {
        self.uses(at, Kind::Variable, word(self.script, first))?;
        self.both(at, Kind::Variable, second, Kind::Variable, third)
    }
}
