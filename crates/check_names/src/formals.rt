// A procedure's formals: 4 for a kind that there is not, then 8 for a name that stands twice.
ghost use Rattle.std.specs.Prelude.{◌≡◌, [], ◌+◌, ◌≤◌, ◌<◌, length, take};
ghost use Rattle.language.specs.Structure.{formals};
ghost use Rattle.check_records.specs.Taking.{unread, forget};
ghost use Rattle.check_names.specs.Naming.{names_at, NamesOf};
ghost use Rattle.check_names.specs.Holding.{held_of, names_with};

use super::seen;
use check_fields::Reader;
use check_readers::formal_here;
use check_records::Reading;
use language::{Fault, Refusal};

// Kinds are numbered from 0.
const LAST_KIND: u32 = 2;

// A formal whose record was read at an offset: its name is put after the count names from a base on.
fn hold(
    names: &mut [u32],
    base: usize,
    count: usize,
    at: usize,
    reading: Reading,
) -> Result<usize, Fault>
    requires { base + count < length names.old }
    ensures judged { result ≡ held_of reading at (names_at names.old base count) }
    ensures held { names.new ≡ names_with result reading names.old (base + count) }
{
    let Reading::Taken { next, f0, f1, .. } = reading else {
        return check_records::onward(reading);
    };
    if LAST_KIND < f1 {
        return Err(Fault {
            cause: Refusal::FieldRange,
            offset: at,
        });
    }
    if seen(names, base, count, f0) {
        return Err(Fault {
            cause: Refusal::NameTwice,
            offset: at,
        });
    }
    names[base + count] = f0;
    Ok(next)
}

// p formals, handed out one after the other by one reader, which moves on. Their names are put from a base on. The judging is left to `hold`.
pub fn read_formals(
    script: &[u8],
    names: &mut [u32],
    at: usize,
    p: usize,
    base: usize,
) -> Result<usize, Fault>
    requires { base + p ≤ length names.old }
    ensures reads { result ≡ forget (formals p [] at (unread script.now at)) }
    ensures named { NamesOf (formals p [] at (unread script.now at)) (names_at names.new base p) }
    ensures keeps { take base names.new ≡ take base names.old }
{
    let mut reader = Reader { script, at };
    for i in 0..p {
        let reading = formal_here(reader);
        reader.at = hold(names, base, i, reader.at, reading)?;
    }
    Ok(reader.at)
}
