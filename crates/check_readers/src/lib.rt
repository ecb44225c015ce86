// Records as the reader over the script hands them out, and the functions with plain parameters that make a reader and pass it on: each
// leaves the work to a function of the slice and the number.
#![tactic(auto)]

ghost use Rattle.std.specs.Prelude.{◌≡◌, ◌+◌, ◌*◌, ◌^◌, ◌<◌, length};
ghost use Rattle.language.specs.Structure as definitions;
ghost use Rattle.check_records.specs.Taking.{unread, forget, record_at, Within};

use check_fields::{Reader, reader_at};
use check_marks::Place;
use check_records::{Reading, block_at, declaration_at, fields_from, formal_at, statement_at};
use language::{Fault, Refusal};

// The record at the position of the reader, by the place where it stands: a thin function for each place, as document 01 names them.
fn block_here<'a>(r: Reader<'a>) -> Reading
    ensures { (result ≡ record_at Place.Block r.entry.script.now r.entry.at) × Within (length r.entry.script.now) r.entry.at result }
{
    block_at(r.script, r.at)
}

pub fn formal_here<'a>(r: Reader<'a>) -> Reading
    ensures { (result ≡ record_at Place.Formal r.entry.script.now r.entry.at) × Within (length r.entry.script.now) r.entry.at result }
{
    formal_at(r.script, r.at)
}

pub fn declaration_here<'a>(r: Reader<'a>) -> Reading
    ensures { (result ≡ record_at Place.Declaration r.entry.script.now r.entry.at) × Within (length r.entry.script.now) r.entry.at result }
{
    declaration_at(r.script, r.at)
}

pub fn statement_here<'a>(r: Reader<'a>) -> Reading
    ensures { (result ≡ record_at Place.Statement r.entry.script.now r.entry.at) × Within (length r.entry.script.now) r.entry.at result }
{
    statement_at(r.script, r.at)
}

// How many fields there are from the reader's position on.
fn fields_left<'a>(r: Reader<'a>) -> usize
    ensures { (result ≡ length (unread r.entry.script.now r.entry.at)) × (r.entry.at + 2 * result < 2 ^ 64) }
{
    fields_from(r.script, r.at)
}

// The same at an offset, where a reader is made.
pub fn read_block(script: &[u8], at: usize) -> Reading
    ensures { (result ≡ record_at Place.Block script.now at) × Within (length script.now) at result }
{
    block_here(reader_at(script, at))
}

fn left(script: &[u8], at: usize) -> usize
    ensures { (result ≡ length (unread script.now at)) × (at + 2 * result < 2 ^ 64) }
{
    fields_left(reader_at(script, at))
}

// The count fields from an offset on, passed over as part of the record at `at`; 2 where they run past the end.
pub fn pass_fields(script: &[u8], at: usize, from: usize, count: usize) -> Result<usize, Fault>
    ensures { result ≡ forget (definitions.fields at count from (unread script.now from)) }
{
    if left(script, from) < count {
        return Err(Fault {
            cause: Refusal::PastTheEnd,
            offset: at,
        });
    }
    Ok(from + 2 * count)
}
