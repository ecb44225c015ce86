// One record: its mark, fit for its place, and its fields.
ghost use Rattle.std.specs.Prelude.{◌≡◌, ◌+◌, ◌<◌, ◌≤◌, length};
ghost use Rattle.check_records.specs.Taking.{record_at, Within};

use super::Reading;
use super::fields::{field_at, field_of, marked};
use check_marks::{Matched, Place, find_mark};
use language::Refusal;

// The record at an offset where a mark is there.
fn take_record(script: &[u8], at: usize, place: Place) -> Reading
    requires { at + 2 ≤ length script.now }
    ensures { (result ≡ record_at place script.now at) × Within (length script.now) at result }
{
    let Some(Matched { count, mark }) = find_mark(field_at(script, at), place) else {
        return Reading::Refused(Refusal::MarkMisplaced, at);
    };
    let from = at + 2;
    let k = usize::from(count);
    if script.len() - from < 2 * k {
        return Reading::Refused(Refusal::PastTheEnd, at);
    }
    let f0 = field_of(script, from, k, 0);
    let f1 = field_of(script, from, k, 1);
    let f2 = field_of(script, from, k, 2);
    let f3 = field_of(script, from, k, 3);
    Reading::Taken {
        mark,
        next: from + 2 * k,
        f0,
        f1,
        f2,
        f3,
    }
}

// A record at a place, in this order: mark present (2), mark fit (3), fields present (2).
fn record_at(script: &[u8], at: usize, place: Place) -> Reading
    ensures { (result ≡ record_at place script.now at) × Within (length script.now) at result }
{
    if marked(script, at) {
        return take_record(script, at, place);
    }
    Reading::Refused(Refusal::PastTheEnd, at)
}

// A function for each place, so that the place is known when it is compiled.
pub fn block_at(script: &[u8], at: usize) -> Reading
    ensures { (result ≡ record_at Place.Block script.now at) × Within (length script.now) at result }
{
    record_at(script, at, Place::Block)
}

pub fn formal_at(script: &[u8], at: usize) -> Reading
    ensures { (result ≡ record_at Place.Formal script.now at) × Within (length script.now) at result }
{
    record_at(script, at, Place::Formal)
}

pub fn declaration_at(script: &[u8], at: usize) -> Reading
    ensures { (result ≡ record_at Place.Declaration script.now at) × Within (length script.now) at result }
{
    record_at(script, at, Place::Declaration)
}

pub fn statement_at(script: &[u8], at: usize) -> Reading
    ensures { (result ≡ record_at Place.Statement script.now at) × Within (length script.now) at result }
{
    record_at(script, at, Place::Statement)
}
