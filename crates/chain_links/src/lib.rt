// The static chain: names found by following the links of the activation records, and another activation becoming the innermost one.
#![tactic(auto)]

ghost use Rattle.std.specs.Prelude.{◌≡◌, ◌+◌, ◌*◌, ◌-◌, ◌<◌, ◌≤◌, get_or, set};
ghost use Rattle.chain_records.specs.Records.{at};
ghost use Rattle.resolved.specs.Resolved.{level_in};
ghost use Rattle.chain_links.specs.Records.{with_next};
ghost use Rattle.chain_links.specs.Finding.{first_cell, Named};
ghost use Rattle.chain_links.specs.Running.{now_by, links_to, found_by, Reached, Looking};
ghost use Rattle.chain_links.specs.Names.{found_in};

use chain_records::{Activation, follow, push, read};
pub use entering::enter;
use layout::{SHARE, end_of, level_of};
use numbers::from_u32;
use run_sheet::name_designator;
use run_state::Registers;
use run_words::code_at;

mod entering;
mod handing;

// A block that is entered: the place of its BK, the activation that its new one is linked to, and the place to come back to.
#[derive(Clone, Copy)]
pub struct Entry {
    pub body: usize,
    pub link: usize,
    pub back: usize,
}

// The links that lead to the activation that declares the name in a field of the next statement.
fn hops(code: &[u32; 4096], here: Registers, field: usize) -> usize
    requires { (here.at + field < 4096) × (level_in (get_or code.now (here.at + field) 0) ≤ here.level) }
    ensures { result ≡ here.level - level_in (get_or code.now (here.at + field) 0) }
{
    here.level - level_of(code_at(code, here.at + field))
}

// The first cell of that activation; the innermost one's own is given, since most names are declared there.
pub fn first_cell(
    code: &[u32; 4096],
    records: &[Activation],
    here: Registers,
    own: usize,
    field: usize,
) -> usize
    requires { Named code.now records.now here field × (own ≡ 32 * here.live) }
    ensures { result ≡ first_cell records.now here.live here.level (get_or code.now (here.at + field) 0) }
{
    let count = hops(code, here, field);
    if count == 0 {
        return own;
    }
    SHARE * follow(records, here.live, count)
}

pub fn with_next(activation: Activation, place: usize) -> Activation
    requires { place < 65536 }
    ensures { result ≡ with_next activation place }
{
    Activation {
        next: place as u32,
        ..activation
    }
}

// An activation of the stack, whose record is given, becomes the innermost one and goes on at a place.
pub fn innermost(
    code: &[u32; 4096],
    activation: Activation,
    home: usize,
    place: usize,
    pairs: usize,
) -> Registers
    requires { activation.block + 3 ≤ 4096 }
    ensures { result ≡ now_by code.now activation.block home place pairs }
{
    let block = from_u32(activation.block);
    Registers {
        live: home,
        at: place,
        end: end_of(code_at(code, block + 1)),
        pairs,
        level: level_of(code_at(code, block)),
        fresh: 0,
    }
}

// The activation below goes on, whose record is given.
pub fn left(code: &[u32; 4096], here: Registers, activation: Activation) -> Registers
    requires { (activation.block + 3 ≤ 4096) × (1 ≤ here.live) }
    ensures { result ≡ now_by code.now activation.block (here.live - 1) activation.next here.pairs }
{
    innermost(
        code,
        activation,
        here.live - 1,
        from_u32(activation.next),
        here.pairs,
    )
}

// The looked-up name: its designator, and the links that lead to where it is declared; both 0 where it is not visible.
#[derive(Clone, Copy)]
pub struct Found {
    pub designator: u32,
    pub links: u32,
}

// Its word stands in the innermost block.
fn looked_up(code: &[u32; 4096], activation: Activation) -> usize
    requires { activation.block + 3 ≤ 4096 }
    ensures { result ≡ get_or code.now (activation.block + 2) 0 }
{
    code_at(code, from_u32(activation.block) + 2)
}

fn links_to(here: Registers, word: usize) -> usize
    requires { level_in word ≤ here.level }
    ensures { (result ≡ links_to here.level word) × (result ≤ here.level) }
{
    if word == 0 {
        return 0;
    }
    here.level - level_of(word)
}

// What is found of the name with this word, once the activation that declares it is.
fn found_by(cells: &[i32; 8224], here: Registers, word: usize, home: usize) -> Found
    requires { Reached cells.now here word home }
    ensures { result ≡ found_by cells.now here word home }
{
    Found {
        designator: name_designator(cells, SHARE * home, word),
        links: links_to(here, word) as u32,
    }
}

// At the end of a run: what the looked-up name is, and the place of the innermost activation's next statement is put with the others'.
pub fn settle(
    code: &[u32; 4096],
    cells: &[i32; 8224],
    records: &mut [Activation],
    here: Registers,
) -> Found
    requires { Looking code.now cells.now records.old here × (here.at < 65536) }
    ensures { ((w : Looking code.now cells.now records.old here)
        → result ≡ found_in w.running.standing.stack.frames w.running.standing.name)
        × (records.new ≡ set records.old here.live (with_next (at records.old here.live) here.at)) }
{
    let own = read(records, here.live);
    let word = looked_up(code, own);
    let there = follow(records, here.live, links_to(here, word));
    push(records, here.live, with_next(own, here.at));
    found_by(cells, here, word, there)
}
