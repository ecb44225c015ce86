// A block is entered: its arguments are handed on, the caller's record keeps the place to come back to, and a record is pushed.
ghost use Rattle.std.specs.Prelude.{◌≡◌, ◌+◌, ◌<◌, ◌≤◌, get_or};
ghost use Rattle.resolved.specs.Layout.{cell_from, formals_in, names_in};
ghost use Rattle.run_moves.specs.Effects.{Cleared};
ghost use Rattle.chain_links.specs.Running.{activation_of, entered_by, EnterReady, Succeeds};

use super::handing::{arguments_end, hand};
use super::{Entry, innermost, with_next};
use chain_records::{Activation, push, read};
use layout::{cell_at, first_of, formals_of, names_of};
use numbers::from_u32;
use run_state::Registers;
use run_words::{clear, code_at};

// The new activation's record.
fn begun(code: &[u32; 4096], entry: Entry) -> Activation
    requires { (entry.body + 3 ≤ 4096) × (entry.link < 65536) }
    ensures { result ≡ activation_of code.now entry.body entry.link }
{
    let body = entry.body;
    let bounds = code_at(code, body + 1);
    Activation {
        block: body as u32,
        next: first_of(bounds) as u32,
        link: entry.link as u32,
    }
}

// A new activation, whose record is given, is the innermost one. The arguments stand in its first cells.
fn entered(
    code: &[u32; 4096],
    cells: &mut [i32; 8224],
    here: Registers,
    activation: Activation,
) -> Registers
    requires { (activation.block + 3 ≤ 4096) × (here.live + 1 < 256) × (formals_in (get_or code.now activation.block 0) ≤ 32)
        × (names_in (get_or code.now activation.block 0) ≤ 32) }
    ensures { (result ≡ entered_by code.now here activation) × Cleared cells.old
        (cell_from (here.live + 1) (formals_in (get_or code.now activation.block 0)))
        (cell_from (here.live + 1) (names_in (get_or code.now activation.block 0))) cells.new }
{
    let block = from_u32(activation.block);
    let head = code_at(code, block);
    let fresh = here.live + 1;
    clear(
        cells,
        cell_at(fresh, formals_of(head)),
        cell_at(fresh, names_of(head)),
    );
    innermost(
        code,
        activation,
        fresh,
        from_u32(activation.next),
        here.pairs,
    )
}

pub fn enter(
    code: &[u32; 4096],
    cells: &mut [i32; 8224],
    records: &mut [Activation],
    here: Registers,
    entry: Entry,
) -> Registers
    requires { EnterReady code.now cells.old records.old here entry }
    ensures { (w : EnterReady code.now cells.old records.old here entry) → Succeeds w.running
        cells.new records.new w.table result }
{
    hand(code, cells, records, here, arguments_end(code, here));
    let own = read(records, here.live);
    push(records, here.live, with_next(own, entry.back));
    let new = begun(code, entry);
    push(records, here.live + 1, new);
    entered(code, cells, here, new)
}
