// A call's arguments go to the first cells of the next activation, each found by the links.
ghost use Rattle.std.specs.Prelude.{◌≡◌, ◌+◌, ◌*◌, ◌-◌, ◌<◌, ◌≤◌, get_or, set};
ghost use Rattle.resolved.specs.Resolved.{position_in};
ghost use Rattle.run_moves.specs.Effects.{handed_word};
ghost use Rattle.run_moves.specs.Acting.{arguments_from, set_all};
ghost use Rattle.run_statements.specs.Pieces.{only-cells};
ghost use Rattle.chain_links.specs.Finding.{by_chain, Handing, Passing, arguments_end};

use super::first_cell;
use chain_records::Activation;
use layout::{BLOCK, SHARE, operation_of, position_of};
use run_state::Registers;
use run_words::code_at;

// After which field of the next statement its arguments end; a BK has none.
pub fn arguments_end(code: &[u32; 4096], here: Registers) -> usize
    requires { here.at + 3 ≤ 4096 }
    ensures { result ≡ arguments_end code.now here.at }
{
    let at = here.at;
    if operation_of(code_at(code, at)) == BLOCK {
        return 3;
    }
    3 + code_at(code, at + 2)
}

// The argument in a field, once the first cell of the activation that declares it is found.
fn pass(code: &[u32; 4096], cells: &mut [i32; 8224], here: Registers, field: usize, first: usize)
    requires { Passing code.now here field first }
    ensures { cells.new ≡ set cells.old (32 * here.live + 32 + (field - 3))
        (handed_word cells.old (get_or code.now (here.at + field) 0)
        (first + position_in (get_or code.now (here.at + field) 0))) }
{
    let word = code_at(code, here.at + field);
    let value = run_words::handed(cells, word, first + position_of(word));
    run_words::store(cells, SHARE * here.live + SHARE + (field - 3), value);
}

// The arguments stand in the fields from the third on up to `last`.
pub fn hand(
    code: &[u32; 4096],
    cells: &mut [i32; 8224],
    records: &[Activation],
    here: Registers,
    last: usize,
)
    requires { Handing code.now records.now here last }
    ensures { cells.new ≡ set_all cells.old (32 * here.live + 32)
        (arguments_from (by_chain cells.old records.now here.live here.level)
        (only-cells code.now cells.old here.at) (here.at + 3) (last - 3)) }
{
    let own = SHARE * here.live;
    for field in 3..last {
        let first = first_cell(code, records, here, own, field);
        pass(code, cells, here, field, first);
    }
}
