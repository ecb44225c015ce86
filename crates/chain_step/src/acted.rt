// The next statement is done as far as cells go. Its names are found by following links from the innermost activation, as many of them as
// it has.
ghost use Rattle.std.specs.Prelude.{◌≡◌, ◌+◌, ◌<◌, ◌≤◌, get_or};
ghost use Rattle.resolved.specs.Resolved.{level_in};
ghost use Rattle.resolved.specs.Layout.{operation_in};
ghost use Rattle.chain_step.specs.Acted.{only_hops, Stating, Does, happening};

use super::summed::{added, compared, subtracted, through_formals};
use super::tabled::{changed, queried};
use super::turn::{Moved, came_to};
use chain_links::first_cell;
use chain_records::{Activation, follow};
use layout::{BLOCK, SHARE, level_of, operation_of};
use run_cells::do_constant;
use run_classes::{Class, act_branch, act_one, class_of};
use run_state::Registers;
use run_words::code_at;

// The links to the only name of a statement; a BK has none, and is linked to the innermost activation itself.
fn only_hops(code: &[u32; 4096], here: Registers) -> usize
    requires { (here.at + 1 < 4096)
        × ((operation_in (get_or code.now here.at 0) ≡ 6 → ⊥) → level_in (get_or code.now (here.at + 1) 0) ≤ here.level) }
    ensures { result ≡ only_hops code.now here }
{
    let at = here.at;
    if operation_of(code_at(code, at)) == BLOCK {
        return 0;
    }
    here.level - level_of(code_at(code, at + 1))
}

pub fn acted(
    code: &[u32; 4096],
    cells: &mut [i32; 8224],
    records: &[Activation],
    activations: usize,
    here: Registers,
) -> Moved
    requires { Stating code.now cells.old records.now activations here }
    ensures { Does (happening code.now cells.old records.now activations here) cells.old here result cells.new }
{
    let own = SHARE * here.live;
    match class_of(code, here.at) {
        Class::One => {
            let first = SHARE * follow(records, here.live, only_hops(code, here));
            let done = act_one(code, cells, activations, here.live, here.at, first);
            came_to(here, done)
        }
        Class::Add => added(code, cells, records, here, own),
        Class::Subtract => subtracted(code, cells, records, here, own),
        Class::Compare => compared(code, cells, records, here, own),
        Class::ArithmeticFormal => through_formals(code, cells, records, here, own),
        Class::Branch => {
            let first = first_cell(code, records, here, own, 1);
            let second = first_cell(code, records, here, own, 2);
            let done = act_branch(code, cells, here.at, first, second);
            came_to(here, done)
        }
        Class::Pair => changed(code, cells, records, here, own),
        Class::Query => queried(code, cells, records, here, own),
        Class::Constant => {
            let first = first_cell(code, records, here, own, 1);
            let done = do_constant(code, cells, here.at, first);
            came_to(here, done)
        }
    }
}
