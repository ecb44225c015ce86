// AD, RM and QY.
ghost use Rattle.run_classes.specs.Asking.{pair_class, query_class};
ghost use Rattle.chain_step.specs.Acted.{Chosen, Does, happening};

use super::turn::{Moved, came_to};
use chain_links::first_cell;
use chain_records::Activation;
use run_cells::do_query;
use run_classes::act_pair;
use run_state::Registers;

pub fn changed(
    code: &[u32; 4096],
    cells: &[i32; 8224],
    records: &[Activation],
    here: Registers,
    own: usize,
) -> Moved
    requires { Chosen code.now cells.now records.now here own pair_class }
    ensures { (w : Chosen code.now cells.now records.now here own pair_class)
        → Does (happening code.now cells.now records.now w.activations here)
        cells.now here result cells.now }
{
    let first = first_cell(code, records, here, own, 1);
    let second = first_cell(code, records, here, own, 2);
    let done = act_pair(code, cells, here.at, first, second);
    came_to(here, done)
}

pub fn queried(
    code: &[u32; 4096],
    cells: &[i32; 8224],
    records: &[Activation],
    here: Registers,
    own: usize,
) -> Moved
    requires { Chosen code.now cells.now records.now here own query_class }
    ensures { (w : Chosen code.now cells.now records.now here own query_class)
        → Does (happening code.now cells.now records.now w.activations here)
        cells.now here result cells.now }
{
    let first = first_cell(code, records, here, own, 1);
    let second = first_cell(code, records, here, own, 2);
    let third = first_cell(code, records, here, own, 3);
    let done = do_query(code, cells, here.at, first, second, third);
    came_to(here, done)
}
