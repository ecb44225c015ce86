// AR. Where no name is a formal, each operation has a way of its own: this is what is done most.
ghost use Rattle.run_classes.specs.Asking.{add_class, subtract_class, compare_class, arithmetic_formal_class};
ghost use Rattle.chain_step.specs.Acted.{Chosen, Does, happening};

use super::turn::{Moved, came_to};
use chain_links::first_cell;
use chain_records::Activation;
use run_cells::{do_add, do_arithmetic_formal, do_compare, do_subtract};
use run_state::Registers;

pub fn added(
    code: &[u32; 4096],
    cells: &mut [i32; 8224],
    records: &[Activation],
    here: Registers,
    own: usize,
) -> Moved
    requires { Chosen code.now cells.old records.now here own add_class }
    ensures { (w : Chosen code.now cells.old records.now here own add_class)
        → Does (happening code.now cells.old records.now w.activations here)
        cells.old here result cells.new }
{
    let second = first_cell(code, records, here, own, 3);
    let third = first_cell(code, records, here, own, 4);
    let first = first_cell(code, records, here, own, 1);
    let done = do_add(code, cells, here.at, first, second, third);
    came_to(here, done)
}

pub fn subtracted(
    code: &[u32; 4096],
    cells: &mut [i32; 8224],
    records: &[Activation],
    here: Registers,
    own: usize,
) -> Moved
    requires { Chosen code.now cells.old records.now here own subtract_class }
    ensures { (w : Chosen code.now cells.old records.now here own subtract_class)
        → Does (happening code.now cells.old records.now w.activations here)
        cells.old here result cells.new }
{
    let second = first_cell(code, records, here, own, 3);
    let third = first_cell(code, records, here, own, 4);
    let first = first_cell(code, records, here, own, 1);
    let done = do_subtract(code, cells, here.at, first, second, third);
    came_to(here, done)
}

pub fn compared(
    code: &[u32; 4096],
    cells: &mut [i32; 8224],
    records: &[Activation],
    here: Registers,
    own: usize,
) -> Moved
    requires { Chosen code.now cells.old records.now here own compare_class }
    ensures { (w : Chosen code.now cells.old records.now here own compare_class)
        → Does (happening code.now cells.old records.now w.activations here)
        cells.old here result cells.new }
{
    let second = first_cell(code, records, here, own, 3);
    let third = first_cell(code, records, here, own, 4);
    let first = first_cell(code, records, here, own, 1);
    let done = do_compare(code, cells, here.at, first, second, third);
    came_to(here, done)
}

pub fn through_formals(
    code: &[u32; 4096],
    cells: &mut [i32; 8224],
    records: &[Activation],
    here: Registers,
    own: usize,
) -> Moved
    requires { Chosen code.now cells.old records.now here own arithmetic_formal_class }
    ensures { (w : Chosen code.now cells.old records.now here own arithmetic_formal_class)
        → Does (happening code.now cells.old records.now w.activations here)
        cells.old here result cells.new }
{
    let second = first_cell(code, records, here, own, 3);
    let third = first_cell(code, records, here, own, 4);
    let first = first_cell(code, records, here, own, 1);
    let done = do_arithmetic_formal(code, cells, here.at, first, second, third);
    came_to(here, done)
}
