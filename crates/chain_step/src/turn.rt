// What the statement has come to, as the step goes on by it. Nothing here looks into the records.
ghost use Rattle.std.specs.Prelude.{◌≡◌};
ghost use Rattle.chain_step.specs.Moves.{placed};
ghost use Rattle.chain_step.specs.Moved.{moved_by, jumped_by};

use chain_links::Entry;
use language::Stop;
use run_moves::{Ask, Move};
use run_state::Registers;

// The table is asked: where the run goes on, the cells of a group and a member, the one for the answer, and the question.
#[derive(Clone, Copy)]
pub struct Asking {
    pub place: usize,
    pub group: usize,
    pub member: usize,
    pub target: usize,
    pub ask: Ask,
}

// What a statement has come to: the innermost activation goes on, another one does, at a place, a block is entered, the run ends, or the table is asked.
#[derive(Clone, Copy)]
pub enum Moved {
    Went(Registers),
    Resume(usize, usize),
    Enter(Entry),
    Stopped(Stop),
    Table(Asking),
}

fn placed(here: Registers, place: usize, pairs: usize) -> Moved
    ensures { result ≡ Moved.Went (placed here place pairs) }
{
    Moved::Went(Registers {
        at: place,
        pairs,
        ..here
    })
}

fn jumped(here: Registers, home: usize, place: usize) -> Moved
    ensures { result ≡ jumped_by here home place }
{
    if home == here.live {
        return placed(here, place, here.pairs);
    }
    Moved::Resume(home, place)
}

pub fn came_to(here: Registers, done: Move) -> Moved
    ensures { result ≡ moved_by here done }
{
    match done {
        Move::On(place) => placed(here, place, here.pairs),
        Move::Table(place, group, member, target, ask) => {
            Moved::Table(Asking {
                place,
                group,
                member,
                target,
                ask,
            })
        }
        Move::Jump(home, place) => jumped(here, home, place),
        Move::Enter(body, link, back) => Moved::Enter(Entry { body, link, back }),
        Move::Stop(cause) => Moved::Stopped(cause),
    }
}
