// What a statement has come to, as a run goes on by it.
ghost use Rattle.std.specs.Prelude.{◌≡◌};
ghost use Rattle.run_statements.specs.Moved.{moved_by};

use language::Stop;
use run_moves::{Ask, Move};

// As `Move`, with the place to go on at first in a jump: where it stands differently in each, the compiler keeps it in memory. For an entry the search
// engine, which has no links, has where the search goes on from the new activation in the place of its link.
#[derive(Clone, Copy)]
pub enum Moved {
    Went(usize),
    Table(usize, usize, usize, usize, Ask),
    Jump(usize, usize),
    Enter(usize, usize, usize),
    Stop(Stop),
}

#[tactic(auto, unfolding(crate::specs::Moved::moved_by))]
pub fn came_to(done: Move) -> Moved
    ensures { result ≡ moved_by done }
{
    match done {
        Move::On(place) => Moved::Went(place),
        Move::Table(place, group, member, target, ask) => {
            Moved::Table(place, group, member, target, ask)
        }
        Move::Jump(home, place) => Moved::Jump(place, home),
        Move::Enter(body, link, back) => Moved::Enter(body, link, back),
        Move::Stop(cause) => Moved::Stop(cause),
    }
}
