// The engine's state, as it begins. A run has each array as a local of its own, since a struct that every step is handed and hands back is copied each time.
ghost use Rattle.std.specs.Prelude.{◌≡◌};
ghost use Rattle.display_run.specs.Program.{start_state};

// Of each activation the place of its block, that of its next statement, and its static link; and the display. A place is half a byte offset.
#[derive(Drop)]
pub struct State {
    pub blocks: [u16; 256],
    pub nexts: [u16; 256],
    pub links: [u16; 256],
    pub display: [u16; 256],
}

pub fn start_state() -> State
    ensures { result ≡ start_state }
{
    State {
        blocks: [0; 256],
        nexts: [0; 256],
        links: [0; 256],
        display: [0; 256],
    }
}
