// The engine's state, as it begins. A run has each array as a local of its own, since a struct that every step is handed and hands back is copied each time.
ghost use Rattle.std.specs.Prelude.{◌≡◌};
ghost use Rattle.search_run.specs.Program.{start_state};

// Of each formal of kind procedure the activation that first passed what it stands for; of each activation the place of its block, that of its next
// statement, and where the search goes on after it. No text is copied, and there is no static link and no display.
#[derive(Drop)]
pub struct State {
    pub passers: [u16; 8192],
    pub blocks: [u16; 256],
    pub nexts: [u16; 256],
    pub froms: [u16; 256],
}

pub fn start_state() -> State
    ensures { result ≡ start_state }
{
    State {
        passers: [0; 8192],
        blocks: [0; 256],
        nexts: [0; 256],
        froms: [0; 256],
    }
}
