// The engines by name, for programs: a call of each, with an area of its own where it needs one, and its answer in print.
#![tactic(auto)]

ghost use Rattle.language.specs.Call.{chain};
ghost use Rattle.call_admission.specs.Lent.{fed_of};
ghost use Rattle.call_answers.specs.Replies.{Replies};
ghost use Rattle.program_engines.specs.Engines.{engine_named};

use chain_records::Activation;

mod printing;
mod reading;

pub use printing::{print_answer, print_words, say};
pub use reading::read_full;

// In the order in which programs name them.
#[derive(Clone, Copy)]
pub enum Engine {
    Copy,
    Chain,
    Display,
    Search,
}

impl Engine {
    pub const ALL: [Engine; 4] = [Engine::Copy, Engine::Chain, Engine::Display, Engine::Search];
}

// The chain engine's call, on records of its own.
fn by_chain(
    script: &[u8],
    d: u32,
    n: u32,
    g: u32,
    table: &mut [i32],
    count: usize,
    groups: &mut [i32],
    name: u16,
    sheet: &mut [i32],
    answer: &mut [u64; 9],
)
    ensures { Replies (chain 256) (fed_of (record { d = d; n = n; g = g; tally = 0; count = count; name = name })
        script.now table.old groups.old sheet.old)
        answer.new sheet.new table.new groups.new }
{
    let mut records = [Activation {
        block: 0,
        next: 0,
        link: 0,
    }; 256];
    enrol::enrol_chain(
        script,
        d,
        n,
        g,
        0,
        table,
        count,
        groups,
        name,
        sheet,
        &mut records,
        answer,
    );
}

// A call of an engine, as C makes it and with C's parameters, the tally at 0: the answer's words, and what becomes of table, list of groups and sheet. The copying
// area has 65,536 words, the records are for 256 activations.
pub fn call(
    engine: Engine,
    script: &[u8],
    d: u32,
    n: u32,
    g: u32,
    table: &mut [i32],
    count: usize,
    groups: &mut [i32],
    name: u16,
    sheet: &mut [i32],
) -> [u64; 9]
    ensures { Replies (engine_named engine) (fed_of (record { d = d; n = n; g = g; tally = 0; count = count; name = name })
        script.now table.old groups.old sheet.old) result sheet.new table.new groups.new }
{
    let mut answer = [0u64; 9];
    match engine {
        Engine::Copy => {
            let mut area = [0u32; 65536];
            enrol::enrol_copy(
                script,
                d,
                n,
                g,
                0,
                table,
                count,
                groups,
                name,
                sheet,
                &mut area,
                &mut answer,
            );
        }
        Engine::Chain => {
            by_chain(
                script,
                d,
                n,
                g,
                table,
                count,
                groups,
                name,
                sheet,
                &mut answer,
            );
        }
        Engine::Display => {
            enrol::enrol_display(
                script,
                d,
                n,
                g,
                0,
                table,
                count,
                groups,
                name,
                sheet,
                &mut answer,
            );
        }
        Engine::Search => {
            enrol::enrol_search(
                script,
                d,
                n,
                g,
                0,
                table,
                count,
                groups,
                name,
                sheet,
                &mut answer,
            );
        }
    }
    answer
}
