// Answers and words in print. No contract can say what is written; what an engine and an end are in print is said.
ghost use Rattle.std.specs.Prelude.{◌≡◌, Some};
ghost use Rattle.program_engines.specs.Names.{name_of, end_of};

use super::Engine;
use std::{fmt, io};

impl fmt::Display for Engine {
    ghost output = { λ e. Some (name_of e) };

    fn fmt<W: fmt::Write>(&self, f: &mut fmt::Formatter<W>) -> fmt::Result {
        f.write_str(match self {
            Engine::Copy => "copy",
            Engine::Chain => "chain",
            Engine::Display => "display",
            Engine::Search => "search",
        })
    }
}

// The end that an answer's first word tells.
fn end_named(word: u64) -> &'static str
    ensures { result.now ≡ end_of word }
{
    match word {
        0 => "finished",
        1 => "spent",
        2 => "stopped",
        _ => "refused",
    }
}

// Bytes as they are.
pub fn say(out: &impl Print, bytes: &[u8]) -> io::Result<()> {
    out.write_all(bytes)
}

// An engine's name and the first words of its answer, the end in words; no line end.
pub fn print_answer(
    out: &impl Print,
    engine: Engine,
    answer: [u64; 9],
    words: usize,
) -> io::Result<()> {
    print!(out; "{engine} {}", end_named(answer[0]))?;
    for word in answer.iter().take(words).skip(1) {
        print!(out; " {word}")?;
    }
    Ok(())
}

// A line of words, from one place up to another as far as they reach.
pub fn print_words(out: &impl Print, words: &[i32], from: usize, to: usize) -> io::Result<()> {
    for (place, word) in words.iter().take(to).skip(from).enumerate() {
        if 0 < place {
            print!(out; " ")?;
        }
        print!(out; "{word}")?;
    }
    println!(out)
}
