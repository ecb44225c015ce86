// The run program: the file script.bin on each engine, a line for each answer and one for each pair in use.
#![tactic(auto)]

ghost use Rattle.std.specs.Io.{ReadsAtMost};
ghost use Rattle.std.specs.Prelude.{◌≡◌, length};

use program_engines::{Engine, call, print_answer, print_words, read_full};
use std::fs::File;
use std::io;
use std::rt::Files;

// What each run is fed.
const D: u32 = 16;

const N: u32 = 1000;

const G: u32 = 3;

// The longest script, in bytes.
const LONGEST: usize = 2048;

// What the system calls an error, without its number.
fn without_number(text: &str) -> &str {
    match text.split_once(" (os error ") {
        Some((words, _)) => words,
        None => text,
    }
}

// Says on the standard error why there is no script.
fn explain(rt: &(impl Eprint + AllocGlobal), error: io::Error) -> io::Result<()> {
    let text = format!(in rt.alloc(); "{error}")?;
    let why = without_number(text.as_str());
    eprintln!(rt; "script.bin is taken as a script of length 0: {why}")
}

// Puts the script's bytes at the start of the room and gives their number. A file that cannot be opened or is too long is taken as one of length 0.
// An error is a read's, or one of saying why there is no script, and leaves in the room what had come.
fn read_script(rt: &(impl Files + Eprint + AllocGlobal), room: &mut [u8]) -> io::Result<usize>
    ensures { (ReadsAtMost result room.new) × (length room.new ≡ length room.old) }
{
    let mut file = match File::open(rt, "script.bin") {
        Ok(file) => file,
        Err(error) => {
            explain(rt, error)?;
            return Ok(0);
        }
    };
    let length = read_full(&mut file, room)?;
    if LONGEST < length {
        eprintln!(rt; "script.bin is taken as a script of length 0: it has more than 2,048 bytes")?;
        return Ok(0);
    }
    Ok(length)
}

// A line for each pair in use.
fn print_pairs(out: &impl Print, table: &[i32; 16], pairs: u64) -> io::Result<()> {
    for pair in table.chunks_exact(2).take(pairs as usize) {
        print_words(out, pair, 0, 2)?;
    }
    Ok(())
}

// An engine on an empty table of 8 pairs, and its list.
fn run(out: &impl Print, engine: Engine, script: &[u8]) -> io::Result<()> {
    let mut table = [0i32; 16];
    let mut groups = [0i32; 16];
    let mut sheet = [0i32; 560];
    let answer = call(
        engine,
        script,
        D,
        N,
        G,
        &mut table,
        0,
        &mut groups,
        0,
        &mut sheet,
    );
    print_answer(out, engine, answer, 6)?;
    println!(out)?;
    print_pairs(out, &table, answer[4])
}

fn main(rt: HostRuntime) -> io::Result<()> {
    let mut room = [0u8; 2049];
    let length = read_script(&rt, &mut room)?;
    println!(rt; "engine end number steps offset pairs sheet")?;
    for engine in Engine::ALL {
        run(&rt, engine, &room[..length])?;
    }
    Ok(())
}
