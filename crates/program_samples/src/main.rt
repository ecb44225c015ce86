// Samples of the language, and more, on each engine: the rows of the standard input. A row is a line: what it shows, a colon, and the script as
// text. Capital letters are bytes of the script and numbers its fields, KN's value two of them, the low half first; commas are for the
// eye. A number after another word is what the call is fed, and is known by the word's last letter.
#![tactic(auto)]

ghost use Rattle.std.specs.Prelude.{◌≤◌};

use program_engines::{Engine, call, print_answer, print_words, read_full, say};
use std::io;

// What a call is fed, by the words of a row: of the table its places, and the count, group and member of a pair in use; how far the list's number is off, and
// how many words the list lacks.
#[derive(Drop)]
struct Fed {
    d: u32,
    n: u32,
    g: u32,
    name: u32,
    places: u32,
    count: u32,
    group: u32,
    member: u32,
    off: u32,
    lack: u32,
}

// As the run program feeds, but for the name.
impl Default for Fed {
    fn default() -> Self {
        Fed {
            d: 16,
            n: 1000,
            g: 3,
            name: 1,
            places: 8,
            count: 0,
            group: 0,
            member: 0,
            off: 0,
            lack: 0,
        }
    }
}

impl Fed {
    // The number after a word that ends in the letter; a word that is none of these feeds nothing.
    fn set(&mut self, letter: u8, number: u32) {
        match letter {
            b'd' => self.d = number,
            b'n' => self.n = number,
            b'g' => self.g = number,
            b'e' => self.name = number,
            b's' => self.places = number,
            b't' => self.count = number,
            b'p' => self.group = number,
            b'r' => self.member = number,
            b'f' => self.off = number,
            b'k' => self.lack = number,
            _ => {}
        }
    }
}

// What a number stands for: nothing before the row's colon, a field of the script, or what the call is fed, by the last letter of a word.
#[derive(Drop)]
enum Key {
    Title,
    Field,
    Word(u8),
}

// A row as far as it is read: the bytes of its script, how many they are (memory is fixed, so the number stands beside them), the number that is open, and
// what it stands for.
#[derive(Drop)]
struct Row {
    script: [u8; 4096],
    bytes: usize,
    number: Option<u32>,
    key: Key,
    fed: Fed,
    ghost within: { bytes ≤ 4096 },
}

impl Row {
    fn new() -> Self {
        Row {
            script: [0; 4096],
            bytes: 0,
            number: None,
            key: Key::Title,
            fed: Fed::default(),
        }
    }

    // A byte that the script has no room for is left out.
    fn put(&mut self, byte: u8) {
        if self.bytes < self.script.len() {
            self.script[self.bytes] = byte;
            self.bytes += 1;
        }
    }

    fn end_number(&mut self, number: u32) {
        if let Key::Word(letter) = self.key {
            self.fed.set(letter, number);
        } else {
            let [low, high, _, _] = number.to_le_bytes();
            self.put(low);
            self.put(high);
        }
    }

    // One letter; what comes before the colon is printed.
    fn read(&mut self, out: &impl Print, letter: u8) -> io::Result<()> {
        if let Key::Title = self.key {
            if letter == b':' {
                self.key = Key::Field;
            }
            return say(out, &[letter]);
        }
        if letter.is_ascii_digit() {
            let number = self.number.unwrap_or(0);
            let digit = u32::from(letter - b'0');
            self.number = Some(number.wrapping_mul(10).wrapping_add(digit));
        } else if let Some(number) = self.number.take() {
            self.end_number(number);
        } else if letter.is_ascii_uppercase() {
            self.put(letter);
            self.key = Key::Field;
        } else if letter.is_ascii_lowercase() {
            self.key = Key::Word(letter);
        }
        Ok(())
    }
}

// A line each: the whole answer, the sheet, the table, the list.
fn report(
    out: &impl Print,
    engine: Engine,
    script: &[u8],
    fed: &Fed,
    table: &mut [i32],
    groups: &mut [i32],
) -> io::Result<()> {
    let mut sheet = [0i32; 8960];
    let count = (fed.count % 9) as usize;
    let name = (fed.name % 65536) as u16;
    let answer = call(
        engine, script, fed.d, fed.n, fed.g, table, count, groups, name, &mut sheet,
    );
    print_answer(out, engine, answer, 9)?;
    println!(out)?;
    print_words(out, &sheet, 0, answer[5] as usize)?;
    print_words(out, table, 0, table.len())?;
    print_words(out, groups, 0, groups.len())
}

// The list of a table with one pair in use, or none.
fn list_of(fed: &Fed) -> [i32; 16] {
    let mut groups = [0i32; 16];
    if 0 < fed.count {
        groups[0] = (fed.group % 2147483648) as i32;
        groups[1] = (fed.off % 1000 + 1) as i32;
    }
    groups
}

// An engine on a table and a list of its own.
fn run(out: &impl Print, engine: Engine, script: &[u8], fed: &Fed) -> io::Result<()> {
    let mut table = [0i32; 16];
    let mut groups = list_of(fed);
    table[0] = (fed.group % 2147483648) as i32;
    table[1] = (fed.member % 2147483648) as i32;
    let words = (fed.places % 9 * 2) as usize;
    let listed = words.saturating_sub((fed.lack % 16) as usize);
    report(
        out,
        engine,
        script,
        fed,
        &mut table[..words],
        &mut groups[..listed],
    )
}

fn run_all(out: &impl Print, script: &[u8], fed: &Fed) -> io::Result<()> {
    let mut verdict = [0u64; 2];
    enrol::enrol_check(script, &mut verdict);
    println!(out; " check {} {}", verdict[0], verdict[1])?;
    for engine in Engine::ALL {
        run(out, engine, script, fed)?;
    }
    Ok(())
}

fn all_rows(out: &impl Print, text: &[u8]) -> io::Result<()> {
    let mut row = Row::new();
    for &letter in text {
        row.read(out, letter)?;
        if letter == b'\n' {
            run_all(out, &row.script[..row.bytes], &row.fed)?;
            row = Row::new();
        }
    }
    Ok(())
}

fn main(rt: HostRuntime) -> io::Result<()> {
    let mut rows = [0u8; 65536];
    let n = read_full(&mut rt.reader(), &mut rows)?;
    all_rows(&rt, &rows[..n])
}
