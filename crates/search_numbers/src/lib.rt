// The number of the name in each field of a script, laid out as the resolved script is. A name's number goes by its word there and by the places of the
// blocks around it. All is safe on any bytes.
#![tactic(auto)]

ghost use Rattle.std.specs.Prelude.{◌≡◌, ◌<◌, length, replicate};
ghost use Rattle.search_numbers.specs.Layouts.{numbered_layout};
ghost use Rattle.search_numbers.specs.Around.{number_at, Ahead};
ghost use Rattle.search_numbers.specs.Numbering.{NumbersStand};

use check_marks::BK;
use layout::{level_of, position_of};
use numbers::from_u32;
use resolve_fields::{Notes, leading, put_each, trailing, write_words};

// The number of the name whose word stands at a place.
fn number_at(code: &[u32; 4096], around: &[u16; 256], place: usize) -> u32
    requires { place < 4096 }
    ensures { result ≡ number_at code.now around.now place }
{
    let word = from_u32(code[place]);
    (32 * usize::from(around[level_of(word)]) + position_of(word)) as u32
}

// At each level the place of the BK of the block around a record.
#[derive(Drop)]
struct Numbering {
    around: [u16; 256],
}

impl Notes for Numbering {
    ghost layout = { numbered_layout };

    ghost ahead = { λ it. Ahead it.around 16 };

    // A block is noted at its level before the looked-up name is numbered, which may be the block's own.
    fn note(
        &mut self,
        script: &[u8],
        code: &[u32; 4096],
        words: &mut [u32; 4096],
        at: usize,
        mark: usize,
    ) {
        let place = at / 2;
        if mark == BK {
            let level = level_of(from_u32(code[place]));
            self.around[level] = place as u16;
            let number = |p: usize| number_at(code, &self.around, p);
            put_each(words, place + 2, 1, number);
            return;
        }
        let number = |p: usize| number_at(code, &self.around, p);
        put_each(words, place + 1, leading(mark), number);
        put_each(words, place + 3, trailing(script, at, mark), number);
    }
}

// `numbers` is all zeros before it.
pub fn number_names(script: &[u8], code: &[u32; 4096], numbers: &mut [u32; 4096])
    requires { numbers.old ≡ replicate 4096 0 }
    ensures numbered { NumbersStand script.now code.now numbers.new }
    ensures long { length numbers.new ≡ 4096 }
{
    let mut numbering = Numbering {
        around: [0u16; 256],
    };
    write_words(script, code, numbers, &mut numbering);
}
