// An answer as its struct, in runs and refusals alike, and its words for the C interface.
#![tactic(auto)]

ghost use Rattle.std.specs.Prelude.{◌≡◌, ◌≤◌};
ghost use Rattle.language.specs.Numbers.{answer_words};
ghost use Rattle.call_answers.specs.Answers.{refused_answer, ran_answer};

use language::{Answer, End, Refusal};

// The answer of a call that is refused.
pub fn refused_answer(cause: Refusal, offset: usize, pairs: usize, tally: u64) -> Answer
    ensures { result ≡ refused_answer cause offset pairs tally }
{
    Answer {
        end: End::Refused(cause),
        steps: 0,
        offset,
        pairs,
        sheet: 0,
        tally,
        designator: 0,
        links: 0,
    }
}

// The answer of a call that has run.
pub fn ran_answer(
    end: End,
    steps: u32,
    offset: usize,
    pairs: usize,
    sheet: usize,
    tally: u64,
    designator: u32,
    links: u32,
) -> Answer
    requires { tally ≤ 1000000000000 }
    ensures { result ≡ ran_answer end steps offset pairs sheet tally designator links }
{
    Answer {
        end,
        steps,
        offset,
        pairs,
        sheet,
        tally: tally + steps as u64,
        designator,
        links,
    }
}

// The one place where an answer becomes words.
pub fn write_answer(answer: Answer, words: &mut [u64; 9])
    ensures { words.new ≡ answer_words answer }
{
    let end = answer.end;
    *words = [
        language::end_number(end) as u64,
        language::cause_number(end) as u64,
        answer.steps as u64,
        answer.offset as u64,
        answer.pairs as u64,
        answer.sheet as u64,
        answer.tally,
        answer.designator as u64,
        answer.links as u64,
    ];
}
