// The types of an answer (document 01, "Causes and numbers").
#![tactic(auto)]

ghost use Rattle.std.specs.Prelude.{◌≡◌};
ghost use Rattle.language.specs.Numbers.{stop_number, refusal_number, end_number, cause_number};

// Why a run stopped: causes 21 to 26, in that order.
#[derive(Clone, Copy)]
pub enum Stop {
    ResultTooLarge,
    NoActivationLeft,
    NumberBelowOne,
    GroupFull,
    TableFull,
    ArgumentsDiffer,
}

// Why a call was refused: causes 1 to 14, in that order.
#[derive(Clone, Copy)]
pub enum Refusal {
    ScriptLength,
    PastTheEnd,
    MarkMisplaced,
    FieldRange,
    BytesAfter,
    NestingDepth,
    TooManyNames,
    NameTwice,
    NotVisible,
    WrongKind,
    CallMismatch,
    LimitRange,
    AreaTooShort,
    // or the list of groups beside it is not
    TableNotRight,
}

// Why the script check refuses a script, and the offset to report.
#[derive(Clone, Copy)]
pub struct Fault {
    pub cause: Refusal,
    pub offset: usize,
}

#[derive(Clone, Copy)]
pub enum End {
    Finished,
    Spent,
    Stopped(Stop),
    Refused(Refusal),
}

// A run's answer. `links` is the chain engine's; the other engines give 0.
#[derive(Clone, Copy)]
pub struct Answer {
    pub end: End,
    pub steps: u32,
    pub offset: usize,
    pub pairs: usize,
    pub sheet: usize,
    pub tally: u64,
    pub designator: u32,
    pub links: u32,
}

impl From<Stop> for u32 {
    ghost from_gives = { λ cause number. number ≡ stop_number cause };

    fn from(cause: Stop) -> u32 {
        match cause {
            Stop::ResultTooLarge => 21,
            Stop::NoActivationLeft => 22,
            Stop::NumberBelowOne => 23,
            Stop::GroupFull => 24,
            Stop::TableFull => 25,
            Stop::ArgumentsDiffer => 26,
        }
    }
}

impl From<Refusal> for u32 {
    ghost from_gives = { λ cause number. number ≡ refusal_number cause };

    fn from(cause: Refusal) -> u32 {
        match cause {
            Refusal::ScriptLength => 1,
            Refusal::PastTheEnd => 2,
            Refusal::MarkMisplaced => 3,
            Refusal::FieldRange => 4,
            Refusal::BytesAfter => 5,
            Refusal::NestingDepth => 6,
            Refusal::TooManyNames => 7,
            Refusal::NameTwice => 8,
            Refusal::NotVisible => 9,
            Refusal::WrongKind => 10,
            Refusal::CallMismatch => 11,
            Refusal::LimitRange => 12,
            Refusal::AreaTooShort => 13,
            Refusal::TableNotRight => 14,
        }
    }
}

// The end as the C interface numbers it.
pub fn end_number(e: End) -> u32
    ensures { result ≡ end_number e }
{
    match e {
        End::Finished => 0,
        End::Spent => 1,
        End::Stopped(_) => 2,
        End::Refused(_) => 3,
    }
}

// The cause's number, 0 where there is none.
pub fn cause_number(e: End) -> u32
    ensures { result ≡ cause_number e }
{
    match e {
        End::Finished => 0,
        End::Spent => 0,
        End::Stopped(s) => u32::from(s),
        End::Refused(r) => u32::from(r),
    }
}
