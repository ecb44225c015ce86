// The table of marks (document 01, "Code places and their forms"), and the search through it.
#![tactic(auto)]

ghost use Rattle.std.specs.Prelude.{◌≡◌, ◌<◌};
ghost use Rattle.check_marks.specs.Marks.{bit_of, fit_at};
ghost use Rattle.check_marks.specs.Counts.{field_count};

#[derive(Clone, Copy)]
pub enum Mark {
    BK,
    VR,
    LB,
    PR,
    FM,
    CL,
    GO,
    IF,
    KN,
    AR,
    AD,
    RM,
    QY,
}

// Where a record may stand.
#[derive(Clone, Copy)]
pub enum Place {
    Block,
    Formal,
    Declaration,
    Statement,
}

// The letters of each mark as one field, low byte first.
pub const FM: usize = 0x4d46;

pub const VR: usize = 0x5256;

pub const LB: usize = 0x424c;

pub const PR: usize = 0x5250;

pub const BK: usize = 0x4b42;

pub const CL: usize = 0x4c43;

pub const GO: usize = 0x4f47;

pub const IF: usize = 0x4649;

pub const KN: usize = 0x4e4b;

pub const AR: usize = 0x5241;

pub const AD: usize = 0x4441;

pub const RM: usize = 0x4d52;

pub const QY: usize = 0x5951;

// How many fields come after some of the marks, and such a record's bytes up to what it holds.
const BK_FIELDS: usize = 2;

const PR_FIELDS: usize = 2;

const FM_FIELDS: usize = 2;

const VR_FIELDS: usize = 1;

const LB_FIELDS: usize = 2;

pub const BK_BYTES: usize = 2 + 2 * BK_FIELDS;

pub const PR_BYTES: usize = 2 + 2 * PR_FIELDS;

pub const FM_BYTES: usize = 2 + 2 * FM_FIELDS;

pub const VR_BYTES: usize = 2 + 2 * VR_FIELDS;

pub const LB_BYTES: usize = 2 + 2 * LB_FIELDS;

// A place's bit in the table of marks.
const BLOCK: u8 = 1;

const FORMAL: u8 = 2;

const DECLARATION: u8 = 4;

const STATEMENT: u8 = 8;

// A mark, how many fields come after it, and the bits of the places where it may stand: eight bytes, so that the compiler reads an entry
// of the table at once.
#[derive(Clone, Copy)]
pub struct Entry {
    pub letters: u32,
    pub count: u8,
    pub places: u8,
    pub mark: Mark,
}

const MARKS: [Entry; 13] = [
    Entry {
        letters: FM as u32,
        count: FM_FIELDS as u8,
        places: FORMAL,
        mark: Mark::FM,
    },
    Entry {
        letters: VR as u32,
        count: VR_FIELDS as u8,
        places: DECLARATION,
        mark: Mark::VR,
    },
    Entry {
        letters: LB as u32,
        count: LB_FIELDS as u8,
        places: DECLARATION,
        mark: Mark::LB,
    },
    Entry {
        letters: PR as u32,
        count: PR_FIELDS as u8,
        places: DECLARATION,
        mark: Mark::PR,
    },
    Entry {
        letters: BK as u32,
        count: BK_FIELDS as u8,
        places: BLOCK + STATEMENT,
        mark: Mark::BK,
    },
    Entry {
        letters: CL as u32,
        count: 2,
        places: STATEMENT,
        mark: Mark::CL,
    },
    Entry {
        letters: GO as u32,
        count: 1,
        places: STATEMENT,
        mark: Mark::GO,
    },
    Entry {
        letters: IF as u32,
        count: 2,
        places: STATEMENT,
        mark: Mark::IF,
    },
    Entry {
        letters: KN as u32,
        count: 3,
        places: STATEMENT,
        mark: Mark::KN,
    },
    Entry {
        letters: AR as u32,
        count: 4,
        places: STATEMENT,
        mark: Mark::AR,
    },
    Entry {
        letters: AD as u32,
        count: 2,
        places: STATEMENT,
        mark: Mark::AD,
    },
    Entry {
        letters: RM as u32,
        count: 2,
        places: STATEMENT,
        mark: Mark::RM,
    },
    Entry {
        letters: QY as u32,
        count: 3,
        places: STATEMENT,
        mark: Mark::QY,
    },
];

// A mark that may stand at a place, and how many fields come after it.
#[derive(Clone, Copy)]
pub struct Matched {
    pub count: u8,
    pub mark: Mark,
}

fn bit_of(place: Place) -> u8
    ensures { (result ≡ bit_of place) × (0 < result) }
{
    match place {
        Place::Block => BLOCK,
        Place::Formal => FORMAL,
        Place::Declaration => DECLARATION,
        Place::Statement => STATEMENT,
    }
}

// The mark with these letters, of those that may stand at a place. The table is copied once, before the loop: where the place is known
// when the call is compiled, a comparison for each of its marks is left. An entry is a value, taken by its number: over an iterator the
// table stayed in memory and the place was looked at in every call.
pub fn find_mark(letters: u32, place: Place) -> Option<Matched>
    ensures { result ≡ fit_at place letters }
{
    let marks = MARKS;
    let bit = bit_of(place);
    for i in 0..13 {
        let e = marks[i];
        if e.places / bit % 2 == 1 {
            if e.letters == letters {
                let mark = e.mark;
                return Some(Matched {
                    count: e.count,
                    mark,
                });
            }
        }
    }
    None
}

// The number of fields after a mark, wherever it may stand; 2, as most have, for letters that are no mark, so that the compiled code compares
// only with the marks that have another number.
pub fn field_count(letters: u32) -> usize
    ensures { (result ≡ field_count letters) × (result < 256) }
{
    if let Some(Matched { count, .. }) = find_mark(letters, Place::Statement) {
        return usize::from(count);
    }
    if let Some(Matched { count, .. }) = find_mark(letters, Place::Declaration) {
        return usize::from(count);
    }
    if let Some(Matched { count, .. }) = find_mark(letters, Place::Formal) {
        return usize::from(count);
    }
    2
}
