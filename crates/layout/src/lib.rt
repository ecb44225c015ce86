// How words are made up: a name's word and a block's first two words in the resolved script, a cell's number, and what a formal's cell holds.
#![tactic(auto)]

ghost use Rattle.std.specs.Prelude.{◌≡◌, ◌*◌, ◌^◌, ◌<◌, ◌≤◌};
ghost use Rattle.resolved.specs.Resolved.{packed, position_in, formal_in, kind_in, level_in, target_in};
ghost use Rattle.resolved.specs.Layout.{operation_in, formals_in, names_in, end_in, first_in, head_from, bounds_from, cell_from, activation_in, held_from, cell_in, lead_in};

// The operations of statements that have no formal among their names, then those of statements that have one. AD, RM and QY have one each.
// They and the kinds of names stay numbers: they are bits of the resolved script's words, which the engines' loops compare as they are read.
pub const CONSTANT: usize = 0;

pub const ADD: usize = 1;

pub const SUBTRACT: usize = 2;

pub const COMPARE: usize = 3;

pub const BRANCH: usize = 4;

pub const GOTO: usize = 5;

pub const BLOCK: usize = 6;

pub const CALL: usize = 7;

pub const ADD_PAIR: usize = 8;

pub const REMOVE_PAIR: usize = 9;

pub const QUERY: usize = 10;

pub const CONSTANT_FORMAL: usize = 11;

pub const ARITHMETIC_FORMAL: usize = 12;

pub const BRANCH_FORMAL: usize = 13;

pub const GOTO_FORMAL: usize = 14;

pub const CALL_FORMAL: usize = 15;

// AR's field for a sum and for a difference; the operations from ADD on go in the same order.
pub const PLUS: usize = 0;

pub const MINUS: usize = 1;

// The kinds of names.
pub const VARIABLE: usize = 0;

pub const LABEL: usize = 1;

pub const PROCEDURE: usize = 2;

// Cells of an activation, of all activations, and words of the sheet for an activation.
pub const SHARE: usize = 32;

pub const CELLS: usize = 8192;

pub const SHEET_SHARE: usize = 35;

// A name's position in its block.
pub fn position_of(word: usize) -> usize
    ensures { (result ≡ position_in word) × (result < 32) }
{
    word % 32
}

// Whether a name is a formal: 1, or 0.
pub fn formal_of(word: usize) -> usize
    ensures { (result ≡ formal_in word) × (result < 2) }
{
    word / 32 % 2
}

pub fn kind_of(word: usize) -> usize
    ensures { (result ≡ kind_in word) × (result < 4) }
{
    word / 64 % 4
}

// The level of a name's block, and of a block by its first word.
pub fn level_of(word: usize) -> usize
    ensures { (result ≡ level_in word) × (result < 256) }
{
    word / 256 % 256
}

// Where a label or a procedure leads.
pub fn target_of(word: usize) -> usize
    ensures { result ≡ target_in word }
{
    word / 65536
}

#[tactic(auto, unfolding(resolved::specs::Resolved::packed))]
pub fn name_word(position: usize, formal: usize, kind: usize, level: usize, target: usize) -> usize
    requires { (position < 2 ^ 32) × (formal < 2) × (kind < 65536) × (level < 2 ^ 32) × (target < 3 * 2 ^ 30) }
    ensures { (result ≡ packed position formal kind level target) × (result < 2 ^ 48) }
{
    position + 32 * formal + 64 * kind + 256 * level + 65536 * target
}

pub fn operation_of(word: usize) -> usize
    ensures { (result ≡ operation_in word) × (result < 16) }
{
    word % 16
}

// A block's formals, and all its names.
pub fn formals_of(head: usize) -> usize
    ensures { (result ≡ formals_in head) × (result < 256) }
{
    head / 65536 % 256
}

pub fn names_of(head: usize) -> usize
    ensures { result ≡ names_in head }
{
    head / 16777216
}

pub fn head_word(level: usize, formals: usize, names: usize) -> usize
    requires { (level < 2 ^ 32) × (formals < 2 ^ 32) × (names < 2 ^ 32) }
    ensures { result ≡ head_from level formals names }
{
    BLOCK + 256 * level + 65536 * formals + 16777216 * names
}

// Where a block's text ends, and where its first statement stands.
pub fn end_of(bounds: usize) -> usize
    ensures { (result ≡ end_in bounds) × (result < 65536) }
{
    bounds % 65536
}

pub fn first_of(bounds: usize) -> usize
    ensures { result ≡ first_in bounds }
{
    bounds / 65536
}

pub fn bounds_word(end: usize, first: usize) -> usize
    requires { (end < 2 ^ 32) × (first < 2 ^ 32) }
    ensures { result ≡ bounds_from end first }
{
    end + 65536 * first
}

// The cell at a place of an activation, and a cell's activation.
pub fn cell_at(activation: usize, position: usize) -> usize
    requires { (activation < 2 ^ 32) × (position < 2 ^ 32) }
    ensures { result ≡ cell_from activation position }
{
    SHARE * activation + position
}

pub fn activation_of(cell: usize) -> usize
    ensures { result ≡ activation_in cell }
{
    cell / SHARE
}

// What is held for a cell that leads somewhere; the cell, and where it leads.
pub fn held_word(cell: usize, target: usize) -> usize
    requires { (cell < 2 ^ 32) × (target < 2 ^ 32) }
    ensures { result ≡ held_from cell target }
{
    cell + CELLS * target
}

pub fn cell_of(held: usize) -> usize
    ensures { (result ≡ cell_in held) × (result < 8192) }
{
    held % CELLS
}

pub fn lead_of(held: usize) -> usize
    ensures { result ≡ lead_in held }
{
    held / CELLS
}
