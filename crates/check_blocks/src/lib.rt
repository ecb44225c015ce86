// A block of a script: its declarations with their bodies, and its statements. A block stands in a body and in a statement again, so
// the functions call each other in a cycle, in which the unread bytes fall. No count is trusted: room is taken for no record that has
// not been read. The names of each level stand in one array, outermost first; one level more than may be nested is for the formals of
// a procedure whose body is then refused as too deep.
#![tactic(auto)]

ghost use Rattle.std.specs.Prelude.{◌≡◌, ◌+◌, ◌≤◌, length, take};
ghost use Rattle.language.specs.Structure.{block_with, declarations as all_declared, statements as all_stated};
ghost use Rattle.check_records.specs.Taking.{unread, forget};
ghost use Rattle.check_names.specs.Naming.{names_at};
ghost use Rattle.check_bounds.specs.Marks.{decl_mark_of, stmt_mark_of};
ghost use Rattle.check_bounds.specs.Judging.{FewFormals};
ghost use Rattle.check_blocks.specs.Progress.{base_of, below_of, stated_of, plain_of, action_mark};

use check_bounds::MOST_NAMES;
use check_bounds::declaration::fit;
use check_fields::Reader;
use check_marks::Mark;
use check_records::Reading;
use language::Fault;

// Blocks inside each other, the program's own among them.
pub const LEVELS: usize = 16;

// The names of all levels: those of a block that has `left` levels left, its own included, from MOST_NAMES * (LEVELS - left) on.
pub const PLACES: usize = MOST_NAMES * (LEVELS + 1);

// Whether a declaration is no procedure.
fn bodiless(mark: Mark) -> bool
    ensures { result ≡ plain_of (decl_mark_of mark) }
{
    match mark {
        Mark::PR => false,
        _ => true,
    }
}

// Whether a statement is no block.
fn is_action(mark: Mark) -> bool
    ensures { result ≡ action_mark (stmt_mark_of mark) }
{
    match mark {
        Mark::BK => false,
        _ => true,
    }
}

// A block whose BK has been taken, with so many names held for its formals and so many levels left.
#[cycle(block_body_declarations_statement_statements)]
pub fn block(
    script: &[u8],
    names: &mut [u32],
    at: usize,
    next: usize,
    d: usize,
    s: usize,
    held: usize,
    left: usize,
) -> Result<usize, Fault>
    requires { (left ≤ 16) × (held ≤ 32) × (length names.old ≡ 544) }
    ensures reads { result ≡ forget (block_with left at d s (names_at names.old (base_of left) held) next (unread script.now next)) }
    ensures keeps { take (base_of left) names.new ≡ take (base_of left) names.old }
{
    let first = check_bounds::block::opened(at, next, d, held, left)?;
    let rest = declarations(script, names, first, d, s, held, left - 1)?;
    statements(script, names, rest, s, left - 1)
}

// d declarations of a block with s statements, handed out by one reader. Their names are put after those held, at the block's own level.
#[cycle(block_body_declarations_statement_statements)]
fn declarations(
    script: &[u8],
    names: &mut [u32],
    at: usize,
    d: usize,
    s: usize,
    held: usize,
    below: usize,
) -> Result<usize, Fault>
    requires { (below ≤ 15) × (held + d ≤ 32) × (length names.old ≡ 544) }
    ensures reads { result ≡ forget (all_declared (block_with below) s d (names_at names.old (base_of (below + 1)) held) at (unread script.now at)) }
    ensures keeps { take (base_of (below + 1)) names.new ≡ take (base_of (below + 1)) names.old }
{
    let base = MOST_NAMES * (LEVELS - (below + 1));
    let mut reader = Reader { script, at };
    for i in 0..d {
        let count = held + i;
        let reading = check_readers::declaration_here(reader);
        let Reading::Taken { mark, f0, f1, .. } = reading else {
            return check_records::onward(reading);
        };
        let next = fit(names, reader.at, reading, s, base, count)?;
        let end = body(script, names, mark, next, f1 as usize, below)?;
        names[base + count] = f0;
        reader.at = end;
    }
    Ok(reader.at)
}

// What comes after a declaration's own record: a procedure's formals and body, and nothing after another's.
#[cycle(block_body_declarations_statement_statements)]
fn body(
    script: &[u8],
    names: &mut [u32],
    mark: Mark,
    start: usize,
    p: usize,
    below: usize,
) -> Result<usize, Fault>
    requires { (below ≤ 15) × FewFormals (decl_mark_of mark) p × (length names.old ≡ 544) }
    ensures reads { result ≡ below_of (block_with below) (decl_mark_of mark) p start (unread script.now start) }
    ensures keeps { take (base_of below) names.new ≡ take (base_of below) names.old }
{
    if bodiless(mark) {
        return Ok(start);
    }
    let base = MOST_NAMES * (LEVELS - below);
    let at = check_names::formals::read_formals(script, names, start, p, base)?;
    let reading = check_readers::read_block(script, at);
    let Reading::Taken { next, f0, f1, .. } = reading else {
        return check_records::onward(reading);
    };
    block(script, names, at, next, f0 as usize, f1 as usize, p, below)
}

// s statements, handed out by one reader.
#[cycle(block_body_declarations_statement_statements)]
fn statements(
    script: &[u8],
    names: &mut [u32],
    at: usize,
    s: usize,
    below: usize,
) -> Result<usize, Fault>
    requires { (below ≤ 15) × (length names.old ≡ 544) }
    ensures reads { result ≡ forget (all_stated (block_with below) s at (unread script.now at)) }
    ensures keeps { take (base_of below) names.new ≡ take (base_of below) names.old }
{
    let mut reader = Reader { script, at };
    for _ in 0..s {
        let reading = check_readers::statement_here(reader);
        let Reading::Taken {
            mark,
            next,
            f0,
            f1,
            ..
        } = reading
        else {
            return check_records::onward(reading);
        };
        reader.at = statement(
            script,
            names,
            mark,
            reader.at,
            next,
            f0 as usize,
            f1 as usize,
            below,
        )?;
    }
    Ok(reader.at)
}

// A statement whose record has been taken: a block inside, or an action.
#[cycle(block_body_declarations_statement_statements)]
fn statement(
    script: &[u8],
    names: &mut [u32],
    mark: Mark,
    at: usize,
    next: usize,
    f0: usize,
    f1: usize,
    below: usize,
) -> Result<usize, Fault>
    requires { (below ≤ 15) × (next ≤ length script.now) × (length names.old ≡ 544) }
    ensures reads { result ≡ stated_of (block_with below) (stmt_mark_of mark) at f0 f1 next (unread script.now next) }
    ensures keeps { take (base_of below) names.new ≡ take (base_of below) names.old }
{
    if is_action(mark) {
        return check_bounds::statement::action(script, mark, at, next, f1);
    }
    block(script, names, at, next, f0, f1, 0, below)
}
