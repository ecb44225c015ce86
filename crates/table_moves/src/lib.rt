// Pairs of words in a slice: one is taken out and the gap closed, one is put in and room made for it.
#![tactic(auto)]

ghost use Rattle.std.specs.Prelude.{◌≡◌, ◌+◌, ◌*◌, ◌-◌, ◌≤◌, min, length};
ghost use Rattle.language.specs.Table.{take_out};
ghost use Rattle.table_moves.specs.PutIn.{put_in};

// How many words `count` pairs take, of `len`.
fn words_in(len: usize, count: usize) -> usize
    ensures { result ≡ min (2 * count) len }
{
    count.saturating_mul(2).min(len)
}

// The pair at `place` is taken out of `count`. The words after it move down as they stand, and not by pairs, since a table of odd length may
// end with half a pair, which moves too.
pub fn take_out(table: &mut [i32], count: usize, place: usize)
    ensures { table.new ≡ take_out place count table.old }
{
    let end = words_in(table.len(), count);
    if end / 2 <= place {
        return;
    }
    table.copy_within(2 * place + 2..end, 2 * place);
    table[end - 2] = 0;
    table[end - 1] = 0;
}

// A pair is put in at `place` of `count`. Those from there on move up, the last one over the pair after all of them.
pub fn put_in(table: &mut [i32], count: usize, place: usize, first: i32, second: i32)
    requires place_le_count { place ≤ count }
    requires count_in_bounds { 2 * count + 2 ≤ length table.old }
    ensures { table.new ≡ put_in (2 * place) (2 * count - 2 * place) first second table.old }
{
    let start = 2 * place;
    table.copy_within(start..2 * count, start + 2);
    table[start] = first;
    table[start + 1] = second;
}
