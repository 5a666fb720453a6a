// Reading tables: where an offset lies among the rows, a column's value there, and whether it was rounded from a half.
#![tactic(auto)]

ghost use Rattle.std.specs.Prelude.{◌≡◌, true, ◌+◌, ◌-◌, ◌*◌, ◌<◌, ◌≤◌, min, length, pos};
ghost use Rattle.std.specs.Int.Signed.{le_z};
ghost use Rattle.rounding.specs.Ranges.{most_count, most_step};
ghost use Rattle.reading.specs.Tables.{column, past_row, past_row_half, within_rows, offset_of, Stepped, Among};

use rounding::Rounded;

// A position in a table: so much past a row that has a next, up to the whole step between the two. The last row is a whole step past the one before it, so that there is always a next.
// `past` and `step` have 32 bits, as a word has: so products with a word are narrow ones, which some processors work faster.
#[derive(Clone, Copy)]
pub struct At {
    pub row: usize,
    pub past: u32,
    pub step: u32,
}

// The value of column c at a position, for a body of w words in a row.
pub fn past_row(b: &[u8], w: usize, c: usize, at: At) -> Rounded<i64>
    requires { Stepped at × (4 * (w * at.row + c + w) + 4 ≤ length b.now) }
    ensures { (result.value ≡ past_row (column b.now w c) at.row at.past at.step) × (result.half ≡ past_row_half (column b.now w c) at.row at.past at.step) }
{
    let i = w * at.row + c;
    rounding::between(
        words::raised_word(b, i),
        words::raised_word(b, i + w),
        at.past,
        at.step,
    )
}

// The same where neither figure is negative: the words are read without a sign.
pub fn size_past_row(b: &[u8], w: usize, c: usize, at: At) -> Rounded<u64>
    requires { Stepped at × (4 * (w * at.row + c + w) + 4 ≤ length b.now) × (le_z (pos 0) (column b.now w c at.row) ≡ true) × (le_z (pos 0) (column b.now w c (at.row + 1)) ≡ true) }
    ensures { (pos result.value ≡ past_row (column b.now w c) at.row at.past at.step) × (result.half ≡ past_row_half (column b.now w c) at.row at.past at.step) }
{
    let first = w * at.row + c;
    let u = words::unsigned_word(b, first) as u64;
    let next = words::unsigned_word(b, first + w) as u64;
    let weight = (at.step - at.past) as u64;
    let next_weight = at.past as u64;
    rounding::nearest_size(u * weight + next * next_weight, at.step as u64)
}

// 1 where k is beyond the last, and else 0.
fn beyond(k: usize, last: usize) -> usize
    ensures { (last < k → result ≡ 1) × (k ≤ last → result ≡ 0) }
{
    if last < k { 1 } else { 0 }
}

// Row k of n, or the one before it where k is the last, so that there is a next. Worked without a choice between the two, which the compiler may make a jump.
fn with_next(k: usize, n: usize) -> usize
    requires { (2 ≤ n) × (k < n) }
    ensures { result ≡ min k (n - 2) }
{
    k - beyond(k, n - 2)
}

// The position of an offset from row 0, among n rows a step apart.
pub fn at_offset(n: usize, step: u32, offset: u32) -> At
    requires { (2 ≤ n) × (0 < step) × (step ≤ most_step) × (offset ≤ (n - 1) * step) }
    ensures { Among n result × (offset_of result ≡ offset) × (result.step ≡ step) }
{
    let row = with_next((offset / step) as usize, n);
    At {
        row,
        past: offset - (row as u32) * step,
        step,
    }
}

// Whether z lies from row 0 to the last row.
pub fn within_rows(rows: usize, step: u64, z: i64) -> bool
    requires { (0 < rows) × (rows ≤ most_count) × (step ≤ most_step) }
    ensures { result ≡ within_rows rows step z }
{
    let last = ((rows - 1) as u32 as u64) * step; // in 32 bits, so that the compiler sees a number not negative, and one test is enough
    (0 <= z) & (z <= (last as i64))
}
