// The row of a reduced northing: a first look by what rows rise, and from there row by row.
#![tactic(auto)]

ghost use Rattle.std.specs.Prelude.{◌≡◌, true, ◌+◌, ◌*◌, ◌^◌, ◌<◌, ◌≤◌, length, pos, nat_abs};
ghost use Rattle.std.specs.Int.Signed.{le_z};
ghost use Rattle.words.specs.Words.{word_at};
ghost use Rattle.reading.specs.Tables.{column, NotNegative};
ghost use Rattle.row_search.specs.Rows.{last_not_above, Rising};

// Whether the figure in row i of column c, which is not negative, is not above z.
fn not_above(b: &[u8], w: usize, c: usize, i: usize, z: i64) -> bool
    requires { (4 * (w * i + c) + 4 ≤ length b.now) × (le_z (pos 0) (column b.now w c i) ≡ true) }
    ensures { result ≡ le_z (column b.now w c i) z }
{
    (words::unsigned_word(b, w * i + c) as i64) <= z
}

// Where to look first: the row that z would have if every row stood a rise above the one before it, and at most the last.
fn first_look(b: &[u8], c: usize, n: usize, rise: u64, z: i64) -> usize
    requires { (0 < n) × (0 < rise) × (4 * c + 4 ≤ length b.now) × (le_z (pos 0) (word_at b.now c) ≡ true) × (le_z (word_at b.now c) z ≡ true) × (nat_abs z < 2 ^ 62) }
    ensures { result < n }
{
    let height = (z - words::unsigned_word(b, c) as i64) as u64;
    let row = height / rise;
    if row < (n as u64) {
        row as usize
    } else {
        n - 1
    }
}

// A row whose figure is not above z: the first from a given one down. Row 0's is not.
fn down(b: &[u8], w: usize, c: usize, n: usize, from: usize, z: i64) -> usize
    requires { (from < n) × (4 * (w * n) ≤ length b.now) × (c < w) × NotNegative (column b.now w c) n × (le_z (column b.now w c 0) z ≡ true) }
    ensures { (result < n) × (le_z (column b.now w c result) z ≡ true) }
{
    let mut row = from;
    // A search from a start: a range that ends at row 0 or at n would need an answer behind it that is never given.
    while !not_above(b, w, c, row, z) {
        row -= 1;
    }
    row
}

// The last row whose figure is not above z, from a given one of such rows up.
fn up(b: &[u8], w: usize, c: usize, n: usize, from: usize, z: i64) -> usize
    requires { (from < n) × (4 * (w * n) ≤ length b.now) × (c < w) × NotNegative (column b.now w c) n × Rising (column b.now w c) n × (le_z (column b.now w c from) z ≡ true) }
    ensures { (result ≡ last_not_above (column b.now w c) n z) × (result < n) }
{
    let mut row = from;
    // As above: the answer is the row before the first that is above.
    while row + 1 < n && not_above(b, w, c, row + 1, z) {
        row += 1;
    }
    row
}

// Of the n rows of a rising column, in which no figure is negative, the last whose figure is not above z. Row 0's is not.
// The rise decides no answer: the nearer it is to the rows' own, the shorter is the way from the first look.
pub fn last_not_above(b: &[u8], w: usize, c: usize, n: usize, rise: u64, z: i64) -> usize
    requires { (0 < n) × (4 * (w * n) ≤ length b.now) × (c < w) × (0 < rise) × NotNegative (column b.now w c) n × Rising (column b.now w c) n × (le_z (column b.now w c 0) z ≡ true) × (nat_abs z < 2 ^ 62) }
    ensures { (result ≡ last_not_above (column b.now w c) n z) × (result < n) }
{
    let look = first_look(b, c, n, rise, z);
    up(b, w, c, n, down(b, w, c, n, look, z), z)
}
