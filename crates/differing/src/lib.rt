// The latitude rows in which two sheets differ.
#![tactic(auto)]

ghost use Rattle.std.specs.Prelude.{◌≡◌, ◌+◌, ◌*◌, ◌<◌, ◌≤◌, length};
ghost use Rattle.entries.specs.Layout.{latitude, row_bytes};
ghost use Rattle.differing.specs.Differing.{row_differs, differs_at, is_differing};

use tables::Passed;

// Whether row i of the old latitude body b is different in the new one, c, of m rows, or missing there.
fn row_differs(b: &[u8], i: usize, c: &[u8], m: usize) -> bool
    requires { (row_bytes latitude * i + row_bytes latitude ≤ length b.now) × (0 < m) × (row_bytes latitude * m ≤ length c.now) }
    ensures { result ≡ row_differs b.now c.now m i }
{
    let minute = words::word(b, entries::LATITUDE_WIDTH * i);
    match minute_row::named_row(c, m, minute) {
        Some(j) => latitude_rows::figures_at(b, i) != latitude_rows::figures_at(c, j),
        None => true,
    }
}

// Whether the old latitude body b, of n rows, has a row with the minute, and that row is different in the new one, c, of m rows, or missing there.
fn differs_in(b: &[u8], n: usize, c: &[u8], m: usize, minute: i32) -> bool
    requires { (0 < n) × (row_bytes latitude * n ≤ length b.now) × (0 < m) × (row_bytes latitude * m ≤ length c.now) }
    ensures { result ≡ differs_at b.now n c.now m minute }
{
    match minute_row::named_row(b, n, minute) {
        Some(i) => row_differs(b, i, c, m),
        None => false,
    }
}

// Whether the old sheet has a latitude row with the minute, and that row is different in the new one, or missing there.
pub fn differs_at(old: Passed, new: Passed, minute: i32) -> bool
    ensures { result ≡ is_differing old.entry.bytes.now new.entry.bytes.now minute }
{
    let b = old.table(entries::LATITUDE);
    let c = new.table(entries::LATITUDE);
    differs_in(b.body(), b.place.rows, c.body(), c.place.rows, minute)
}
