// The fault of one latitude row, from the row and the next.
#![tactic(auto)]

ghost use Rattle.std.specs.Prelude.{◌≡◌, ◌+◌, ◌*◌, ◌≤◌, length};
ghost use Rattle.refusals.specs.Numbers.{number};
ghost use Rattle.entries.specs.Layout.{latitude, row_bytes};
ghost use Rattle.latitude_rows.specs.Rows.{figures_at, differences_at, row_at, row_in_range, pair_fault, last_fault};

use refusals::Refusal;
use rules::{Differences, Figures};

// A latitude row: its eight words.
#[derive(Clone, Copy)]
pub struct Row {
    pub minute: i32,
    pub figures: Figures,
    pub differences: Differences,
}

// The four figures of latitude row i: y0, H, V, a.
pub fn figures_at(b: &[u8], i: usize) -> Figures
    requires { row_bytes latitude * i + row_bytes latitude ≤ length b.now }
    ensures { result ≡ figures_at b.now i }
{
    Figures {
        y0: words::word(b, entries::LATITUDE_WIDTH * i + 1),
        h: words::word(b, entries::LATITUDE_WIDTH * i + 3),
        v: words::word(b, entries::LATITUDE_WIDTH * i + 5),
        a: words::word(b, entries::LATITUDE_WIDTH * i + 7),
    }
}

// The differences of latitude row i: Δy, ΔH, ΔV.
fn differences_at(b: &[u8], i: usize) -> Differences
    requires { row_bytes latitude * i + row_bytes latitude ≤ length b.now }
    ensures { result ≡ differences_at b.now i }
{
    Differences {
        y: words::word(b, entries::LATITUDE_WIDTH * i + 2),
        h: words::word(b, entries::LATITUDE_WIDTH * i + 4),
        v: words::word(b, entries::LATITUDE_WIDTH * i + 6),
    }
}

// Latitude row i.
pub fn row_at(b: &[u8], i: usize) -> Row
    requires { row_bytes latitude * i + row_bytes latitude ≤ length b.now }
    ensures { result ≡ row_at b.now i }
{
    Row {
        minute: words::word(b, entries::LATITUDE_WIDTH * i),
        figures: figures_at(b, i),
        differences: differences_at(b, i),
    }
}

// Whether a latitude row's minute and figures are in their ranges.
fn row_in_range(row: Row) -> bool
    ensures { result ≡ row_in_range row }
{
    refusals::in_range(0, row.minute, 5_400) & rules::figures_in_range(row.figures)
}

// The fault of a latitude row that another follows.
pub fn latitude_row(row: Row, next: Row) -> Result<(), Refusal>
    ensures { number result ≡ pair_fault row next }
{
    if !row_in_range(row) {
        return Err(Refusal::Range);
    }
    if !rules::rises(row.minute, next.minute, 1, 1) {
        return Err(Refusal::Minute);
    }
    if !rules::within_bounds(row.figures, next.figures) {
        return Err(Refusal::Bound);
    }
    if !rules::are_differences(row.differences, row.figures, next.figures) {
        return Err(Refusal::Difference);
    }
    Ok(())
}

// The fault of the last latitude row.
pub fn last_latitude_row(row: Row) -> Result<(), Refusal>
    ensures { number result ≡ last_fault row }
{
    if !row_in_range(row) {
        return Err(Refusal::Range);
    }
    if row.differences != rules::no_differences() {
        return Err(Refusal::Difference); // a difference in the last row
    }
    Ok(())
}
