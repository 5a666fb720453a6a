// Whether some of the rows in which two sheets differ may touch a line of the points program. On each sheet two minutes alone are asked, however many rows differ.
#![tactic(auto)]

ghost use Rattle.std.specs.Prelude.{◌≡◌, ◌&&◌, ◌^◌, ◌<◌, ◌≤◌, nat_abs};
ghost use Rattle.entries.specs.Layout.{latitude};
ghost use Rattle.entries.specs.Entries.{rows_of};
ghost use Rattle.inverse.specs.Inverse.{row_of};
ghost use Rattle.differing.specs.Differing.{differing_rows, any_of};
ghost use Rattle.reached.specs.Reached.{touches, reaches, first_minute, plane_minute, lower_minute};

use point_line::{Form, Line};
use tables::Passed;

// ---- the lower of the two minutes

// The last latitude row with y0 not above z, or row 0 where there is none.
fn row_below(sheet: Passed, z: i64) -> usize
    requires { nat_abs z < 2 ^ 62 }
    ensures { (result ≡ row_of sheet.entry.bytes.now z) × (result < rows_of sheet.entry.bytes.now latitude) }
{
    if z < tables::y0_of(sheet, 0) {
        return 0;
    }
    tables::row_of_northing(sheet, z)
}

// The first row's minute.
fn first_minute(sheet: Passed) -> u64
    ensures { (result ≡ first_minute sheet.entry.bytes.now) × (result ≤ 5_400) }
{
    rounding::size(sheet.origin.first_latitude) / entries::ONE_MINUTE
}

// The lower of the minutes whose rows may touch a plane point.
fn plane_minute(sheet: Passed, x: i32, y: i32) -> u64
    ensures { (result ≡ plane_minute sheet.entry.bytes.now x y) × (result ≤ 40_000) }
{
    let xp = extent::x_prime(sheet, x);
    if !extent::easting_known(sheet, xp) {
        return 0;
    }
    if !extent::northing_known(sheet, y) {
        return 0;
    }
    let z = inverse::reduced_northing(sheet, rounding::size(xp), y).value;
    first_minute(sheet) + row_below(sheet, z) as u64
}

// The lower of the minutes whose rows may touch the line.
fn lower_minute(sheet: Passed, l: Line) -> u64
    ensures { (result ≡ lower_minute sheet.entry.bytes.now (Some l)) × (result ≤ 40_000) }
{
    match l.form {
        Form::Forward => rounding::size(l.first as i64) / entries::ONE_MINUTE,
        Form::Inverse => plane_minute(sheet, l.first, l.second),
        Form::Convergence => 0,
    }
}

// ---- whether the line is touched

// Whether a correction of the minute's row may change what the sheet answers the line.
fn is_touched(sheet: Passed, l: Line, minute: i32) -> bool
    ensures { result ≡ touches sheet.entry.bytes.now (Some l) minute }
{
    match l.form {
        Form::Forward => touched::forward_touched(sheet, minute, l.first, l.second).unwrap_or(
            false,
        ),
        Form::Inverse => touched::inverse_touched(sheet, minute, l.first, l.second).unwrap_or(
            false,
        ),
        Form::Convergence => false,
    }
}

// The same where the minute's row differs, else no.
fn is_touched_where(differs: bool, sheet: Passed, l: Line, minute: i32) -> bool
    ensures { result ≡ differs && touches sheet.entry.bytes.now (Some l) minute }
{
    if !differs {
        return false;
    }
    is_touched(sheet, l, minute)
}

// Whether some of the rows in which the two sheets differ may change what the sheet answers the line.
fn is_reached_on(old: Passed, new: Passed, sheet: Passed, l: Line) -> bool
    ensures { result ≡ any_of (touches sheet.entry.bytes.now (Some l)) (differing_rows old.entry.bytes.now new.entry.bytes.now) }
{
    let m = lower_minute(sheet, l);
    let low = m as i32;
    let high = (m + 1) as i32;
    is_touched_where(differing::differs_at(old, new, low), sheet, l, low)
        | is_touched_where(differing::differs_at(old, new, high), sheet, l, high)
}

// Whether some of the rows in which the two sheets differ may touch the line, on the one or the other. One of no known form is not touched.
pub fn is_reached(old: Passed, new: Passed, l: Option<Line>) -> bool
    ensures { result ≡ reaches old.entry.bytes.now new.entry.bytes.now l (differing_rows old.entry.bytes.now new.entry.bytes.now) }
{
    match l {
        Some(l) => is_reached_on(old, new, old, l) | is_reached_on(old, new, new, l),
        None => false,
    }
}
