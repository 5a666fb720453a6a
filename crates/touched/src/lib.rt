// Which points a correction of one latitude row may touch. Each question has two forms with one definition: over any bytes, which are checked first, and over a sheet that passes.
#![tactic(auto)]

ghost use Rattle.std.specs.Prelude.{◌≡◌, true, false, ◌<◌, MatchOption};
ghost use Rattle.entries.specs.Layout.{latitude};
ghost use Rattle.entries.specs.Entries.{rows_of};
ghost use Rattle.touched.specs.Touched.{touch_told, has_minute, row_named, near_row, forward_touched, above_prior, below_next, inverse_touched, geographic_touched, plane_touched};

use refusals::Refusal;
use tables::Passed;

// The latitude row with the minute; none where the sheet has no such row.
fn row_named(sheet: Passed, minute: i32) -> Option<usize>
    ensures { MatchOption result (has_minute sheet.entry.bytes.now minute ≡ false) (λ r. (has_minute sheet.entry.bytes.now minute ≡ true) × (r ≡ row_named sheet.entry.bytes.now minute) × (r < rows_of sheet.entry.bytes.now latitude)) }
{
    let rows = sheet.table(entries::LATITUDE);
    minute_row::named_row(rows.body(), rows.place.rows, minute)
}

// Whether the latitude lies less than a minute from the row's.
fn near_row(minute: i32, latitude: i32) -> bool
    ensures { result ≡ near_row minute latitude }
{
    rounding::size((latitude as i64) - (minute as i64) * (entries::ONE_MINUTE as i64))
        < entries::ONE_MINUTE
}

// Whether a correction of the minute's row may change the answer to a geographic point.
fn may_move_plane(sheet: Passed, minute: i32, latitude: i32, longitude: i32) -> bool
    ensures { result ≡ forward_touched sheet.entry.bytes.now minute latitude longitude }
{
    if !extent::latitude_known(sheet, latitude) {
        return false;
    }
    if !extent::longitude_known(sheet, longitude) {
        return false;
    }
    near_row(minute, latitude)
}

// Whether the reduced northing lies above y0 of the row before r; of the first row, not below the least y0 that its bound allows.
fn above_prior(sheet: Passed, r: usize, reduced: i64) -> bool
    requires { r < rows_of sheet.bytes.now latitude }
    ensures { result ≡ above_prior sheet.entry.bytes.now r reduced }
{
    if 0 < r {
        return tables::y0_of(sheet, r - 1) < reduced;
    }
    tables::y0_of(sheet, r + 1) - (rules::MOST_RISE as i64) <= reduced
}

// Whether the reduced northing lies below y0 of the row after r; of the last row, not above the greatest y0 that its bound allows.
fn below_next(sheet: Passed, r: usize, reduced: i64) -> bool
    requires { r < rows_of sheet.bytes.now latitude }
    ensures { result ≡ below_next sheet.entry.bytes.now r reduced }
{
    if r + 1 < sheet.places.latitude.rows {
        return reduced < tables::y0_of(sheet, r + 1);
    }
    reduced <= tables::y0_of(sheet, r - 1) + (rules::MOST_RISE as i64)
}

// Whether a correction of row r may change the answer to a plane point.
fn may_move_earth(sheet: Passed, r: usize, x: i32, y: i32) -> bool
    requires { r < rows_of sheet.bytes.now latitude }
    ensures { result ≡ inverse_touched sheet.entry.bytes.now r x y }
{
    let xp = extent::x_prime(sheet, x);
    if !extent::easting_known(sheet, xp) {
        return false;
    }
    if !extent::northing_known(sheet, y) {
        return false;
    }
    let reduced = inverse::reduced_northing(sheet, rounding::size(xp), y).value;
    above_prior(sheet, r, reduced) & below_next(sheet, r, reduced)
}

// Whether a correction of the minute's row may change the answer to a geographic point, on a sheet that passes: 16, or yes or no.
pub fn forward_touched(
    sheet: Passed,
    minute: i32,
    latitude: i32,
    longitude: i32,
) -> Result<bool, Refusal>
    ensures { touch_told result ≡ geographic_touched sheet.entry.bytes.now minute latitude longitude }
{
    if row_named(sheet, minute).is_none() {
        return Err(Refusal::NoRow);
    }
    Ok(may_move_plane(sheet, minute, latitude, longitude))
}

// Whether a correction of the minute's row may change what `convert::geographic_to_plane` answers: the check's number, 16, or yes or no.
pub fn geographic_touched(
    sheet: &[u8],
    minute: i32,
    latitude: i32,
    longitude: i32,
) -> Result<bool, Refusal>
    ensures { touch_told result ≡ geographic_touched sheet.now minute latitude longitude }
{
    forward_touched(tables::pass(sheet)?, minute, latitude, longitude)
}

// Whether a correction of the minute's row may change the answer to a plane point, on a sheet that passes: 16, or yes or no.
pub fn inverse_touched(sheet: Passed, minute: i32, x: i32, y: i32) -> Result<bool, Refusal>
    ensures { touch_told result ≡ plane_touched sheet.entry.bytes.now minute x y }
{
    let Some(r) = row_named(sheet, minute) else {
        return Err(Refusal::NoRow);
    };
    Ok(may_move_earth(sheet, r, x, y))
}

// Whether a correction of the minute's row may change what `convert::plane_to_geographic` answers: the check's number, 16, or yes or no.
pub fn plane_touched(sheet: &[u8], minute: i32, x: i32, y: i32) -> Result<bool, Refusal>
    ensures { touch_told result ≡ plane_touched sheet.now minute x y }
{
    inverse_touched(tables::pass(sheet)?, minute, x, y)
}
