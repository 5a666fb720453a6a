// How far a sheet that passes the check reaches: where a point stands in its tables, and whether that is within their rows, as numbers 10 to 14 ask.
#![tactic(auto)]

ghost use Rattle.std.specs.Prelude.{◌≡◌, ◌≤◌, nat_abs};
ghost use Rattle.entries.specs.Layout.{last_kind, least_rows};
ghost use Rattle.entries.specs.Entries.{rows_of, step_of, Within};
ghost use Rattle.contents.specs.Contents.{Placed};
ghost use Rattle.reading.specs.Tables.{within_rows, offset_of};
ghost use Rattle.tables.specs.Figures.{InTable};
ghost use Rattle.extent.specs.Extent.{from_first, latitude_known, l_of, size_known, longitude_known, x_prime, easting_known, scale_known, northing_known, reduced_known};

use entries::Place;
use reading::At;
use tables::Passed;

// Whether z lies from row 0 of the kind's body to its last row.
fn within(sheet: Passed, kind: usize, z: i64) -> bool
    requires { (1 ≤ kind) × (kind ≤ last_kind) }
    ensures { result ≡ within_rows (rows_of sheet.entry.bytes.now kind) (step_of sheet.entry.bytes.now kind) z }
{
    let place = sheet.table(kind).place;
    reading::within_rows(place.rows, place.step, z)
}

// The position of an offset in the kind's table, worked once for all that is read there. `place` is the place of its body, and `step` its step. Where the
// caller gives the step as a constant, the compiler turns the division into a product.
pub fn position(s: &[u8], place: Place, kind: usize, step: u64, offset: u64) -> At
    requires { Placed s.now kind place × (2 ≤ least_rows kind) × (step ≡ step_of s.now kind) × Within s.now kind offset }
    ensures { InTable s.now kind result × (offset_of result ≡ offset) }
{
    reading::at_offset(place.rows, step as u32, offset as u32)
}

// The same in a sheet that passes.
pub fn position_of(sheet: Passed, kind: usize, step: u64, offset: u64) -> At
    requires { (1 ≤ kind) × (kind ≤ last_kind) × (2 ≤ least_rows kind) × (step ≡ step_of sheet.bytes.now kind) × Within sheet.bytes.now kind offset }
    ensures { InTable sheet.entry.bytes.now kind result × (offset_of result ≡ offset) }
{
    position(sheet.bytes, sheet.table(kind).place, kind, step, offset)
}

// The latitude's distance from row 0, in 0.001″.
pub fn from_first(sheet: Passed, latitude: i32) -> i64
    ensures { result ≡ from_first sheet.entry.bytes.now latitude }
{
    (latitude as i64) - sheet.origin.first_latitude
}

// Whether the latitude lies from the first row to the last.
pub fn latitude_known(sheet: Passed, latitude: i32) -> bool
    ensures { result ≡ latitude_known sheet.entry.bytes.now latitude }
{
    reading::within_rows(
        sheet.places.latitude.rows,
        entries::ONE_MINUTE,
        from_first(sheet, latitude),
    )
}

// L, in 0.001″.
pub fn l_of(sheet: Passed, longitude: i32) -> i64
    ensures { (result ≡ l_of sheet.entry.bytes.now longitude) × (nat_abs result ≤ 2_789_483_648) }
{
    sheet.origin.central_meridian - (longitude as i64)
}

// Whether a size of L is not above the last kind 3 row.
pub fn size_known(sheet: Passed, size: i64) -> bool
    ensures { result ≡ size_known sheet.entry.bytes.now size }
{
    within(sheet, entries::LONGITUDE, size)
}

// Whether the longitude is one that there is, and its L not above the last kind 3 row.
pub fn longitude_known(sheet: Passed, longitude: i32) -> bool
    ensures { result ≡ longitude_known sheet.entry.bytes.now longitude }
{
    let size = rounding::size(l_of(sheet, longitude));
    (0 <= longitude) & (longitude <= 648_000_000) & size_known(sheet, size as i64)
}

// x', in 0.01 ft.
pub fn x_prime(sheet: Passed, x: i32) -> i64
    ensures { (result ≡ x_prime sheet.entry.bytes.now x) × (nat_abs result ≤ 2_247_483_648) }
{
    (x as i64) - sheet.origin.false_easting
}

// Whether x' in size is not above the last kind 5 row.
pub fn easting_known(sheet: Passed, xp: i64) -> bool
    requires { nat_abs xp ≤ 2_247_483_648 }
    ensures { result ≡ easting_known sheet.entry.bytes.now xp }
{
    within(sheet, entries::EASTING, rounding::size(xp) as i64)
}

// Whether x' in size is not above the last kind 6 row.
pub fn scale_known(sheet: Passed, xp: i64) -> bool
    requires { nat_abs xp ≤ 2_247_483_648 }
    ensures { result ≡ scale_known sheet.entry.bytes.now xp }
{
    within(sheet, entries::SCALE, rounding::size(xp) as i64)
}

// Whether y lies from 0 to the last kind 4 row.
pub fn northing_known(sheet: Passed, y: i32) -> bool
    ensures { result ≡ northing_known sheet.entry.bytes.now y }
{
    within(sheet, entries::NORTHING, y as i64)
}

// Whether the reduced northing lies from the first y0 to the last.
pub fn reduced_known(sheet: Passed, reduced: i64) -> bool
    ensures { result ≡ reduced_known sheet.entry.bytes.now reduced }
{
    (tables::y0_of(sheet, 0) <= reduced)
        & (reduced <= tables::y0_of(sheet, sheet.places.latitude.rows - 1))
}
