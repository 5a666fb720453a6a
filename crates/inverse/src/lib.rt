// Plane to geographic, on a sheet that passes: 12, 13, 14, 11, or latitude and longitude.
#![tactic(auto)]

ghost use Rattle.std.specs.Prelude.{◌≡◌, true, ◌+◌, ◌-◌, ◌*◌, ◌^◌, ◌<◌, ◌≤◌, min, T, pos, nat_abs, ◌-ℤ◌, ◌*ℤ◌};
ghost use Rattle.std.specs.Int.Signed.{le_z, non_neg};
ghost use Rattle.rounding.specs.Ranges.{most_gap, most_p, most_d, most_x, most_a, most_b, most_h};
ghost use Rattle.steps.specs.Steps.{approximate_l_half};
ghost use Rattle.entries.specs.Layout.{latitude, longitude, northing, easting, one_minute};
ghost use Rattle.entries.specs.Entries.{rows_of, step_of, Within};
ghost use Rattle.reading.specs.Tables.{offset_of};
ghost use Rattle.tables.specs.Figures.{InTable, b_at, b_half, p_at, p_half, d_at, d_half};
ghost use Rattle.extent.specs.Extent.{size_known, easting_known, northing_known, reduced_known};
ghost use Rattle.inverse.specs.Inverse.{reduced_northing, reduced_half, row_of, distance_of, distance_half, size_of, size_half, geographic_told, geographic_at, from_distance, from_reduced, inverse_of, for_reduction, reduced_by, reduced_by_half, seconds_by, seconds_by_half, taken_at, approximate_by, size_by, size_by_half};

use reading::At;
use refusals::Refusal;
use rounding::Rounded;
use tables::Passed;

// A point on the earth: latitude and west longitude in 0.001″, and whether some rounding on the way to them met a half.
#[derive(Clone, Copy)]
pub struct Geographic {
    pub latitude: i32,
    pub longitude: i32,
    pub half: bool,
}

// What the reduced northing is worked from, as it was read: P at y, d at the size of x'.
#[derive(Clone, Copy)]
pub struct ForReduction {
    pub p: Rounded<u64>,
    pub d: Rounded<i64>,
}

// Reading: P at y, at the step that the table has.
fn p_by(sheet: Passed, step: u64, y: u64) -> Rounded<u64>
    requires { (step ≡ step_of sheet.bytes.now northing) × Within sheet.bytes.now northing y }
    ensures { (result.value ≡ p_at sheet.entry.bytes.now y) × (result.value ≤ most_p) × (result.half ≡ p_half sheet.entry.bytes.now y) }
{
    let at = extent::position_of(sheet, entries::NORTHING, step, y);
    tables::p_at(sheet, at)
}

// Reading: d at a size of x', at the step that the table has.
fn d_by(sheet: Passed, step: u64, size: u64) -> Rounded<i64>
    requires { (step ≡ step_of sheet.bytes.now easting) × Within sheet.bytes.now easting size }
    ensures { (result.value ≡ d_at sheet.entry.bytes.now size) × (nat_abs result.value ≤ most_d) × (result.half ≡ d_half sheet.entry.bytes.now size) }
{
    let at = extent::position_of(sheet, entries::EASTING, step, size);
    tables::d_at(sheet, at)
}

// Reading: P and d of a point within their tables. The usual steps are tested for, and given as constants. Position and reading stand together behind the test, or the compiler would
// make the two ways one; and in a function for each figure, or it would not be compiled in.
pub fn for_reduction(sheet: Passed, x: u64, y: i32) -> ForReduction
    requires { Within sheet.bytes.now easting x × (northing_known sheet.bytes.now y ≡ true) }
    ensures { (result ≡ for_reduction sheet.entry.bytes.now x y) × (result.p.value ≤ most_p) × (nat_abs result.d.value ≤ most_d) }
{
    let up = (y as i64) as u64;
    let north = entries::usual_step(entries::NORTHING);
    let east = entries::usual_step(entries::EASTING);
    if (sheet.places.northing.step == north) & (sheet.places.easting.step == east) {
        return ForReduction {
            p: p_by(sheet, north, up),
            d: d_by(sheet, east, x),
        };
    }
    ForReduction {
        p: p_by(sheet, sheet.places.northing.step, up),
        d: d_by(sheet, sheet.places.easting.step, x),
    }
}

// Working: the reduced northing, in 0.01 ft.
pub fn reduced_of(f: ForReduction, x: u64, y: i32) -> Rounded<i64>
    requires { (f.p.value ≤ most_p) × (x ≤ most_x) × (nat_abs f.d.value ≤ most_d) }
    ensures { (result.value ≡ reduced_by f x y) × (nat_abs result.value < 2 ^ 62) × (result.half ≡ reduced_by_half f x) }
{
    let reduction = steps::reduction(f.p.value, x, f.d.value);
    Rounded {
        value: (y as i64) - reduction.value,
        half: f.p.half | f.d.half | reduction.half,
    }
}

// The reduced northing, in 0.01 ft, at the size x of x' and y.
pub fn reduced_northing(sheet: Passed, x: u64, y: i32) -> Rounded<i64>
    requires { Within sheet.bytes.now easting x × (northing_known sheet.bytes.now y ≡ true) }
    ensures { (result.value ≡ reduced_northing sheet.entry.bytes.now x y) × (nat_abs result.value < 2 ^ 62) × (result.half ≡ reduced_half sheet.entry.bytes.now x y) }
{
    reduced_of(for_reduction(sheet, x, y), x, y)
}

// How far high stands above low, both northings in 0.01 ft.
fn above(low: i64, high: i64) -> u64
    requires { (nat_abs low ≤ most_gap) × (nat_abs high ≤ most_gap) × (le_z low high ≡ true) }
    ensures { result ≡ nat_abs (high -ℤ low) }
{
    (high - low) as u64
}

// Working: the seconds of the reduced northing past a row, in 0.001″, from the row's y0 and the next row's.
pub fn seconds_between(y0: i64, next: i64, reduced: i64) -> Rounded<u64>
    requires { (nat_abs y0 ≤ most_gap) × (nat_abs next ≤ most_gap) × (nat_abs reduced ≤ most_gap) × (le_z y0 reduced ≡ true) × (le_z y0 next ≡ true) × (0 < nat_abs (next -ℤ y0)) × (nat_abs (reduced -ℤ y0) ≤ nat_abs (next -ℤ y0)) × (nat_abs (next -ℤ y0) ≤ most_gap) }
    ensures { (result.value ≡ seconds_by y0 next reduced) × (result.half ≡ seconds_by_half y0 next reduced) }
{
    steps::seconds(entries::ONE_MINUTE, above(y0, reduced), above(y0, next))
}

// The seconds of the reduced northing past its row. Where that row is the last, they are counted from the row before: the whole minute, and no half.
fn seconds_past(sheet: Passed, reduced: i64, row: usize) -> Rounded<u64>
    requires { (reduced_known sheet.bytes.now reduced ≡ true) × (row ≡ min (row_of sheet.bytes.now reduced) (rows_of sheet.bytes.now latitude - 2)) }
    ensures { (row * one_minute + result.value ≡ distance_of sheet.entry.bytes.now reduced) × (result.value ≤ one_minute) × (result.half ≡ distance_half sheet.entry.bytes.now reduced) }
{
    let y0 = tables::y0_of(sheet, row);
    seconds_between(y0, tables::y0_of(sheet, row + 1), reduced)
}

// What L is worked from, beside b, as it was read: H and a at the latitude's position.
#[derive(Clone, Copy)]
pub struct Taken {
    pub h: Rounded<u64>,
    pub a: Rounded<i64>,
}

// Reading: H and a.
fn taken_at(sheet: Passed, at: At) -> Taken
    requires { InTable sheet.bytes.now latitude at }
    ensures { (result ≡ taken_at sheet.entry.bytes.now (offset_of at)) × (30_000_000 ≤ result.h.value) × (result.h.value ≤ most_h) × (nat_abs result.a.value ≤ most_a) }
{
    Taken {
        h: tables::h_at(sheet, at),
        a: tables::a_at(sheet, at),
    }
}

// Reading: b at a size of L, at the step that the table has.
fn b_by(sheet: Passed, step: u64, size: u64) -> Rounded<i64>
    requires { (step ≡ step_of sheet.bytes.now longitude) × Within sheet.bytes.now longitude size }
    ensures { (result.value ≡ b_at sheet.entry.bytes.now size) × (nat_abs result.value ≤ most_b) × (result.half ≡ b_half sheet.entry.bytes.now size) }
{
    let at = extent::position_of(sheet, entries::LONGITUDE, step, size);
    tables::b_at(sheet, at)
}

// The same at the table's own step.
fn b_at(sheet: Passed, size: u64) -> Rounded<i64>
    requires { Within sheet.bytes.now longitude size }
    ensures { (result.value ≡ b_at sheet.entry.bytes.now size) × (nat_abs result.value ≤ most_b) × (result.half ≡ b_half sheet.entry.bytes.now size) }
{
    let usual = entries::usual_step(entries::LONGITUDE);
    if sheet.places.longitude.step == usual {
        return b_by(sheet, usual, size);
    }
    b_by(sheet, sheet.places.longitude.step, size)
}

// Working: approximate L, in 0.001″, at the size x of x'.
pub fn approximate_of(h: Rounded<u64>, x: u64) -> Rounded<u64>
    requires { (x ≤ most_x) × (30_000_000 ≤ h.value) × (h.value ≤ most_h) }
    ensures { (result.value ≡ approximate_by h.value x) × (result.value ≤ 30_000_000) × (result.half ≡ approximate_l_half x h.value) }
{
    let l = steps::approximate_l(x, h.value);
    Rounded {
        value: l.value * 1_000,
        half: l.half,
    }
}

// Working: the size of L, in 0.001″, with b read at approximate L. `met`: approximate L was rounded from a half.
pub fn size_of(f: Taken, b: Rounded<i64>, x: u64, met: bool) -> Rounded<i64>
    requires { (x ≤ most_x) × (nat_abs f.a.value ≤ most_a) × (nat_abs b.value ≤ most_b) × (30_000_000 ≤ f.h.value) × (f.h.value ≤ most_h) × T (non_neg (pos (x * 10_000) -ℤ f.a.value *ℤ b.value)) }
    ensures { (result.value ≡ size_by f b.value x) × (result.half ≡ size_by_half f b x met) }
{
    let l = steps::size_of_l(x, f.a.value, b.value, f.h.value);
    Rounded {
        value: l.value as i64,
        half: f.h.half | f.a.half | met | b.half | l.half,
    }
}

// The point on the earth, of x', the latitude's position and the size of L, which is within its table. Its numbers are measured from the sheet's origin, and no table
// is read. `met`, here and below: some rounding before met a half.
fn geographic_at(sheet: Passed, xp: i64, at: At, size: Rounded<i64>, met: bool) -> Geographic
    requires { InTable sheet.bytes.now latitude at × (size.value ≡ size_of sheet.bytes.now (nat_abs xp) (offset_of at)) × (size_known sheet.bytes.now size.value ≡ true) × (size.half ≡ size_half sheet.bytes.now (nat_abs xp) (offset_of at)) }
    ensures { geographic_told (Ok result) ≡ geographic_at sheet.entry.bytes.now xp (offset_of at) met }
{
    let t = (at.row as u64) * (at.step as u64) + (at.past as u64);
    Geographic {
        latitude: (sheet.origin.first_latitude + (t as i64)) as i32,
        longitude: (sheet.origin.central_meridian - rounding::with_sign(xp, size.value)) as i32,
        half: met | size.half,
    }
}

// 11, or the point on the earth, from x' and the latitude's position.
fn from_distance(sheet: Passed, xp: i64, at: At, met: bool) -> Result<Geographic, Refusal>
    requires { (easting_known sheet.bytes.now xp ≡ true) × InTable sheet.bytes.now latitude at }
    ensures { geographic_told result ≡ from_distance sheet.entry.bytes.now xp (offset_of at) met }
{
    let x = rounding::size(xp);
    let approximate = approximate_of(tables::h_at(sheet, at), x);
    if !extent::size_known(sheet, approximate.value as i64) {
        return Err(Refusal::Longitude);
    }
    let b = b_at(sheet, approximate.value); // before H and a: a word that is read before the test for b's step and used after it is put together byte by byte
    let size = size_of(taken_at(sheet, at), b, x, approximate.half);
    if !extent::size_known(sheet, size.value) {
        return Err(Refusal::Longitude);
    }
    Ok(geographic_at(sheet, xp, at, size, met))
}

// 14, 11, or the point on the earth, from x' and the reduced northing. The row that is found and the seconds past it are the latitude's position.
fn from_reduced(sheet: Passed, xp: i64, reduced: i64, met: bool) -> Result<Geographic, Refusal>
    requires { (easting_known sheet.bytes.now xp ≡ true) × (nat_abs reduced < 2 ^ 62) }
    ensures { geographic_told result ≡ from_reduced sheet.entry.bytes.now xp reduced met }
{
    if !extent::reduced_known(sheet, reduced) {
        return Err(Refusal::Reduced);
    }
    let row = tables::row_with_next(sheet, reduced);
    let seconds = seconds_past(sheet, reduced, row);
    let at = At {
        row,
        past: seconds.value as u32,
        step: entries::ONE_MINUTE as u32,
    };
    from_distance(sheet, xp, at, met | seconds.half)
}

// Plane to geographic: 12, 13, 14, 11, or latitude and longitude.
pub fn inverse(sheet: Passed, x: i32, y: i32) -> Result<Geographic, Refusal>
    ensures { geographic_told result ≡ inverse_of sheet.entry.bytes.now x y }
{
    let xp = extent::x_prime(sheet, x);
    if !extent::easting_known(sheet, xp) {
        return Err(Refusal::Easting);
    }
    if !extent::northing_known(sheet, y) {
        return Err(Refusal::Northing);
    }
    let reduced = reduced_northing(sheet, rounding::size(xp), y);
    from_reduced(sheet, xp, reduced.value, reduced.half)
}
