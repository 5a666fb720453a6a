// Geographic to plane, on a sheet known to pass: 10, 11, or x and y.
#![tactic(auto)]

ghost use Rattle.std.specs.Prelude.{◌≡◌, true, ◌≤◌, nat_abs};
ghost use Rattle.rounding.specs.Ranges.{most_v, most_c, most_s};
ghost use Rattle.entries.specs.Layout.{latitude, longitude};
ghost use Rattle.entries.specs.Entries.{step_of, Within};
ghost use Rattle.reading.specs.Tables.{offset_of};
ghost use Rattle.tables.specs.Figures.{InTable};
ghost use Rattle.extent.specs.Extent.{latitude_known, longitude_known};
ghost use Rattle.forward.specs.Forward.{plane_told, plane_at, forward_of, longitude_at, taken_at, worked_x, worked_x_half, worked_y, worked_y_half, worked_of, Workable};

use reading::At;
use refusals::Refusal;
use rounding::Rounded;
use tables::Passed;

// A point on the plane: x and y in 0.01 ft, and whether some rounding on the way to them met a half.
#[derive(Clone, Copy)]
pub struct Plane {
    pub x: i32,
    pub y: i32,
    pub half: bool,
}

// The figures that a point is worked from, as they were read: y0, H, V and a at its latitude, b and c at the size of L.
#[derive(Clone, Copy)]
pub struct Taken {
    pub y0: Rounded<i64>,
    pub h: Rounded<u64>,
    pub v: Rounded<u64>,
    pub a: Rounded<i64>,
    pub b: Rounded<i64>,
    pub c: Rounded<i64>,
}

// b and c at one size of L.
#[derive(Clone, Copy)]
pub struct Longitude {
    pub b: Rounded<i64>,
    pub c: Rounded<i64>,
}

// Reading: b and c, at a size of L and at the step that the table has.
fn longitude_by(sheet: Passed, step: u64, size: u64) -> Longitude
    requires { (step ≡ step_of sheet.bytes.now longitude) × Within sheet.bytes.now longitude size }
    ensures { result ≡ longitude_at sheet.entry.bytes.now size }
{
    let at = extent::position_of(sheet, entries::LONGITUDE, step, size);
    Longitude {
        c: tables::c_at(sheet, at),
        b: tables::b_at(sheet, at),
    }
}

// The same, whatever the table's step is. If it is the usual one, it is handed on as a constant; position and readings stand together behind the test, or the compiler would make the
// two ways one.
fn longitude_at(sheet: Passed, size: u64) -> Longitude
    requires { Within sheet.bytes.now longitude size }
    ensures { result ≡ longitude_at sheet.entry.bytes.now size }
{
    let usual = entries::usual_step(entries::LONGITUDE);
    if sheet.places.longitude.step == usual {
        return longitude_by(sheet, usual, size);
    }
    longitude_by(sheet, sheet.places.longitude.step, size)
}

// Reading: the figures at the latitude's position and at the size of L.
fn taken_at(sheet: Passed, north: At, size: u64) -> Taken
    requires { InTable sheet.bytes.now latitude north × Within sheet.bytes.now longitude size }
    ensures { result ≡ taken_at sheet.entry.bytes.now (offset_of north) size }
{
    let read = longitude_at(sheet, size);
    let b = read.b;
    let c = read.c;
    Taken {
        b,
        c,
        h: tables::h_at(sheet, north),
        a: tables::a_at(sheet, north),
        v: tables::v_at(sheet, north),
        y0: tables::y0_at(sheet, north),
    }
}

// Working: x, in 0.01 ft.
fn x_of(f: Taken, easting: i64, l: i64) -> Rounded<i64>
    requires { Workable f easting l }
    ensures { (result.value ≡ worked_x f easting l) × (nat_abs result.value ≤ 161_204_000) × (result.half ≡ worked_x_half f (nat_abs l)) }
{
    let x = steps::size_of_x(f.h.value, rounding::size(l), f.a.value, f.b.value);
    Rounded {
        value: rounding::with_sign(l, x.value as i64) + easting,
        half: f.h.half | f.a.half | f.b.half | x.half,
    }
}

// Working: y, in 0.01 ft, at the size of L.
fn y_of(f: Taken, size: u64) -> Rounded<i64>
    requires { (f.v.value ≤ most_v) × (nat_abs f.c.value ≤ most_c) × (nat_abs f.y0.value ≤ 999_999_999) × (size ≤ most_s) }
    ensures { (result.value ≡ worked_y f size) × (nat_abs result.value ≤ 1_000_504_199) × (result.half ≡ worked_y_half f size) }
{
    let q = steps::q_of(size);
    let rise = steps::rise(f.v.value, q.value, f.c.value);
    Rounded {
        value: f.y0.value + rise.value,
        half: f.y0.half | f.v.half | f.c.half | q.half | rise.half,
    }
}

// The point on the plane, worked from its figures, the false easting and L.
pub fn worked(f: Taken, easting: i64, l: i64) -> Plane
    requires { Workable f easting l }
    ensures { plane_told (Ok result) ≡ worked_of f easting l }
{
    let x = x_of(f, easting, l);
    let y = y_of(f, rounding::size(l));
    Plane {
        x: x.value as i32,
        y: y.value as i32,
        half: x.half | y.half,
    }
}

// The point on the plane, of a latitude and a longitude within the tables. Each position is worked once.
fn plane_at(sheet: Passed, latitude: i32, longitude: i32) -> Plane
    requires { (latitude_known sheet.bytes.now latitude ≡ true) × (longitude_known sheet.bytes.now longitude ≡ true) }
    ensures { plane_told (Ok result) ≡ plane_at sheet.entry.bytes.now latitude longitude }
{
    let t = extent::from_first(sheet, latitude) as u64;
    let l = extent::l_of(sheet, longitude);
    let north = extent::position_of(sheet, entries::LATITUDE, entries::ONE_MINUTE, t);
    let taken = taken_at(sheet, north, rounding::size(l));
    worked(taken, sheet.origin.false_easting, l)
}

// Geographic to plane: 10, 11, or x and y.
pub fn forward(sheet: Passed, latitude: i32, longitude: i32) -> Result<Plane, Refusal>
    ensures { plane_told result ≡ forward_of sheet.entry.bytes.now latitude longitude }
{
    if !extent::latitude_known(sheet, latitude) {
        return Err(Refusal::Latitude);
    }
    if !extent::longitude_known(sheet, longitude) {
        return Err(Refusal::Longitude);
    }
    Ok(plane_at(sheet, latitude, longitude))
}
