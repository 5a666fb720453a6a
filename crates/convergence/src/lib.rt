// Convergence and scale at a plane point, on a sheet known to pass: 12, 13, or Δα and k.
#![tactic(auto)]

ghost use Rattle.std.specs.Prelude.{◌≡◌, true, ◌≤◌, nat_abs};
ghost use Rattle.rounding.specs.Ranges.{most_m, most_word};
ghost use Rattle.entries.specs.Layout.{northing, scale};
ghost use Rattle.entries.specs.Entries.{step_of};
ghost use Rattle.sheet_check.specs.Check.{KnownToPass};
ghost use Rattle.extent.specs.Extent.{scale_known, northing_known};
ghost use Rattle.convergence.specs.Grid.{grid_told, grid_of, taken_at, worked_of};

use refusals::Refusal;
use rounding::Rounded;
use tables::Passed;

// The grid at a point: the convergence Δα in 0.1″, the scale k in 10⁻⁷, and whether some rounding on the way to them met a half.
#[derive(Clone, Copy)]
pub struct Grid {
    pub convergence: i32,
    pub scale: i32,
    pub half: bool,
}

// The figures that the grid at a point is worked from, as they were read: M at y, k at the size of x'.
#[derive(Clone, Copy)]
pub struct Taken {
    pub m: Rounded<u64>,
    pub k: Rounded<i64>,
}

// Reading: the figures of a point within the tables, at the steps that the two tables have.
fn taken_by(sheet: Passed, xp: i64, y: i32, north: u64, east: u64) -> Taken
    requires { (scale_known sheet.bytes.now xp ≡ true) × (northing_known sheet.bytes.now y ≡ true) × (north ≡ step_of sheet.bytes.now northing) × (east ≡ step_of sheet.bytes.now scale) }
    ensures { (result ≡ taken_at sheet.entry.bytes.now xp y) × (result.m.value ≤ most_m) × (nat_abs result.k.value ≤ 10_010_000) }
{
    let at = extent::position_of(sheet, entries::NORTHING, north, (y as i64) as u64);
    let m = tables::m_at(sheet, at);
    let size = rounding::size(xp);
    let beside = extent::position_of(sheet, entries::SCALE, east, size);
    Taken {
        m,
        k: tables::k_at(sheet, beside),
    }
}

// The same at the tables' own steps. The usual ones are tested for, and given as constants.
fn taken_at(sheet: Passed, xp: i64, y: i32) -> Taken
    requires { (scale_known sheet.bytes.now xp ≡ true) × (northing_known sheet.bytes.now y ≡ true) }
    ensures { (result ≡ taken_at sheet.entry.bytes.now xp y) × (result.m.value ≤ most_m) × (nat_abs result.k.value ≤ 10_010_000) }
{
    let north = entries::usual_step(entries::NORTHING);
    let east = entries::usual_step(entries::SCALE);
    if (sheet.places.northing.step == north) & (sheet.places.scale.step == east) {
        return taken_by(sheet, xp, y, north, east);
    }
    taken_by(
        sheet,
        xp,
        y,
        sheet.places.northing.step,
        sheet.places.scale.step,
    )
}

// Working: the grid at a point, from its figures and x'.
pub fn worked(f: Taken, xp: i64) -> Grid
    requires { (f.m.value ≤ most_m) × (nat_abs f.k.value ≤ 10_010_000) × (nat_abs xp ≤ most_word) }
    ensures { grid_told (Ok result) ≡ worked_of f xp }
{
    let convergence = steps::convergence(f.m.value, xp);
    Grid {
        convergence: convergence.value as i32,
        scale: f.k.value as i32,
        half: f.m.half | f.k.half | convergence.half,
    }
}

// Convergence and scale: 12, 13, or Δα and k.
pub fn convergence(sheet: Passed, x: i32, y: i32) -> Result<Grid, Refusal>
    ensures { grid_told result ≡ grid_of sheet.entry.bytes.now x y }
{
    let xp = extent::x_prime(sheet, x);
    if !extent::scale_known(sheet, xp) {
        return Err(Refusal::Easting);
    }
    if !extent::northing_known(sheet, y) {
        return Err(Refusal::Northing);
    }
    Ok(worked(taken_at(sheet, xp, y), xp))
}
