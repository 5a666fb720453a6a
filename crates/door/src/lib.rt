// The tools' door: drawing tools hand over a point as two f64 counts, and get two f64 counts, with whether some rounding met a half, or a refusal number. Where a float is no count the answer is 15, whatever the
// sheet: it is not looked at. All else is what the conversions of `convert` answer. A count of 0.01 ft is given in feet besides.
#![tactic(auto)]

ghost use Rattle.std.specs.Prelude.{◌≡◌, Ok};
ghost use Rattle.forward.specs.Forward.{plane_told};
ghost use Rattle.inverse.specs.Inverse.{geographic_told};
ghost use Rattle.convergence.specs.Grid.{grid_told};
ghost use Rattle.door.specs.Door.{counts_of, door_told, answer_of, plane_answer, geographic_answer, grid_answer, to_plane, to_geographic, to_grid, feet_of};

use convergence::Grid;
use forward::Plane;
use inverse::Geographic;
use refusals::Refusal;

// The tools' point: latitude and west longitude in 0.001″, or x and y in 0.01 ft, in this order.
#[derive(Clone, Copy)]
pub struct Point {
    pub first: f64,
    pub second: f64,
}

// What the tools get: two counts, in the order and the units that the function names, and whether some rounding on the way to them met a half. A count of zero is +0.
#[derive(Clone, Copy)]
pub struct TwoCounts {
    pub first: f64,
    pub second: f64,
    pub half: bool,
}

// Both of the point's floats as counts; none where one of the two is no count.
fn counts_of(p: Point) -> Option<(i32, i32)>
    ensures { result ≡ counts_of p }
{
    let a = counts::whole_of(p.first)?;
    let b = counts::whole_of(p.second)?;
    Some((a, b))
}

// Two counts as the tools get them.
#[tactic(auto, using(crate::proofs::Ways::counts_told))]
fn two_counts(a: i32, b: i32, half: bool) -> TwoCounts
    ensures { door_told (Ok result) ≡ answer_of 0 a b half }
{
    TwoCounts {
        first: a as f64,
        second: b as f64,
        half,
    }
}

// ---- each conversion's answer as the tools get it: two counts, or the refusal

#[tactic(auto, using(crate::proofs::Ways::refused_told, crate::proofs::Ways::counts_told))]
fn plane_counts(plane: Result<Plane, Refusal>) -> Result<TwoCounts, Refusal>
    ensures { door_told result ≡ plane_answer (plane_told plane) }
{
    let r = plane?;
    Ok(two_counts(r.x, r.y, r.half))
}

#[tactic(auto, using(crate::proofs::Ways::refused_told, crate::proofs::Ways::counts_told))]
fn geographic_counts(geographic: Result<Geographic, Refusal>) -> Result<TwoCounts, Refusal>
    ensures { door_told result ≡ geographic_answer (geographic_told geographic) }
{
    let r = geographic?;
    Ok(two_counts(r.latitude, r.longitude, r.half))
}

#[tactic(auto, using(crate::proofs::Ways::refused_told, crate::proofs::Ways::counts_told))]
fn grid_counts(grid: Result<Grid, Refusal>) -> Result<TwoCounts, Refusal>
    ensures { door_told result ≡ grid_answer (grid_told grid) }
{
    let r = grid?;
    Ok(two_counts(r.convergence, r.scale, r.half))
}

// ---- the conversions

// Geographic to plane: of latitude and west longitude in 0.001″, x and y in 0.01 ft.
// Refusals in order: 15, before the sheet is looked at; the check's number, 1 to 9; 10; 11.
pub fn geographic_to_plane(sheet: &[u8], p: Point) -> Result<TwoCounts, Refusal>
    ensures { door_told result ≡ to_plane sheet.now p }
{
    let Some((latitude, longitude)) = counts_of(p) else {
        return Err(Refusal::Float);
    };
    plane_counts(convert::geographic_to_plane(sheet, latitude, longitude))
}

// Plane to geographic: of x and y in 0.01 ft, latitude and west longitude in 0.001″.
// Refusals in order: 15, before the sheet is looked at; the check's number, 1 to 9; 12; 13; 14; 11.
pub fn plane_to_geographic(sheet: &[u8], p: Point) -> Result<TwoCounts, Refusal>
    ensures { door_told result ≡ to_geographic sheet.now p }
{
    let Some((x, y)) = counts_of(p) else {
        return Err(Refusal::Float);
    };
    geographic_counts(convert::plane_to_geographic(sheet, x, y))
}

// Convergence and scale: of x and y in 0.01 ft, Δα in 0.1″ and k in 10⁻⁷.
// Refusals in order: 15, before the sheet is looked at; the check's number, 1 to 9; 12; 13.
pub fn convergence_and_scale(sheet: &[u8], p: Point) -> Result<TwoCounts, Refusal>
    ensures { door_told result ≡ to_grid sheet.now p }
{
    let Some((x, y)) = counts_of(p) else {
        return Err(Refusal::Float);
    };
    grid_counts(convert::convergence_and_scale(sheet, x, y))
}

// A count of 0.01 ft in feet, for any count: one f64 division by 100, rounded once. An f64 holds each count as it is.
pub fn feet(count: i32) -> f64
    ensures { result ≡ feet_of count }
{
    count as f64 / 100.0
}
