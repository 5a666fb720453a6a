// The Survey's conversions on any bytes: geographic to plane, plane to geographic, convergence and scale. The bytes are checked first.
#![tactic(auto)]

ghost use Rattle.std.specs.Prelude.{◌≡◌, MatchResult};
ghost use Rattle.refusals.specs.Numbers.{number_of};
ghost use Rattle.sheet_check.specs.Check.{check_of};
ghost use Rattle.forward.specs.Forward.{plane_told};
ghost use Rattle.inverse.specs.Inverse.{geographic_told};
ghost use Rattle.convergence.specs.Grid.{grid_told};
ghost use Rattle.convert.specs.Conversions.{geographic_to_plane, plane_to_geographic, convergence_and_scale};

use convergence::Grid;
use forward::Plane;
use inverse::Geographic;
use refusals::Refusal;
use tables::Passed;

// The sheet where it passes the check; else the check's refusal.
fn passing<'a>(sheet: &'a [u8]) -> Result<Passed<'a>, Refusal>
    ensures { MatchResult result (λ p. p.bytes.now ≡ sheet.now) (λ e. number_of e ≡ (check_of sheet.now).number) }
{
    Ok(tables::pass(sheet)?)
}

// Geographic to plane: the check's number, 10, 11, or x and y.
pub fn geographic_to_plane(sheet: &[u8], latitude: i32, longitude: i32) -> Result<Plane, Refusal>
    ensures { plane_told result ≡ geographic_to_plane sheet.now latitude longitude }
{
    forward::forward(passing(sheet)?, latitude, longitude)
}

// Plane to geographic: the check's number, 12, 13, 14, 11, or latitude and longitude.
pub fn plane_to_geographic(sheet: &[u8], x: i32, y: i32) -> Result<Geographic, Refusal>
    ensures { geographic_told result ≡ plane_to_geographic sheet.now x y }
{
    inverse::inverse(passing(sheet)?, x, y)
}

// Convergence and scale: the check's number, 12, 13, or Δα and k.
pub fn convergence_and_scale(sheet: &[u8], x: i32, y: i32) -> Result<Grid, Refusal>
    ensures { grid_told result ≡ convergence_and_scale sheet.now x y }
{
    convergence::convergence(passing(sheet)?, x, y)
}
