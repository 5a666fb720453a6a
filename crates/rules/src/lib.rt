// The rules of a sheet's figures, as functions of the figures. Check and correction call the same ranges and bounds; the check tests the printed differences, a correction works them.
#![tactic(auto)]

ghost use Rattle.std.specs.Prelude.{◌≡◌, true, ◌%◌, ◌≤◌, nat_abs, ◌-ℤ◌};
ghost use Rattle.rounding.specs.Ranges.{most_scale, most_change};
ghost use Rattle.steps.specs.Steps.{per_second};
ghost use Rattle.refusals.specs.Tests.{same_as};
ghost use Rattle.rules.specs.Limits.{rises};
ghost use Rattle.rules.specs.Latitude.{figures_in_range, within_bounds, differences_of, no_differences, same_differences};

// The figures of a latitude row that a correction gives: y0 (0.01 ft), H (0.000001), V (0.000001), a (0.001).
#[derive(Clone, Copy, PartialEq, Eq)]
pub struct Figures {
    pub y0: i32,
    pub h: i32,
    pub v: i32,
    pub a: i32,
}

// The differences of a latitude row: Δy (0.00001), ΔH (10⁻⁸), ΔV (10⁻⁸).
#[derive(Clone, Copy, PartialEq, Eq)]
pub struct Differences {
    pub y: i32,
    pub h: i32,
    pub v: i32,
}

// The least and the greatest rise of y0 from a latitude row to the next, in 0.01 ft.
pub const LEAST_RISE: i32 = 600_000;

pub const MOST_RISE: i32 = 615_000;

// The rise from a row's figure x to the next row's. Both are raised first: sign-extended, a figure just read from the sheet would be put together byte by byte.
fn rise(x: i32, next: i32) -> i64
    ensures { result ≡ next -ℤ x }
{
    (words::raised(next) as i64) - (words::raised(x) as i64)
}

// Whether a row's figure x rises to the next row's by least to most.
pub fn rises(x: i32, next: i32, least: i32, most: i32) -> bool
    ensures { result ≡ rises x next least most }
{
    let up = rise(x, next);
    ((least as i64) <= up) & (up <= (most as i64))
}

// Whether a latitude row's figures are in their ranges.
pub fn figures_in_range(f: Figures) -> bool
    ensures { result ≡ figures_in_range f }
{
    refusals::in_range(0, f.y0, 999_999_999)
        & refusals::in_range(30_000_000, f.h, 102_000_000)
        & refusals::in_range(0, f.v, 1_400_000)
        & refusals::in_range(-2_000, f.a, 2_000)
}

// Whether a latitude row's figures are within their bounds with the next row's.
pub fn within_bounds(f: Figures, next: Figures) -> bool
    ensures { result ≡ within_bounds f next }
{
    rises(f.y0, next.y0, LEAST_RISE, MOST_RISE)
        & rises(next.h, f.h, 1, 50_000)
        & rises(f.v, next.v, -1_000, 1_000)
        & rises(f.a, next.a, -10, 10)
}

// The difference from x to next, over 60 seconds, scaled to its column's unit.
fn over_minute(scale: u64, x: i32, next: i32) -> i32
    requires { (scale ≤ most_scale) × (nat_abs (next -ℤ x) ≤ most_change) }
    ensures { result ≡ per_second scale (next -ℤ x) }
{
    steps::per_second(scale, rise(x, next)) as i32
}

// The differences of a row from its figures and the next row's, which are within their bounds.
pub fn differences_of(f: Figures, next: Figures) -> Differences
    requires { within_bounds f next ≡ true }
    ensures { result ≡ differences_of f next }
{
    Differences {
        y: over_minute(1_000, f.y0, next.y0),
        h: over_minute(100, next.h, f.h),
        v: over_minute(100, f.v, next.v),
    }
}

// Whether d is the difference from x to next over 60 seconds, scaled to its column's unit. Nothing is divided: 60·d lies within half of 60 of the scaled rise. No half can occur, so d is
// then the nearest.
fn is_over_minute(scale: u64, d: i32, x: i32, next: i32) -> bool
    requires { (scale ≤ most_scale) × (scale % 20 ≡ 0) }
    ensures { result ≡ same_as d (per_second scale (next -ℤ x)) }
{
    let off = (d as i64) * 60 - (scale as i64) * rise(x, next);
    (-30 <= off) & (off <= 30)
}

// Whether d are the differences of a row, from its figures and the next row's.
pub fn are_differences(d: Differences, f: Figures, next: Figures) -> bool
    ensures { result ≡ same_differences d (differences_of f next) }
{
    is_over_minute(1_000, d.y, f.y0, next.y0)
        & is_over_minute(100, d.h, next.h, f.h)
        & is_over_minute(100, d.v, f.v, next.v)
}

// The differences of the last row.
pub fn no_differences() -> Differences
    ensures { result ≡ no_differences }
{
    Differences { y: 0, h: 0, v: 0 }
}
