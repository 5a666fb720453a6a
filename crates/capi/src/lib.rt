// The library for C: twelve public operations, each under a plain name, its answer in a struct that is laid out as C lays it out. `capi_c` exports them, and include/bannerscale.h declares them. A slice
// is a pointer and a length there; a null pointer with length 0 is an empty one.
#![tactic(auto)]

ghost use Rattle.std.specs.Prelude.{◌≡◌};
ghost use Rattle.contents.specs.Contents.{verdict_told};
ghost use Rattle.sheet_check.specs.Check.{check_of};
ghost use Rattle.forward.specs.Forward.{plane_told};
ghost use Rattle.inverse.specs.Inverse.{geographic_told};
ghost use Rattle.convergence.specs.Grid.{grid_told};
ghost use Rattle.convert.specs.Conversions.{geographic_to_plane, plane_to_geographic, convergence_and_scale};
ghost use Rattle.correct.specs.Correction.{correction_of, corrected_of, figures};
ghost use Rattle.touched.specs.Touched.{touch_told, geographic_touched, plane_touched};
ghost use Rattle.batch.specs.Batch.{batch_told, batch_of, answers_of};
ghost use Rattle.door.specs.Door.{door_told, to_plane, to_geographic, to_grid, feet_of};
ghost use Rattle.capi.specs.Answers.{check_answer, plane_answer, geographic_answer, grid_answer, touch_answer, batch_answer, door_point, door_answer};

use contents::Refused;
use convergence::Grid;
use door::{Point, TwoCounts};
use forward::Plane;
use inverse::Geographic;
use refusals::Refusal;

// ---- what the functions answer

#[repr(C)]
#[derive(Clone, Copy)]
pub struct CheckAnswer {
    pub number: u32,
    pub kind: usize,
    pub row: usize,
}

// x and y in 0.01 ft. half, here and below: some rounding on the way to the values met a half; not in a refusal.
#[repr(C)]
#[derive(Clone, Copy)]
pub struct PlaneAnswer {
    pub number: u32,
    pub x: i32,
    pub y: i32,
    pub half: bool,
}

// Latitude and west longitude in 0.001″.
#[repr(C)]
#[derive(Clone, Copy)]
pub struct GeographicAnswer {
    pub number: u32,
    pub latitude: i32,
    pub longitude: i32,
    pub half: bool,
}

// Convergence in 0.1″, scale in 10⁻⁷.
#[repr(C)]
#[derive(Clone, Copy)]
pub struct GridAnswer {
    pub number: u32,
    pub convergence: i32,
    pub scale: i32,
    pub half: bool,
}

#[repr(C)]
#[derive(Clone, Copy)]
pub struct TouchAnswer {
    pub number: u32,
    pub touched: bool,
}

#[repr(C)]
#[derive(Clone, Copy)]
pub struct BatchAnswer {
    pub number: u32,
    pub count: u32,
}

// The tools' point, two counts.
#[repr(C)]
#[derive(Clone, Copy)]
pub struct DoorPoint {
    pub first: f64,
    pub second: f64,
}

// The tools' answer: number 0 and two counts, or a refusal number and zeros. C has no enum that carries values.
#[repr(C)]
#[derive(Clone, Copy)]
pub struct DoorAnswer {
    pub number: u32,
    pub first: f64,
    pub second: f64,
    pub half: bool,
}

// ---- an operation's answer as C gets it: its number, and its values, zeros in a refusal

impl From<Result<(), Refused>> for CheckAnswer {
    ghost from_gives = { λ r answer. answer ≡ check_answer (verdict_told r) };

    fn from(r: Result<(), Refused>) -> CheckAnswer {
        match r {
            Ok(()) => CheckAnswer {
                number: 0,
                kind: 0,
                row: 0,
            },
            Err(e) => CheckAnswer {
                number: e.refusal.number(),
                kind: e.kind,
                row: e.row,
            },
        }
    }
}

impl From<Result<Plane, Refusal>> for PlaneAnswer {
    ghost from_gives = { λ r answer. answer ≡ plane_answer (plane_told r) };

    fn from(r: Result<Plane, Refusal>) -> PlaneAnswer {
        match r {
            Ok(p) => PlaneAnswer {
                number: 0,
                x: p.x,
                y: p.y,
                half: p.half,
            },
            Err(e) => PlaneAnswer {
                number: e.number(),
                x: 0,
                y: 0,
                half: false,
            },
        }
    }
}

impl From<Result<Geographic, Refusal>> for GeographicAnswer {
    ghost from_gives = { λ r answer. answer ≡ geographic_answer (geographic_told r) };

    fn from(r: Result<Geographic, Refusal>) -> GeographicAnswer {
        match r {
            Ok(g) => GeographicAnswer {
                number: 0,
                latitude: g.latitude,
                longitude: g.longitude,
                half: g.half,
            },
            Err(e) => GeographicAnswer {
                number: e.number(),
                latitude: 0,
                longitude: 0,
                half: false,
            },
        }
    }
}

impl From<Result<Grid, Refusal>> for GridAnswer {
    ghost from_gives = { λ r answer. answer ≡ grid_answer (grid_told r) };

    fn from(r: Result<Grid, Refusal>) -> GridAnswer {
        match r {
            Ok(g) => GridAnswer {
                number: 0,
                convergence: g.convergence,
                scale: g.scale,
                half: g.half,
            },
            Err(e) => GridAnswer {
                number: e.number(),
                convergence: 0,
                scale: 0,
                half: false,
            },
        }
    }
}

impl From<Result<bool, Refusal>> for TouchAnswer {
    ghost from_gives = { λ r answer. answer ≡ touch_answer (touch_told r) };

    fn from(r: Result<bool, Refusal>) -> TouchAnswer {
        match r {
            Ok(touched) => TouchAnswer { number: 0, touched },
            Err(e) => TouchAnswer {
                number: e.number(),
                touched: false,
            },
        }
    }
}

impl From<Result<u32, Refusal>> for BatchAnswer {
    ghost from_gives = { λ r answer. answer ≡ batch_answer (batch_told r) };

    fn from(r: Result<u32, Refusal>) -> BatchAnswer {
        match r {
            Ok(count) => BatchAnswer { number: 0, count },
            Err(e) => BatchAnswer {
                number: e.number(),
                count: 0,
            },
        }
    }
}

impl From<Result<TwoCounts, Refusal>> for DoorAnswer {
    ghost from_gives = { λ r answer. answer ≡ door_answer (door_told r) };

    fn from(r: Result<TwoCounts, Refusal>) -> DoorAnswer {
        match r {
            Ok(c) => DoorAnswer {
                number: 0,
                first: c.first,
                second: c.second,
                half: c.half,
            },
            Err(e) => DoorAnswer {
                number: e.number(),
                first: 0.0,
                second: 0.0,
                half: false,
            },
        }
    }
}

// The tools' point as the door takes it.
impl From<DoorPoint> for Point {
    ghost from_gives = { λ p point. point ≡ door_point p };

    fn from(p: DoorPoint) -> Point {
        Point {
            first: p.first,
            second: p.second,
        }
    }
}

// ---- the check and the conversions

pub fn bannerscale_check(sheet: &[u8]) -> CheckAnswer
    ensures { result ≡ check_answer (check_of sheet.now) }
{
    sheet_check::check(sheet).into()
}

pub fn bannerscale_geographic_to_plane(sheet: &[u8], latitude: i32, longitude: i32) -> PlaneAnswer
    ensures { result ≡ plane_answer (geographic_to_plane sheet.now latitude longitude) }
{
    convert::geographic_to_plane(sheet, latitude, longitude).into()
}

pub fn bannerscale_plane_to_geographic(sheet: &[u8], x: i32, y: i32) -> GeographicAnswer
    ensures { result ≡ geographic_answer (plane_to_geographic sheet.now x y) }
{
    convert::plane_to_geographic(sheet, x, y).into()
}

pub fn bannerscale_convergence_and_scale(sheet: &[u8], x: i32, y: i32) -> GridAnswer
    ensures { result ≡ grid_answer (convergence_and_scale sheet.now x y) }
{
    convert::convergence_and_scale(sheet, x, y).into()
}

// ---- corrections

pub fn bannerscale_correct(sheet: &mut [u8], minute: i32, y0: i32, h: i32, v: i32, a: i32) -> u32
    ensures answer { result ≡ correction_of sheet.old minute (figures y0 h v a) }
    ensures memory { sheet.new ≡ corrected_of sheet.old minute (figures y0 h v a) }
{
    match correct::correct(sheet, minute, y0, h, v, a) {
        Ok(()) => 0,
        Err(e) => e.number(),
    }
}

pub fn bannerscale_geographic_touched(
    sheet: &[u8],
    minute: i32,
    latitude: i32,
    longitude: i32,
) -> TouchAnswer
    ensures { result ≡ touch_answer (geographic_touched sheet.now minute latitude longitude) }
{
    touched::geographic_touched(sheet, minute, latitude, longitude).into()
}

pub fn bannerscale_plane_touched(sheet: &[u8], minute: i32, x: i32, y: i32) -> TouchAnswer
    ensures { result ≡ touch_answer (plane_touched sheet.now minute x y) }
{
    touched::plane_touched(sheet, minute, x, y).into()
}

// ---- many points

pub fn bannerscale_batch(sheet: &[u8], points: &[i32], answers: &mut [i32]) -> BatchAnswer
    ensures answer { result ≡ batch_answer (batch_of sheet.now points.now answers.old) }
    ensures memory { answers.new ≡ answers_of sheet.now points.now answers.old }
{
    batch::batch(sheet, points, answers).into()
}

// ---- the tools' door

pub fn bannerscale_door_geographic_to_plane(sheet: &[u8], point: DoorPoint) -> DoorAnswer
    ensures { result ≡ door_answer (to_plane sheet.now (door_point point)) }
{
    door::geographic_to_plane(sheet, point.into()).into()
}

pub fn bannerscale_door_plane_to_geographic(sheet: &[u8], point: DoorPoint) -> DoorAnswer
    ensures { result ≡ door_answer (to_geographic sheet.now (door_point point)) }
{
    door::plane_to_geographic(sheet, point.into()).into()
}

pub fn bannerscale_door_convergence_and_scale(sheet: &[u8], point: DoorPoint) -> DoorAnswer
    ensures { result ≡ door_answer (to_grid sheet.now (door_point point)) }
{
    door::convergence_and_scale(sheet, point.into()).into()
}

pub fn bannerscale_feet(count: i32) -> f64
    ensures { result ≡ feet_of count }
{
    door::feet(count)
}
