// The library for C, built as a static library: each of the twelve operations of `capi` under its plain name. include/bannerscale.h declares them. A slice is a pointer and a length there; a null
// pointer with length 0 is an empty one.
#![tactic(auto)]

ghost use Rattle.std.specs.Prelude.{◌≡◌};
ghost use Rattle.sheet_check.specs.Check.{check_of};
ghost use Rattle.convert.specs.Conversions.{geographic_to_plane, plane_to_geographic, convergence_and_scale};
ghost use Rattle.correct.specs.Correction.{correction_of, corrected_of, figures};
ghost use Rattle.touched.specs.Touched.{geographic_touched, plane_touched};
ghost use Rattle.batch.specs.Batch.{batch_of, answers_of};
ghost use Rattle.door.specs.Door.{to_plane, to_geographic, to_grid, feet_of};
ghost use Rattle.capi.specs.Answers.{check_answer, plane_answer, geographic_answer, grid_answer, touch_answer, batch_answer, door_point, door_answer};

use capi::{
    BatchAnswer, CheckAnswer, DoorAnswer, DoorPoint, GeographicAnswer, GridAnswer, PlaneAnswer,
    TouchAnswer,
};

#[unsafe(no_mangle)]
pub extern "C" fn bannerscale_check(sheet: &[u8]) -> CheckAnswer
    ensures { result ≡ check_answer (check_of sheet.now) }
{
    capi::bannerscale_check(sheet)
}

#[unsafe(no_mangle)]
pub extern "C" fn bannerscale_geographic_to_plane(
    sheet: &[u8],
    latitude: i32,
    longitude: i32,
) -> PlaneAnswer
    ensures { result ≡ plane_answer (geographic_to_plane sheet.now latitude longitude) }
{
    capi::bannerscale_geographic_to_plane(sheet, latitude, longitude)
}

#[unsafe(no_mangle)]
pub extern "C" fn bannerscale_plane_to_geographic(sheet: &[u8], x: i32, y: i32) -> GeographicAnswer
    ensures { result ≡ geographic_answer (plane_to_geographic sheet.now x y) }
{
    capi::bannerscale_plane_to_geographic(sheet, x, y)
}

#[unsafe(no_mangle)]
pub extern "C" fn bannerscale_convergence_and_scale(sheet: &[u8], x: i32, y: i32) -> GridAnswer
    ensures { result ≡ grid_answer (convergence_and_scale sheet.now x y) }
{
    capi::bannerscale_convergence_and_scale(sheet, x, y)
}

#[unsafe(no_mangle)]
pub extern "C" fn bannerscale_correct(
    sheet: &mut [u8],
    minute: i32,
    y0: i32,
    h: i32,
    v: i32,
    a: i32,
) -> u32
    ensures answer { result ≡ correction_of sheet.old minute (figures y0 h v a) }
    ensures memory { sheet.new ≡ corrected_of sheet.old minute (figures y0 h v a) }
{
    capi::bannerscale_correct(sheet, minute, y0, h, v, a)
}

#[unsafe(no_mangle)]
pub extern "C" fn bannerscale_geographic_touched(
    sheet: &[u8],
    minute: i32,
    latitude: i32,
    longitude: i32,
) -> TouchAnswer
    ensures { result ≡ touch_answer (geographic_touched sheet.now minute latitude longitude) }
{
    capi::bannerscale_geographic_touched(sheet, minute, latitude, longitude)
}

#[unsafe(no_mangle)]
pub extern "C" fn bannerscale_plane_touched(
    sheet: &[u8],
    minute: i32,
    x: i32,
    y: i32,
) -> TouchAnswer
    ensures { result ≡ touch_answer (plane_touched sheet.now minute x y) }
{
    capi::bannerscale_plane_touched(sheet, minute, x, y)
}

#[unsafe(no_mangle)]
pub extern "C" fn bannerscale_batch(
    sheet: &[u8],
    points: &[i32],
    answers: &mut [i32],
) -> BatchAnswer
    ensures answer { result ≡ batch_answer (batch_of sheet.now points.now answers.old) }
    ensures memory { answers.new ≡ answers_of sheet.now points.now answers.old }
{
    capi::bannerscale_batch(sheet, points, answers)
}

#[unsafe(no_mangle)]
pub extern "C" fn bannerscale_door_geographic_to_plane(sheet: &[u8], point: DoorPoint) -> DoorAnswer
    ensures { result ≡ door_answer (to_plane sheet.now (door_point point)) }
{
    capi::bannerscale_door_geographic_to_plane(sheet, point)
}

#[unsafe(no_mangle)]
pub extern "C" fn bannerscale_door_plane_to_geographic(sheet: &[u8], point: DoorPoint) -> DoorAnswer
    ensures { result ≡ door_answer (to_geographic sheet.now (door_point point)) }
{
    capi::bannerscale_door_plane_to_geographic(sheet, point)
}

#[unsafe(no_mangle)]
pub extern "C" fn bannerscale_door_convergence_and_scale(
    sheet: &[u8],
    point: DoorPoint,
) -> DoorAnswer
    ensures { result ≡ door_answer (to_grid sheet.now (door_point point)) }
{
    capi::bannerscale_door_convergence_and_scale(sheet, point)
}

#[unsafe(no_mangle)]
pub extern "C" fn bannerscale_feet(count: i32) -> f64
    ensures { result ≡ feet_of count }
{
    capi::bannerscale_feet(count)
}
