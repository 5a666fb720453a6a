// One line of the points program, answered as bytes.
#![tactic(auto)]

ghost use Rattle.std.specs.Prelude.{◌≡◌, ◌+◌, ◌≤◌, pos, length};
ghost use Rattle.refusals.specs.Numbers.{number_of};
ghost use Rattle.forward.specs.Forward.{plane_told};
ghost use Rattle.inverse.specs.Inverse.{geographic_told};
ghost use Rattle.convergence.specs.Grid.{grid_told};
ghost use Rattle.decimal.specs.Writing.{size_text, number_text, Wrote};
ghost use Rattle.lines.specs.Lines.{ended, answer_line, verdict_line, unknown_line, values, plane_values, geographic_values, grid_values, values_of, text_of, answer_text, line_room};

use convergence::Grid;
use forward::Plane;
use inverse::Geographic;
use point_line::{BLANK, Form, Line};
use refusals::Refusal;
use tables::Passed;

// What a line is answered, as it is printed: a number and two values, zeros where the number refuses.
#[derive(Clone, Copy, PartialEq, Eq)]
pub struct Values {
    pub number: u32,
    pub first: i32,
    pub second: i32,
}

const LINE_FEED: u8 = 10;

// The number of a line of no known form.
const UNKNOWN: u32 = 18;

// Room for any line that is written: three numbers of at most 21 bytes, with a byte after each.
pub const LINE_ROOM: usize = 66;

// A refusal's number, with zeros.
fn refusal(r: Refusal) -> Values
    ensures { result ≡ values (number_of r) (pos 0) (pos 0) }
{
    Values {
        number: r.number(),
        first: 0,
        second: 0,
    }
}

// ---- what is printed

// A number and the byte after it, from `at` on; the place after both.
pub fn put_size_and(out: &mut [u8], at: usize, v: u64, end: u8) -> usize
    requires { at + 22 ≤ length out.old }
    ensures { (result ≤ at + 22) × Wrote out.old out.new at result (ended (size_text v) end) }
{
    let next = decimal::put_size(out, at, v);
    decimal::put_byte(out, next, end)
}

// A signed number and the byte after it, from `at` on; the place after both.
pub fn put_number_and(out: &mut [u8], at: usize, v: i32, end: u8) -> usize
    requires { at + 22 ≤ length out.old }
    ensures { (result ≤ at + 22) × Wrote out.old out.new at result (ended (number_text v) end) }
{
    let next = decimal::put_number(out, at, v);
    decimal::put_byte(out, next, end)
}

// A conversion's answer, from `at` on; the place after it.
pub fn put_answer(out: &mut [u8], at: usize, number: u32, a: i32, b: i32) -> usize
    requires { at + line_room ≤ length out.old }
    ensures { (result ≤ at + line_room) × Wrote out.old out.new at result (answer_line number a b) }
{
    let i = put_size_and(out, at, number as u64, BLANK);
    let j = put_number_and(out, i, a, BLANK);
    put_number_and(out, j, b, LINE_FEED)
}

// The check's answer, from `at` on; the place after it.
pub fn put_verdict(out: &mut [u8], at: usize, number: u32, kind: usize, row: usize) -> usize
    requires { at + line_room ≤ length out.old }
    ensures { (result ≤ at + line_room) × Wrote out.old out.new at result (verdict_line number kind row) }
{
    let i = put_size_and(out, at, number as u64, BLANK);
    let j = put_size_and(out, i, kind as u64, BLANK);
    put_size_and(out, j, row as u64, LINE_FEED)
}

// 18, from `at` on; the place after it.
pub fn put_unknown(out: &mut [u8], at: usize) -> usize
    requires { at + line_room ≤ length out.old }
    ensures { (result ≤ at + line_room) × Wrote out.old out.new at result unknown_line }
{
    put_size_and(out, at, 18, LINE_FEED)
}

// What a line is answered, from `at` on; the place after it.
fn put_values(out: &mut [u8], at: usize, v: Values) -> usize
    requires { at + line_room ≤ length out.old }
    ensures { (result ≤ at + line_room) × Wrote out.old out.new at result (text_of v) }
{
    let number = v.number;
    if number == UNKNOWN {
        return put_unknown(out, at);
    }
    put_answer(out, at, number, v.first, v.second)
}

// ---- what a line is answered

impl From<Result<Plane, Refusal>> for Values {
    ghost from_gives = { λ r v. v ≡ plane_values (plane_told r) };

    fn from(r: Result<Plane, Refusal>) -> Values {
        match r {
            Ok(p) => Values {
                number: 0,
                first: p.x,
                second: p.y,
            },
            Err(e) => refusal(e),
        }
    }
}

impl From<Result<Geographic, Refusal>> for Values {
    ghost from_gives = { λ r v. v ≡ geographic_values (geographic_told r) };

    fn from(r: Result<Geographic, Refusal>) -> Values {
        match r {
            Ok(g) => Values {
                number: 0,
                first: g.latitude,
                second: g.longitude,
            },
            Err(e) => refusal(e),
        }
    }
}

impl From<Result<Grid, Refusal>> for Values {
    ghost from_gives = { λ r v. v ≡ grid_values (grid_told r) };

    fn from(r: Result<Grid, Refusal>) -> Values {
        match r {
            Ok(g) => Values {
                number: 0,
                first: g.convergence,
                second: g.scale,
            },
            Err(e) => refusal(e),
        }
    }
}

// What the line is answered on a sheet known to pass.
pub fn values_of(sheet: Passed, l: Option<Line>) -> Values
    ensures { result ≡ values_of sheet.entry.bytes.now l }
{
    let Some(l) = l else {
        return refusal(Refusal::Line);
    };
    match l.form {
        Form::Forward => forward::forward(sheet, l.first, l.second).into(),
        Form::Inverse => inverse::inverse(sheet, l.first, l.second).into(),
        Form::Convergence => convergence::convergence(sheet, l.first, l.second).into(),
    }
}

// The line's answer on a sheet known to pass, from `at` on; the place after it.
pub fn answer(sheet: Passed, line: &[u8], out: &mut [u8], at: usize) -> usize
    requires { at + line_room ≤ length out.old }
    ensures { (result ≤ at + line_room) × Wrote out.old out.new at result (answer_text sheet.entry.bytes.now line.now) }
{
    let v = values_of(sheet, point_line::line_of(line));
    put_values(out, at, v)
}
