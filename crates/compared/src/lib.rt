// One line of the points program, asked of an old sheet and of a new one.
#![tactic(auto)]

ghost use Rattle.std.specs.Prelude.{◌≡◌, ◌+◌, ◌≤◌, length, is_some};
ghost use Rattle.decimal.specs.Writing.{Wrote};
ghost use Rattle.point_line.specs.PointLine.{line_of};
ghost use Rattle.differing.specs.Differing.{differing_rows};
ghost use Rattle.reached.specs.Reached.{reaches};
ghost use Rattle.compared.specs.Compared.{changes, values_text, change_line, change_text, compared_text, change_room};

use lines::Values;
use point_line::BLANK;
use tables::Passed;

// What a line is on two sheets: whether it is of a known form, whether its answer changes, whether the rows in which the sheets differ may touch it, and the place after what was written.
#[derive(Clone, Copy)]
pub struct Compared {
    pub point: bool,
    pub changed: bool,
    pub reached: bool,
    pub next: usize,
}

// Room for any line that is written: seven numbers of at most 21 bytes, with a byte after each.
pub const CHANGE_ROOM: usize = 154;

// ---- what is written

// An answer's number and two values, with a blank after each, from `at` on; the place after them.
fn put_values(out: &mut [u8], at: usize, v: Values) -> usize
    requires { at + 66 ≤ length out.old }
    ensures { (result ≤ at + 66) × Wrote out.old out.new at result (values_text v) }
{
    let i = lines::put_size_and(out, at, v.number as u64, BLANK);
    let j = lines::put_number_and(out, i, v.first, BLANK);
    lines::put_number_and(out, j, v.second, BLANK)
}

// Line n's old answer v and its new one, w, from `at` on; the place after them.
fn put_change(out: &mut [u8], at: usize, n: u64, v: Values, w: Values) -> usize
    requires { at + change_room ≤ length out.old }
    ensures { (result ≤ at + change_room) × Wrote out.old out.new at result (change_line n v w) }
{
    let i = lines::put_size_and(out, at, n, BLANK);
    let j = put_values(out, i, v);
    lines::put_answer(out, j, w.number, w.first, w.second)
}

// The same where the answer changed, else nothing.
fn put_where(changed: bool, out: &mut [u8], at: usize, n: u64, v: Values, w: Values) -> usize
    requires { at + change_room ≤ length out.old }
    ensures { (result ≤ at + change_room) × Wrote out.old out.new at result (change_text changed n v w) }
{
    if !changed {
        return at;
    }
    put_change(out, at, n, v, w)
}

// Line n, asked of both sheets, which are known to pass: what it is on them, and where its answer changes both answers from `at` on.
pub fn compare_line(
    old: Passed,
    new: Passed,
    line: &[u8],
    n: u64,
    out: &mut [u8],
    at: usize,
) -> Compared
    requires { at + change_room ≤ length out.old }
    ensures point { result.point ≡ is_some (line_of line.now) }
    ensures changed { result.changed ≡ changes old.entry.bytes.now new.entry.bytes.now (line_of line.now) }
    ensures reached { result.reached ≡ reaches old.entry.bytes.now new.entry.bytes.now (line_of line.now) (differing_rows old.entry.bytes.now new.entry.bytes.now) }
    ensures text { (result.next ≤ at + change_room) × Wrote out.old out.new at result.next (compared_text old.entry.bytes.now new.entry.bytes.now n (line_of line.now)) }
{
    let l = point_line::line_of(line);
    let v = lines::values_of(old, l);
    let w = lines::values_of(new, l);
    let changed = v != w;
    let next = put_where(changed, out, at, n, v, w);
    Compared {
        point: l.is_some(),
        changed,
        reached: reached::is_reached(old, new, l),
        next,
    }
}
