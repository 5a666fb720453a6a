// The line of the correction program, `minute y0 H V a`: a latitude row's minute and its new figures, and the correction that it asks for.
#![tactic(auto)]

ghost use Rattle.std.specs.Prelude.{◌≡◌};
ghost use Rattle.refusals.specs.Numbers.{number};
ghost use Rattle.row_line.specs.RowLine.{row_asked, number_by, sheet_by};

use refusals::Refusal;

// What the line asks: the minute, and new y0 (0.01 ft), H (0.000001), V (0.000001) and a (0.001).
#[derive(Clone, Copy)]
pub struct NewRow {
    pub minute: i32,
    pub y0: i32,
    pub h: i32,
    pub v: i32,
    pub a: i32,
}

// What the line asks; none where it is of no known form.
#[tactic(auto, unfolding(crate::specs::RowLine::row_asked))]
pub fn row_asked(line: &[u8]) -> Option<NewRow>
    ensures { result ≡ row_asked line.now }
{
    let minute = fields::field_at(line, 0)?;
    let y0 = fields::field_at(line, minute.next)?;
    let h = fields::field_at(line, y0.next)?;
    let v = fields::field_at(line, h.next)?;
    let a = fields::last_at(line, v.next)?;
    Some(NewRow {
        minute: minute.value,
        y0: y0.value,
        h: h.value,
        v: v.value,
        a: a.value,
    })
}

// The correction that the line asks for: 18 where it is of no known form, else what `correct::correct` answers and writes.
#[tactic(auto, unfolding(crate::specs::RowLine::number_of_row, crate::specs::RowLine::sheet_of_row))]
pub fn correct_by(sheet: &mut [u8], line: &[u8]) -> Result<(), Refusal>
    ensures answer { number result ≡ number_by sheet.old line.now }
    ensures memory { sheet.new ≡ sheet_by sheet.old line.now }
{
    let r = row_asked(line).ok_or(Refusal::Line)?;
    correct::correct(sheet, r.minute, r.y0, r.h, r.v, r.a)
}
