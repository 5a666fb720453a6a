// What a line of the points program asks: a form's letter and two numbers.
#![tactic(auto)]

ghost use Rattle.std.specs.Prelude.{◌≡◌};
ghost use Rattle.point_line.specs.PointLine.{is_form, form_of, line_of};

pub use fields::BLANK;

// The forms of a line, each named by its letter: `G latitude longitude`, `P x y` and `S x y`.
#[derive(Clone, Copy, PartialEq, Eq)]
pub enum Form {
    Forward,
    Inverse,
    Convergence,
}

// What a line asks: its form, and its two numbers.
#[derive(Clone, Copy)]
pub struct Line {
    pub form: Form,
    pub first: i32,
    pub second: i32,
}

// The form that a letter names.
#[tactic(auto, unfolding(crate::specs::PointLine::form_of))]
pub fn form_of(b: u8) -> Option<Form>
    ensures { result ≡ form_of b }
{
    match b {
        b'G' => Some(Form::Forward),
        b'P' => Some(Form::Inverse),
        b'S' => Some(Form::Convergence),
        _ => None,
    }
}

// Whether a byte is a form's letter.
pub fn is_form(b: u8) -> bool
    ensures { result ≡ is_form b }
{
    form_of(b).is_some()
}

// What the line asks; none where it is of no known form.
#[tactic(auto, unfolding(crate::specs::PointLine::line_of, crate::specs::PointLine::numbers_of))]
pub fn line_of(line: &[u8]) -> Option<Line>
    ensures { result ≡ line_of line.now }
{
    let form = form_of(decimal::byte_at(line, 0))?;
    if decimal::byte_at(line, 1) != BLANK {
        return None;
    }
    let first = fields::field_at(line, 2)?;
    let second = fields::last_at(line, first.next)?;
    Some(Line {
        form,
        first: first.value,
        second: second.value,
    })
}
