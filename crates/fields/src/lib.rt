// A line's numbers one after another, each with what has to stand behind it: a blank, or the line's end. `at` goes up to 48, the last place where a fifth number can stand.
#![tactic(auto)]

ghost use Rattle.std.specs.Prelude.{◌≡◌, ◌+◌, ◌≤◌, IfSome};
ghost use Rattle.fields.specs.Fields.{field_at, last_at};

// A number in the line that ends as it has to: its value, and where the next one would stand.
#[derive(Clone, Copy)]
pub struct Field {
    pub value: i32,
    pub next: usize,
}

pub const BLANK: u8 = b' ';

// The number from `at` on, with a blank behind it.
#[tactic(auto, unfolding(crate::specs::Fields::field_at))]
pub fn field_at(line: &[u8], at: usize) -> Option<Field>
    requires { at ≤ 48 }
    ensures { (result ≡ field_at line.now at) × IfSome result (λ f. f.next ≤ at + 12) }
{
    let n = decimal::number_at(line, at)?;
    let end = at + n.length;
    if decimal::byte_at(line, end) != BLANK {
        return None;
    }
    Some(Field {
        value: n.value,
        next: end + 1,
    })
}

// The number from `at` on, with the line's end behind it.
#[tactic(auto, unfolding(crate::specs::Fields::last_at))]
pub fn last_at(line: &[u8], at: usize) -> Option<Field>
    requires { at ≤ 48 }
    ensures { result ≡ last_at line.now at }
{
    let n = decimal::number_at(line, at)?;
    let end = at + n.length;
    if end != line.len() {
        return None;
    }
    Some(Field {
        value: n.value,
        next: end,
    })
}
