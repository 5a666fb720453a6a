// Numbers as text: read from a line of bytes, and written, in decimal with an optional minus.
#![tactic(auto)]

ghost use Rattle.std.specs.Prelude.{◌≡◌, ◌∷◌, [], ◌+◌, ◌^◌, ◌≤◌, ◌<◌, length, drop, get_or, IfSome};
ghost use Rattle.std.proofs.lemmas.List.Edits.{sets};
ghost use Rattle.decimal.specs.Reading.{digits_of, signed, number_of};
ghost use Rattle.decimal.specs.Counting.{Counting};
ghost use Rattle.decimal.specs.Writing.{digits_needed, spelled, size_text, number_text, Wrote};

// Digits that were read: how many, and their value.
#[derive(Clone, Copy)]
pub struct Digits {
    pub count: usize,
    pub value: u64,
}

// A number that was read: how many bytes it takes, and its value.
#[derive(Clone, Copy)]
pub struct Number {
    pub length: usize,
    pub value: i32,
}

const MOST_DIGITS: usize = 10;

// ---- reading

// A byte of s, and 0 past its end.
pub fn byte_at(s: &[u8], i: usize) -> u8
    ensures { result ≡ get_or s.now i 0 }
{
    s.get(i).copied().unwrap_or(0)
}

// The digits from `at` on, one to ten of them.
fn digits_at(s: &[u8], at: usize) -> Option<Digits>
    ensures { (result ≡ digits_of (drop at s.now)) × IfSome result (λ d. (d.count ≤ 10) × (d.value < 10 ^ 10)) }
{
    let rest = s.get(at..)?;
    let mut count = 0;
    let mut value = 0;
    for b in rest {
        if !b.is_ascii_digit() {
            break;
        }
        if count == MOST_DIGITS {
            return None;
        }
        value = 10 * value + u64::from(*b - b'0');
        count += 1;
    }
    (count != 0).then_some(Digits { count, value })
}

// The number of digits after a minus, or after none, where 32 bits hold it.
fn number_of(minus: bool, d: Digits) -> Option<Number>
    requires { (d.count ≤ 10) × (d.value < 10 ^ 10) }
    ensures { (result ≡ signed minus d) × IfSome result (λ n. n.length ≤ 11) }
{
    let size = d.value as i64;
    let signed = if minus { -size } else { size };
    let value = i32::try_from(signed).ok()?;
    Some(Number {
        length: usize::from(minus) + d.count,
        value,
    })
}

// The number from `at` on.
pub fn number_at(s: &[u8], at: usize) -> Option<Number>
    ensures { (result ≡ number_of (drop at s.now)) × IfSome result (λ n. n.length ≤ 11) }
{
    let minus = byte_at(s, at) == b'-';
    let d = digits_at(s, at + usize::from(minus))?;
    number_of(minus, d)
}

// ---- writing

// How many digits v has, which are `least` or more; `power` is 10 to the `least`.
fn digits_needed_from(v: u64, least: usize, power: u64) -> usize
    requires { Counting v least power }
    ensures { (result ≡ digits_needed v) × (result ≤ 20) }
{
    let mut limit = power;
    for k in least..19 {
        if v < limit {
            return k;
        }
        limit *= 10;
    }
    if v < limit { 19 } else { 20 }
}

// How many digits v has. Most numbers of a point have more than five.
fn digits_needed(v: u64) -> usize
    ensures { (result ≡ digits_needed v) × (result ≤ 20) }
{
    if v < 100_000 {
        return digits_needed_from(v, 1, 10);
    }
    digits_needed_from(v, 6, 1_000_000)
}

// The last k digits of v, written from `at` on, two at a time from the last back.
fn spell(out: &mut [u8], at: usize, v: u64, k: usize)
    requires { at + k ≤ length out.old }
    ensures { out.new ≡ sets out.old at (spelled k v) }
{
    let mut i = k;
    let mut rest = v;
    // Two digits a turn: by one, over an iterator, it took about 8 in 100 longer.
    while 1 < i {
        i -= 2;
        let pair = (rest % 100) as u8;
        out[at + i + 1] = b'0' + pair % 10;
        out[at + i] = b'0' + pair / 10;
        rest /= 100;
    }
    if 0 < i {
        out[at] = b'0' + (rest % 10) as u8;
    }
}

// A byte, written at `at`; the place after it.
pub fn put_byte(out: &mut [u8], at: usize, b: u8) -> usize
    requires { at < length out.old }
    ensures { (result ≡ at + 1) × Wrote out.old out.new at result (b ∷ []) }
{
    out[at] = b;
    at + 1
}

// A size, written from `at` on; the place after it.
pub fn put_size(out: &mut [u8], at: usize, v: u64) -> usize
    requires { at + 20 ≤ length out.old }
    ensures { (result ≤ at + 20) × Wrote out.old out.new at result (size_text v) }
{
    let k = digits_needed(v);
    spell(out, at, v, k);
    at + k
}

// A signed number, written from `at` on; the place after it.
pub fn put_number(out: &mut [u8], at: usize, v: i32) -> usize
    requires { at + 21 ≤ length out.old }
    ensures { (result ≤ at + 21) × Wrote out.old out.new at result (number_text v) }
{
    let size = u64::from(v.unsigned_abs());
    if v < 0 {
        let next = put_byte(out, at, b'-');
        return put_size(out, next, size);
    }
    put_size(out, at, size)
}
