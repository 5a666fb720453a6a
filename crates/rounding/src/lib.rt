// Exact numbers: sizes and signs, rounding, which tells a half, and reading between rows.
#![tactic(auto)]

ghost use Rattle.std.specs.Prelude.{◌≡◌, ◌^◌, ◌<◌, ◌≤◌, nat_abs};
ghost use Rattle.rounding.specs.Nearest.{with_sign, nearest_size, nearest, on_half_size, on_half};
ghost use Rattle.rounding.specs.Between.{between, between_half, lowered};
ghost use Rattle.rounding.specs.Ranges.{most_row, most_step, most_numerator, most_divisor};

// A number or a size after rounding, and whether its exact value was a half: halfway between two whole numbers.
#[derive(Clone, Copy)]
pub struct Rounded<T> {
    pub value: T,
    pub half: bool,
}

// The size of z: z without its sign.
pub fn size(z: i64) -> u64
    requires { nat_abs z < 2 ^ 63 }
    ensures { result ≡ nat_abs z }
{
    z.unsigned_abs()
}

// A size with the sign of l.
pub fn with_sign(l: i64, size: i64) -> i64
    requires { nat_abs size < 2 ^ 63 }
    ensures { result ≡ with_sign l size }
{
    if l < 0 { -size } else { size }
}

// The whole number nearest to n/d, where n is a size; an exact half goes up.
// n is quotient · d + rest, and the rest is below d. If twice the rest is below d, n/d is nearer to the quotient. If it is above d, n/d is nearer to the next number, quotient + 1.
// If it is d, n/d is halfway between the two: a half, and the next number is the answer.
pub fn nearest_size(n: u64, d: u64) -> Rounded<u64>
    requires { (n ≤ most_numerator) × (0 < d) × (d ≤ most_divisor) }
    ensures { (result.value ≡ nearest_size n d) × (result.half ≡ on_half_size n d) }
{
    let quotient = n / d;
    let twice_rest = 2 * (n % d);
    let half = twice_rest == d;
    if d <= twice_rest {
        let next = quotient + 1;
        Rounded { value: next, half }
    } else {
        Rounded {
            value: quotient,
            half,
        }
    }
}

// The whole number nearest to n/d; an exact half goes away from zero. The size of n is divided by d and rounded, and the answer takes the sign of n; 0 has none. A half is one with either sign.
// - 7/2, three and a half, has the quotient 3 and the rest 1. Twice the rest is 2, which is d, so 7/2 is halfway. The answer is 4, from a half.
// - −7/2: the size of −7 is 7, and 7/2 gives 4, from a half. The answer is −4, from a half.
// - −0.9875 to three places is −987.5 thousandths, so −9,875/10. 9,875/10 has the quotient 987 and the rest 5. Twice the rest is 10, which is d, so it is halfway and gives 988.
//   The answer is −988, which is −0.988, from a half.
// - −7/3: 7/3 has the quotient 2 and the rest 1. Twice the rest is 2, below 3, so 7/3 gives 2. The answer is −2, from no half.
pub fn nearest(n: i64, d: u64) -> Rounded<i64>
    requires { (nat_abs n ≤ most_numerator) × (0 < d) × (d ≤ most_divisor) }
    ensures { (result.value ≡ nearest n d) × (result.half ≡ on_half n d) }
{
    let r = nearest_size(size(n), d);
    Rounded {
        value: with_sign(n, r.value as i64),
        half: r.half,
    }
}

// What a row's figure is raised by, so that it is read without a sign: −5 is read as 2,147,483,643.
const RAISED: u64 = 2_147_483_648;

// The value on the straight line from one row to the next, a step apart, at an offset t: the first row's figure at 0, the next row's at the step.
// u and w are the two figures, each raised; the answer is not raised. The sum takes u step − t times and w t times, which is step times in all, so it is too high by RAISED times the step.
// That is taken off before the one rounding: half way from −1 to 0 is −1/2, which goes to −1. Rounded first, it would go to 0.
pub fn between(u: u64, w: u64, t: u32, step: u32) -> Rounded<i64>
    requires { (u ≤ most_row) × (w ≤ most_row) × (t ≤ step) × (step ≤ most_step) × (0 < step) }
    ensures { (result.value ≡ between (lowered u) (lowered w) t step) × (result.half ≡ between_half (lowered u) (lowered w) t step) }
{
    let weight = (step - t) as u64;
    let next_weight = t as u64;
    let divisor = step as u64;
    let sum = u * weight + w * next_weight;
    nearest(sum as i64 - (RAISED * divisor) as i64, divisor)
}
