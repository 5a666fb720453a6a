// The Survey's printed steps, each one function over whole numbers in the sheet's units, with one rounding, and whether that met a half.
#![tactic(auto)]

ghost use Rattle.std.specs.Prelude.{◌≡◌, ◌+◌, ◌*◌, ◌<◌, ◌≤◌, T, pos, nat_abs, ◌+ℤ◌, ◌-ℤ◌, ◌*ℤ◌};
ghost use Rattle.std.specs.Int.Signed.{non_neg};
ghost use Rattle.rounding.specs.Ranges.{most_h, most_v, most_a, most_b, most_c, most_p, most_m, most_d, most_s, most_q, most_x, most_word, most_step, most_gap, most_scale, most_numerator};
ghost use Rattle.steps.specs.Steps.{q_of, q_half, size_of_x, size_of_x_half, rise, rise_half, reduction, reduction_half, seconds, seconds_half, approximate_l, approximate_l_half, size_of_l, size_of_l_half, convergence, convergence_half, per_second};
ghost use Rattle.steps.specs.Wide.{toward_zero};

use rounding::Rounded;

// q = (s/100)², in 0.001, of s in 0.001″.
pub fn q_of(s: u64) -> Rounded<u64>
    requires { s ≤ most_s }
    ensures { (result.value ≡ q_of s) × (result.half ≡ q_half s) }
{
    rounding::nearest_size(s * s, 10_000_000)
}

// The size of x', in 0.01 ft: H·s + a·b, which is not negative.
pub fn size_of_x(h: u64, s: u64, a: i64, b: i64) -> Rounded<u64>
    requires { (h ≤ most_h) × (s ≤ most_s) × (nat_abs a ≤ most_a) × (nat_abs b ≤ most_b) × T (non_neg (pos (h * s) +ℤ a *ℤ b *ℤ pos 1_000)) }
    ensures { (pos result.value ≡ size_of_x h s a b) × (result.half ≡ size_of_x_half h s a b) }
{
    let sum = (h * s) as i64 + a * b * 1_000;
    rounding::nearest_size(sum as u64, 10_000_000)
}

// The rise of y above y0, in 0.01 ft: V·q + c.
pub fn rise(v: u64, q: u64, c: i64) -> Rounded<i64>
    requires { (v ≤ most_v) × (q ≤ most_q) × (nat_abs c ≤ most_c) }
    ensures { (result.value ≡ rise v q c) × (result.half ≡ rise_half v q c) }
{
    rounding::nearest((v * q) as i64 + c * 1_000_000, 10_000_000)
}

// t + e/K rounded toward zero, for any K above e.
pub fn toward_zero(t: i64, e: u64) -> i64
    requires { nat_abs t ≤ most_numerator }
    ensures { result ≡ toward_zero t e }
{
    if 0 <= t {
        return t;
    }
    if e == 0 {
        return t;
    }
    t + 1
}

// 10¹⁵ is LOW · HIGH. To divide by LOW is a shift; HIGH is even, so a half stays a half when what is below LOW is dropped toward zero.
const LOW: u64 = 16_384;

const HIGH: u64 = 61_035_156_250;

// The reduction of y, in 0.01 ft: P(x'/10,000)² + d, for x the size of x'. P·x² passes 64 bits, so x² is split at LOW:
// P·x² + d·10¹⁵ is t·LOW + rest, and the rest is dropped toward zero. A t not below zero, as nearly all are, just loses it, and is rounded as a size.
// The exact value is a half if what is left, over HIGH, is one and the rest is 0.
pub fn reduction(p: u64, x: u64, d: i64) -> Rounded<i64>
    requires { (p ≤ most_p) × (x ≤ most_x) × (nat_abs d ≤ most_d) }
    ensures { (result.value ≡ reduction p x d) × (result.half ≡ reduction_half p x d) }
{
    let square = x * x;
    let low = p * (square % LOW);
    let whole = p * (square / LOW) + low / LOW;
    let t = whole as i64 + d * (HIGH as i64);
    let rest = low % LOW;
    if t < 0 {
        let r = rounding::nearest(toward_zero(t, rest), HIGH);
        return Rounded {
            value: r.value,
            half: r.half & (rest == 0),
        };
    }
    let size = rounding::nearest_size(t as u64, HIGH);
    Rounded {
        value: size.value as i64,
        half: size.half & (rest == 0),
    }
}

// The seconds past a latitude row, in 0.001″, where y0 gains gap over a span of 0.001″ and past of it lies below the reduced northing.
pub fn seconds(span: u64, past: u64, gap: u64) -> Rounded<u64>
    requires { (span ≤ most_step) × (past ≤ most_gap) × (0 < gap) × (gap ≤ most_gap) }
    ensures { (result.value ≡ seconds span past gap) × (result.half ≡ seconds_half span past gap) }
{
    rounding::nearest_size(span * past, gap)
}

// Approximate L, in whole seconds: |x'|/H.
pub fn approximate_l(x: u64, h: u64) -> Rounded<u64>
    requires { (x ≤ most_x) × (0 < h) × (h ≤ most_h) }
    ensures { (result.value ≡ approximate_l x h) × (result.half ≡ approximate_l_half x h) }
{
    rounding::nearest_size(x * 10_000, h)
}

// The size of L, in 0.001″: (|x'| − a·b)/H, which is not negative.
pub fn size_of_l(x: u64, a: i64, b: i64, h: u64) -> Rounded<u64>
    requires { (x ≤ most_x) × (nat_abs a ≤ most_a) × (nat_abs b ≤ most_b) × (0 < h) × (h ≤ most_h) × T (non_neg (pos (x * 10_000) -ℤ a *ℤ b)) }
    ensures { (pos result.value ≡ size_of_l x a b h) × (result.half ≡ size_of_l_half x a b h) }
{
    let rest = ((x * 10_000) as i64 - a * b) * 1_000;
    rounding::nearest_size(rest as u64, h)
}

// Δα, in 0.1″: M·x'.
pub fn convergence(m: u64, x: i64) -> Rounded<i64>
    requires { (m ≤ most_m) × (nat_abs x ≤ most_word) }
    ensures { (result.value ≡ convergence m x) × (result.half ≡ convergence_half m x) }
{
    rounding::nearest((m as i64) * x, 100_000_000)
}

// A difference over 60 seconds, scaled to its column's unit.
pub fn per_second(scale: u64, difference: i64) -> i64
    requires { (scale ≤ most_scale) × (nat_abs difference ≤ most_word + most_word) }
    ensures { result ≡ per_second scale difference }
{
    rounding::nearest((scale as i64) * difference, 60).value
}
