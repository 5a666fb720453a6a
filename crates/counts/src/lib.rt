// Floats that are counts: a drawing tool's f64 is a count where it is a whole number within ±2,147,483,647. It is tested by its bits, and not by arithmetic on floats.
#![tactic(auto)]

ghost use Rattle.std.specs.Prelude.{◌≡◌};
ghost use Rattle.counts.specs.Whole.{whole_of};

// The fields of a float's 64 bits: the sign is the highest, eleven bits of exponent follow, and 52 digits under a leading one that is not written.
const SIGN: u64 = 0x8000_0000_0000_0000;

const LEADING: u64 = 0x10_0000_0000_0000;

const EXPONENTS: u64 = 2048;

// Exponents as written: of the floats from 1 to below 2; from 2³⁰ to below 2³¹, the last with counts; and from 2⁵² to below 2⁵³, whose last digit is the unit.
const OF_ONE: u64 = 1023;

const OF_MOST: u64 = 1053;

const OF_UNIT: u64 = 1075;

// The whole number within ±2,147,483,647 that x is. −0 is 0. A fraction, a larger number, an infinity and a NaN are no counts.
pub fn whole_of(x: f64) -> Option<i32>
    ensures { result ≡ whole_of x }
{
    if x.is_nan() {
        return None;
    }
    let bits = x.to_bits();
    let exponent = bits / LEADING % EXPONENTS;
    if exponent < OF_ONE {
        // below 1 in size
        if bits % SIGN == 0 {
            return Some(0);
        }
        return None;
    }
    if OF_MOST < exponent {
        return None; // 2,147,483,648 or more in size, or infinite
    }
    let digits = LEADING + bits % LEADING;
    let unit: u64 = 1 << (OF_UNIT - exponent);
    if digits % unit != 0 {
        return None; // a fraction
    }
    let size = (digits / unit) as i32;
    if bits < SIGN {
        return Some(size);
    }
    Some(-size)
}
