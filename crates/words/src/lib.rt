// A sheet's words: read and written at a word number, four bytes each, big-endian, two's complement.
#![tactic(auto)]

ghost use Rattle.std.specs.Prelude.{◌≡◌, ◌+◌, ◌*◌, ◌<◌, ◌≤◌, length};
ghost use Rattle.rounding.specs.Between.{lowered};
ghost use Rattle.words.specs.Words.{unsigned_at, word_at, bits32, put_word};

// Word i, read without a sign.
pub fn unsigned_word(s: &[u8], i: usize) -> u32
    requires { 4 * i + 4 ≤ length s.now }
    ensures { (result ≡ unsigned_at s.now i) × (result < 4_294_967_296) }
{
    let at = 4 * i;
    u32::from_be_bytes([s[at], s[at + 1], s[at + 2], s[at + 3]])
}

// Word i.
pub fn word(s: &[u8], i: usize) -> i32
    requires { 4 * i + 4 ≤ length s.now }
    ensures { result ≡ word_at s.now i }
{
    unsigned_word(s, i).cast_signed()
}

// Word i raised by 2³¹, and so never negative.
pub fn raised_word(s: &[u8], i: usize) -> u64
    requires { 4 * i + 4 ≤ length s.now }
    ensures { (lowered result ≡ word_at s.now i) × (result < 4_294_967_296) }
{
    unsigned_word(s, i).wrapping_add(2_147_483_648) as u64
}

// v raised by 2³¹, and so never negative.
pub fn raised(v: i32) -> u64
    ensures { (lowered result ≡ v) × (result < 4_294_967_296) }
{
    v.cast_unsigned().wrapping_add(2_147_483_648) as u64
}

// v becomes word i; every other byte stays.
pub fn put_word(s: &mut [u8], i: usize, v: i32)
    requires { 4 * i + 4 ≤ length s.old }
    ensures { s.new ≡ put_word s.old i v }
{
    let at = 4 * i;
    s[at..at + 4].copy_from_slice(&v.to_be_bytes());
}
