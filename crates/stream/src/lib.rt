// The lines of an input that is read in pieces into a buffer: where the next line ends, and what is kept of a line that has not. The buffer's bytes from `from` to `to` are those that were read and
// not yet handed on.
#![tactic(auto)]

ghost use Rattle.std.specs.Prelude.{◌≡◌, ◌+◌, ◌≤◌, ◌<◌, ◌==◌, position, ◌++◌, length, take, drop};
ghost use Rattle.std.proofs.Math.Seq.{slice};
ghost use Rattle.stream.specs.Search.{index_of};
ghost use Rattle.stream.specs.Stream.{goes_on, all_go_on, most_kept};

pub const LINE_FEED: u8 = 10;

// The most bytes that are kept of a line that has not ended: one more than the longest name, 255, and more than the longest line of a known form, 25.
pub const MOST_KEPT: usize = 256;

// Whether byte i is no line feed.
fn goes_on(b: &[u8], i: usize) -> bool
    requires { i < length b.now }
    ensures { result ≡ goes_on b.now i }
{
    b[i] != LINE_FEED
}

// Whether none of the eight bytes from i on is a line feed. All are looked at, so that there is one jump for eight bytes.
fn eight_go_on(b: &[u8], i: usize) -> bool
    requires { i + 8 ≤ length b.now }
    ensures { result ≡ all_go_on b.now i 8 }
{
    goes_on(b, i)
        & goes_on(b, i + 1)
        & goes_on(b, i + 2)
        & goes_on(b, i + 3)
        & goes_on(b, i + 4)
        & goes_on(b, i + 5)
        & goes_on(b, i + 6)
        & goes_on(b, i + 7)
}

// Where the first byte stands that is `byte`, if one is.
fn first(text: &[u8], byte: u8) -> Option<usize>
    ensures { result ≡ position (λ b. b == byte) text.now }
{
    text.iter().position(|b| *b == byte)
}

// Where the first byte from `from` on stands that is `byte`; `to`, where none before it is.
pub fn find(text: &[u8], from: usize, to: usize, byte: u8) -> usize
    requires { (from ≤ to) × (to ≤ length text.now) }
    ensures { (result ≡ from + index_of byte (slice from to text.now)) × (result ≤ to) }
{
    from + first(&text[from..to], byte).unwrap_or(to - from)
}

// Where the line from `from` on ends: at its line feed, or at `to` where it has not ended. It goes by eight bytes, and in the last of them byte by byte: by single bytes alone it is slower (bench/notes.md).
pub fn line_end(buffer: &[u8], from: usize, to: usize) -> usize
    requires { (from ≤ to) × (to ≤ length buffer.now) }
    ensures { (result ≡ from + index_of 10 (slice from to buffer.now)) × (result ≤ to) }
{
    let mut i = from;
    while 8 <= to - i && eight_go_on(buffer, i) {
        i += 8;
    }
    find(buffer, i, to, LINE_FEED)
}

// Keeps the line that has not ended, from `from` to `to`, at the buffer's front, its first 256 bytes; how many bytes are kept.
pub fn keep(buffer: &mut [u8], from: usize, to: usize) -> usize
    requires { (from ≤ to) × (to ≤ length buffer.old) }
    ensures { (result ≡ length (take most_kept (slice from to buffer.old))) × (buffer.new ≡ take most_kept (slice from to buffer.old) ++ drop result buffer.old) × (result ≤ most_kept) }
{
    let n = (to - from).min(MOST_KEPT);
    buffer.copy_within(from..from + n, 0);
    n
}
