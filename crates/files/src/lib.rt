// What a program takes from the system and hands to it: a named file's bytes and standard input, into lent memory, and standard output. No contract can say what is read or written. The
// readers say how far they reach; `read_on` and the reads under it also say that what stood before stays. Where the system refuses, standard error says why.
#![tactic(auto)]

ghost use Rattle.std.specs.Prelude.{◌≡◌, true, ◌++◌, map, ◌+◌, ◌<◌, ◌≤◌, length, take, drop, IfOk, IfSome, IsUtf8, MatchResult};
ghost use Rattle.files.specs.Shown.{shown_byte};

use std::fs::File;
use std::io::{Error, ErrorKind, Print, Read, Result, Write};

// The most bytes of a file's name.
pub const MOST_NAME: usize = 255;

const CARRIAGE_RETURN: u8 = 13;

// The most bytes of a sheet.
pub const MOST_SHEET: usize = 65_536;

// Memory for a sheet. It is made apart because the proof of a function that holds so long an array would spell it out.
pub fn sheet_room() -> [u8; MOST_SHEET]
    ensures { 65_536 ≡ length result }
{
    [0; MOST_SHEET]
}

// ---- standard output and standard error

// Writes a text to standard output; false where the system refuses.
pub fn tell(rt: &HostRuntime, text: &[u8]) -> bool {
    match Print::write_all(rt, text) {
        Ok(()) => true,
        Err(e) => {
            explain(rt, b"cannot write standard output", e);
            false
        }
    }
}

// Whether standard output is open to be written to.
pub fn is_open(rt: &HostRuntime) -> bool {
    match Print::write_some(rt, b"") {
        Ok(_) => true,
        Err(e) => {
            explain(rt, b"cannot write standard output", e);
            false
        }
    }
}

// Writes a text to standard error. Where the system refuses, nobody can be told.
pub fn say(rt: &HostRuntime, text: &[u8]) {
    let _ = Print::write_all(&rt.stderr(), text);
}

// How much of the text stands before its last bracket and the blank before that.
fn before_bracket(text: &[u8]) -> usize
    ensures { result ≤ length text.now }
{
    match text.iter().rposition(|b| *b == b'(') {
        Some(i) => i.saturating_sub(1),
        None => text.len(),
    }
}

// The reason's text at the front of the memory. Behind one of the system's own a number stands in brackets, which is left out.
fn put_reason(error: Error, memory: &mut [u8; 256]) -> usize
    ensures { result ≤ 256 }
{
    let mut rest: &mut [u8] = memory;
    let _ = write!(rest, "{error}");
    let n = 256usize.saturating_sub(rest.len());
    if error.raw_os_error().is_none() {
        return n;
    }
    before_bracket(&memory[0..n])
}

// Writes to standard error what failed, and the reason.
pub fn explain(rt: &HostRuntime, what: &[u8], error: Error) {
    let mut text = [0u8; 256];
    let n = put_reason(error, &mut text);
    say(rt, what);
    say(rt, b": ");
    say(rt, &text[0..n]);
    say(rt, b"\n");
}

// ---- names

// The byte as it is shown: a question mark for an ASCII control byte, which may move a terminal's cursor or begin a command to it.
fn shown(b: u8) -> u8
    ensures { result ≡ shown_byte b }
{
    if (b < 32) | (b == 127) {
        return b'?';
    }
    b
}

// The name's bytes as they are shown, at the front of the memory.
fn put_shown(name: &[u8], memory: &mut [u8])
    requires { length name.now ≤ length memory.old }
    ensures { memory.new ≡ map shown_byte name.now ++ drop (length name.now) memory.old }
{
    for (i, b) in name.iter().enumerate() {
        memory[i] = shown(*b);
    }
}

// Writes to standard error what could not be done with the file of the name, and the reason.
pub fn fail(rt: &HostRuntime, what: &[u8], name: &[u8], error: Error)
    requires { length name.now < 256 }
{
    let mut text = [0u8; 256];
    let n = name.len();
    put_shown(name, &mut text);
    say(rt, what);
    explain(rt, &text[0..n], error);
}

// The same with a reason of our own.
pub fn refuse(rt: &HostRuntime, what: &[u8], name: &[u8], why: &[u8])
    requires { length name.now < 256 }
{
    let mut text = [0u8; 256];
    let n = name.len();
    put_shown(name, &mut text);
    say(rt, what);
    say(rt, &text[0..n]);
    say(rt, why);
}

// Writes to standard error what cannot be done, and why.
fn cannot(rt: &HostRuntime, what: &[u8], why: &[u8]) {
    say(rt, what);
    say(rt, why);
}

// Whether the name is one that a file may have: of 1 to 255 bytes, none of them 0. Where it is not, standard error says what cannot be done, and why.
pub fn is_name(rt: &HostRuntime, what: &[u8], name: &[u8]) -> bool
    ensures { result ≡ true → length name.now < 256 }
{
    if name.is_empty() {
        cannot(rt, what, b": its name is empty\n");
        return false;
    }
    if MOST_NAME < name.len() {
        cannot(rt, what, b": its name has more than 255 bytes\n");
        return false;
    }
    if name.contains(&0) {
        cannot(rt, what, b": its name has a zero byte\n");
        return false;
    }
    true
}

// The name as the system is asked for it: the same bytes, where they are text in UTF-8; an error where they are not.
pub fn path_of(name: &[u8]) -> Result<&str>
    ensures { MatchResult result (λ path. path.now ≡ name.now) (λ e. ¬ (IsUtf8 name.now)) }
{
    match str::from_utf8(name) {
        Ok(path) => Ok(path),
        Err(_) => Err(Error::new(ErrorKind::InvalidInput, "its name is not in UTF-8")),
    }
}

// Whether the name's last byte is a carriage return, which no terminal shows.
pub fn ends_in_return(name: &[u8]) -> bool {
    name.ends_with(&[CARRIAGE_RETURN])
}

// ---- reading

// One read into buf from `from` on: how many bytes, 0 at the end.
fn read_once<R: Read>(reader: &mut R, buf: &mut [u8], from: usize) -> Result<usize>
    requires { from ≤ length buf.old }
    ensures within { IfOk result (λ n. from + n ≤ length buf.new) }
    ensures stays { take from buf.new ≡ take from buf.old }
{
    reader.read(&mut buf[from..])
}

// One read into buf from `from` on, tried again where a signal interrupted it. A proved loop has to end, so its turns are counted, up to a number that no run uses up.
fn read_part<R: Read>(reader: &mut R, buf: &mut [u8], from: usize) -> Result<usize>
    requires { from ≤ length buf.old }
    ensures within { IfOk result (λ n. from + n ≤ length buf.new) }
    ensures stays { take from buf.new ≡ take from buf.old }
{
    for _ in 0..u64::MAX {
        match read_once(reader, buf, from) {
            Err(e) if e.kind() == ErrorKind::Interrupted => {}
            got => return got,
        }
    }
    Err(Error::from(ErrorKind::Interrupted))
}

// Reads until the buffer is full, the input ends or a read fails; how many bytes came, and what failed. An interrupted read is tried again.
fn fill<R: Read>(reader: &mut R, buf: &mut [u8]) -> (usize, Option<Error>)
    ensures { result.0 ≤ length buf.new }
{
    let mut done = 0;
    // The step is what a read gives, so no `for` goes over it.
    while done < buf.len() {
        match read_part(reader, buf, done) {
            Ok(0) => break,
            Ok(count) => done += count,
            Err(e) => return (done, Some(e)),
        }
    }
    (done, None)
}

// Reads until the buffer is full, the input ends, or a read fails or is interrupted; how many bytes came.
pub fn read_full<R: Read>(reader: &mut R, buf: &mut [u8]) -> usize
    ensures { result ≤ length buf.new }
{
    let mut done = 0;
    // As in `fill`.
    while done < buf.len() {
        match read_once(reader, buf, done) {
            Ok(0) => break,
            Ok(count) => done += count,
            Err(_) => break,
        }
    }
    done
}

// ---- a file

// Opens the file of the name, to be read.
pub fn open(rt: &HostRuntime, name: &[u8]) -> Result<File> {
    File::open(rt, path_of(name)?)
}

// The bytes of the file of a name that a file may have, as far as the buffer reaches.
fn read_named(rt: &HostRuntime, name: &[u8], sheet: &mut [u8]) -> Result<usize>
    ensures { IfOk result (λ n. n ≤ length sheet.new) }
{
    let mut file = open(rt, name)?;
    match fill(&mut file, sheet) {
        (count, None) => Ok(count),
        (_, Some(e)) => Err(e),
    }
}

// Says which file could not be read, and why.
fn say_unread(rt: &HostRuntime, name: &[u8], error: Error)
    requires { length name.now < 256 }
{
    fail(rt, b"cannot read the sheet ", name, error);
    if ends_in_return(name) {
        say(rt, b"its name ends in a carriage return\n");
    }
}

// The named file's bytes in the buffer; none where the name is empty or too long or has a zero byte, or the file cannot be read.
pub fn load(rt: &HostRuntime, name: &[u8], sheet: &mut [u8]) -> usize
    ensures { result ≤ length sheet.new }
{
    if !is_name(rt, b"cannot read the sheet", name) {
        return 0;
    }
    match read_named(rt, name, sheet) {
        Ok(count) => count,
        Err(e) => {
            say_unread(rt, name, e);
            0
        }
    }
}

// ---- standard input

// Reads more of standard input behind the buffer's first n bytes, which stay as they were; how many bytes the buffer holds then. It holds n still where the input has ended. None: the read failed, and
// standard error says why. There has to be room: a read of none would pass for the input's end.
pub fn read_on(rt: &HostRuntime, input: &mut [u8], n: usize) -> Option<usize>
    requires { n < length input.old }
    ensures within { IfSome result (λ to. (n ≤ to) × (to ≤ length input.new)) }
    ensures stays { take n input.new ≡ take n input.old }
{
    match read_part(&mut rt.stdin(), input, n) {
        Ok(count) => Some(n + count),
        Err(e) => {
            explain(rt, b"cannot read standard input", e);
            None
        }
    }
}

// A line of standard input: the buffer's bytes from `from` to `end`; those from `next` to `to` stand behind it.
#[derive(Clone, Copy)]
pub struct Line {
    pub from: usize,
    pub end: usize,
    pub next: usize,
    pub to: usize,
}

// The next line of the buffer's bytes from `from` to `to` and what is read behind them, or at the input's end what is left; no further than 256 bytes of it, which is more than a name or a line of a
// known form has. None: a read failed, so the line did not come whole, and standard error says why.
pub fn read_line(rt: &HostRuntime, input: &mut [u8], from: usize, to: usize) -> Option<Line>
    requires { (from ≤ to) × (to ≤ length input.old) × (256 < length input.old) }
    ensures { IfSome result (λ line. (line.from ≤ line.end) × (line.end ≤ line.next) × (line.next ≤ line.to) × (line.to ≤ length input.new)) }
{
    let mut start = from;
    let mut n = to;
    for _ in 0..u64::MAX {
        let end = stream::line_end(input, start, n);
        if end < n {
            return Some(Line {
                from: start,
                end,
                next: end + 1,
                to: n,
            });
        }
        let kept = stream::keep(input, start, n);
        n = read_on(rt, input, kept)?;
        start = 0;
        if n == kept {
            return Some(Line {
                from: 0,
                end: n,
                next: n,
                to: n,
            });
        }
    }
    None
}
