// Works through the script that its standard input is, and prints each line of it with its answer. The script's lines:
//
//     NAME                 the sheet of the file with that name
//     word WORD VALUE      the sheet named last, with one word changed
//     N bytes              its first N bytes, at most 65,536, with zeros behind the file's own
//     lines                begins a list: lines of the points program, which follow and are asked later
//     ask                  the list's lines, answered
//     C minute y0 H V a    a correction of the sheet: its number, what it changed, and the list's lines, answered before and after it
//     # TEXT               for the reader, as are empty lines
//
// A line is known by its first byte. Each of the first three is judged by the check; a correction stays until the next of them.
#![tactic(auto)]

use contents::Refused;
use point_line::{Form, Line};
use refusals::Refusal;
use std::io::Print;
use stream::LINE_FEED;

// ---- printing

fn print(rt: &HostRuntime, text: &[u8]) {
    let _ = Print::write_all(rt, text);
}

fn print_size(rt: &HostRuntime, n: u64) {
    let _ = rt.print(n);
}

// The size of a number.
fn size(z: i32) -> u64 {
    rounding::size(z as i64)
}

fn print_signed(rt: &HostRuntime, z: i32) {
    let _ = rt.print(z);
}

// An answer: number and two values, each after a blank, zeros in a refusal, and the word half if some rounding met one.
fn print_answer(rt: &HostRuntime, answer: Result<(i32, i32, bool), Refusal>) {
    let (number, first, second, half) = match answer {
        Ok((first, second, half)) => (0, first, second, half),
        Err(r) => (r.number(), 0, 0, false),
    };
    print(rt, b" ");
    print_size(rt, number as u64);
    print(rt, b" ");
    print_signed(rt, first);
    print(rt, b" ");
    print_signed(rt, second);
    if half {
        print(rt, b" half");
    }
}

// The check's answer: number, kind, row, all 0 in a pass.
fn print_check(rt: &HostRuntime, answer: Result<(), Refused>) {
    let (number, kind, row) = contents::numbers(answer.err());
    print_size(rt, number as u64);
    print(rt, b" ");
    print_size(rt, kind as u64);
    print(rt, b" ");
    print_size(rt, row as u64);
}

// Whether a correction may change an answer: number, and 1 for yes.
fn print_touch(rt: &HostRuntime, answer: Result<bool, Refusal>) {
    let (number, touched) = match answer {
        Ok(touched) => (0, touched),
        Err(r) => (r.number(), false),
    };
    print(rt, b", touched ");
    print_size(rt, number as u64);
    print(rt, b" ");
    print_size(rt, touched as u64);
}

// ---- bytes

// The bytes from `from` up to `to`; none where they are not all there.
fn part(s: &[u8], from: usize, to: usize) -> &[u8] {
    s.get(from..to).unwrap_or(&[])
}

// Puts the bytes at the start of room, as far as it goes, and answers how many they are.
fn copy(bytes: &[u8], room: &mut [u8]) -> usize {
    let n = bytes.len().min(room.len());
    room[0..n].copy_from_slice(&bytes[0..n]);
    n
}

// In how many places the bytes differ.
fn differing(before: &[u8], after: &[u8]) -> usize {
    before.iter().zip(after).filter(|(b, a)| b != a).count()
}

// ---- the list's lines

// Prints the sheet's answer to what a line asks.
fn answer(rt: &HostRuntime, sheet: &[u8], asked: Option<Line>) {
    let Some(l) = asked else {
        print(rt, b" 18");
        return;
    };
    let answer = match l.form {
        Form::Forward => {
            convert::geographic_to_plane(sheet, l.first, l.second).map(|p| (p.x, p.y, p.half))
        }
        Form::Inverse => convert::plane_to_geographic(sheet, l.first, l.second).map(|g| (
            g.latitude,
            g.longitude,
            g.half,
        )),
        Form::Convergence => convert::convergence_and_scale(sheet, l.first, l.second).map(|g| (
            g.convergence,
            g.scale,
            g.half,
        )),
    };
    print_answer(rt, answer);
}

// Prints whether a correction of the minute's row may change the answer. Convergence and scale take nothing from a latitude row.
fn touch(rt: &HostRuntime, sheet: &[u8], minute: i32, asked: Option<Line>) {
    let Some(l) = asked else {
        return;
    };
    match l.form {
        Form::Forward => print_touch(
            rt,
            touched::geographic_touched(sheet, minute, l.first, l.second),
        ),
        Form::Inverse => print_touch(rt, touched::plane_touched(sheet, minute, l.first, l.second)),
        Form::Convergence => {}
    }
}

// Prints the line and its answer; where the minute's row was corrected, also the answer after that, and whether the correction may change it.
fn ask(rt: &HostRuntime, line: &[u8], before: &[u8], after: &[u8], corrected: bool, minute: i32) {
    let l = point_line::line_of(line);
    print(rt, line);
    print(rt, b":");
    answer(rt, before, l);
    if corrected {
        print(rt, b",");
        answer(rt, after, l);
        touch(rt, before, minute, l);
    }
    print(rt, b"\n");
}

// The same for every line of the list.
fn ask_each(
    rt: &HostRuntime,
    list: &[u8],
    before: &[u8],
    after: &[u8],
    corrected: bool,
    minute: i32,
) {
    for line in list.split(|b| *b == LINE_FEED) {
        if point_line::is_form(decimal::byte_at(line, 0)) {
            ask(rt, line, before, after, corrected, minute);
        }
    }
}

// ---- the script's lines

// Prints what a correction changed: the check's answer after it, and in how many bytes the sheet differs.
fn print_change(rt: &HostRuntime, before: &[u8], after: &[u8]) {
    print(rt, b" check ");
    print_check(rt, sheet_check::check(after));
    print(rt, b" bytes ");
    print_size(rt, differing(before, after) as u64);
    print(rt, b"\n");
}

// Corrects the sheet by the line, and prints the number, what it changed, and the list's lines.
fn correct(rt: &HostRuntime, line: &[u8], list: &[u8], sheet: &mut [u8]) {
    let mut space = files::sheet_room();
    let room: &mut [u8] = &mut space;
    let n = copy(sheet, room);
    let before = part(room, 0, n);
    let row = part(line, 2, line.len());
    let number = match row_line::correct_by(sheet, row) {
        Ok(()) => 0,
        Err(r) => r.number(),
    };
    print(rt, line);
    print(rt, b": ");
    print_size(rt, number as u64);
    print(rt, b"\n");
    print_change(rt, before, sheet);
    ask_each(
        rt,
        list,
        before,
        sheet,
        true,
        row_line::row_asked(row).map_or(0, |r| r.minute),
    );
}

// Puts the named file's bytes at the start of the sheet, zeros behind them, and answers how many there are.
fn load(rt: &HostRuntime, name: &[u8], sheet: &mut [u8]) -> usize {
    let mut space = files::sheet_room();
    let fresh: &mut [u8] = &mut space;
    let n = files::load(rt, name, fresh);
    copy(fresh, sheet);
    n
}

// Where the line names a word, changes it to the line's value; a word that the sheet lacks stays.
fn spoil(line: &[u8], sheet: &mut [u8]) {
    if decimal::byte_at(line, 0) != b'w' {
        return;
    }
    let Some(word) = fields::field_at(line, 5) else {
        return;
    };
    let Some(value) = fields::last_at(line, word.next) else {
        return;
    };
    let w = size(word.value) as usize;
    if w < sheet.len() / 4 {
        words::put_word(sheet, w, value.value);
    }
}

// How many of the sheet's bytes the line asks for: the number that it begins with, else all.
fn length_of(line: &[u8], all: usize) -> usize {
    decimal::number_at(line, 0).map_or(all, |n| size(n.value) as usize)
}

// Loads the named sheet, changes it as the line says, prints the check's answer to it, and answers its length.
fn judge(rt: &HostRuntime, line: &[u8], name: &[u8], sheet: &mut [u8]) -> usize {
    let all = load(rt, name, sheet);
    spoil(line, sheet);
    let n = length_of(line, all);
    print(rt, line);
    print(rt, b": ");
    print_check(rt, sheet_check::check(part(sheet, 0, n)));
    print(rt, b"\n");
    n
}

// Does what the line says, on the sheet of that length, and answers its length then. Lines that are noted or passed over do nothing here.
fn obey(
    rt: &HostRuntime,
    line: &[u8],
    name: &[u8],
    list: &[u8],
    sheet: &mut [u8],
    length: usize,
) -> usize {
    let first = decimal::byte_at(line, 0);
    if (first == 0) | (first == b'#') | (first == b'l') | point_line::is_form(first) {
        return length;
    }
    if first == b'a' {
        let s = part(sheet, 0, length);
        ask_each(rt, list, s, s, false, 0);
        return length;
    }
    if first == b'C' {
        if length <= sheet.len() {
            correct(rt, line, list, &mut sheet[0..length]);
        }
        return length;
    }
    judge(rt, line, name, sheet)
}

// Whether a line that begins with the byte is a file's name.
fn is_name(b: u8) -> bool {
    (b'a' < b) & (b <= b'z') & (b != b'l') & (b != b'w')
}

// Works through the script. The name and the list are the parts of it that were met last.
fn run(rt: &HostRuntime, script: &[u8]) {
    let mut space = files::sheet_room();
    let sheet: &mut [u8] = &mut space;
    let n = script.len();
    let mut name = 0;
    let mut name_end = 0;
    let mut list = 0;
    let mut list_end = 0;
    let mut count = 0;
    let mut at = 0;
    // `split` gives no places, and the name and the list are kept by theirs.
    while at < n {
        let end = stream::line_end(script, at, n);
        let line = part(script, at, end);
        let first = decimal::byte_at(line, 0);
        if is_name(first) {
            name = at;
            name_end = end;
        }
        if first == b'l' {
            list = end;
            list_end = end;
        }
        if point_line::is_form(first) {
            list_end = end;
        }
        let named = part(script, name, name_end);
        let listed = part(script, list, list_end);
        count = obey(rt, line, named, listed, sheet, count);
        at = end + 1;
    }
}

fn main(rt: HostRuntime) {
    let mut space = files::sheet_room();
    let script: &mut [u8] = &mut space;
    let n = files::read_full(&mut rt.stdin(), script);
    run(&rt, part(script, 0, n));
}
