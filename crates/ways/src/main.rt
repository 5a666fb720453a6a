// Runs the ways in on the sheet that its argument names, and on none. A line says what was asked, with the sheet's number of bytes, and the answer behind a colon.
// R: the reader of contents, an entry. B: the batch, words of points and of room; number, count, and 14 words of the memory. G, P, S: the tools' door.
// F: a count in feet. A float is the count that it is, if any, a stroke, and its 64 bits in hexadecimal.
#![tactic(auto)]

ghost use Rattle.std.specs.Prelude.{◌≡◌, ◌≤◌, length};

use door::{Point, TwoCounts};
use reader::Entry;
use refusals::Refusal;
use std::io::Print;
use std::rt::Env;

// Latitude and longitude of four points: the listing's two, one below the first latitude row, one past the last row of kind 3.
const POINTS: [i32; 8] = [
    77_430_000,
    568_250_000,
    77_430_000,
    568_800_000,
    77_399_999,
    568_250_000,
    77_430_000,
    567_299_999,
];

// Points at the door, each asked in all three ways. The listing's; −0 for y; 11 both ways; 12; 13; then points of which one float is no count.
const PAIRS: [[f64; 2]; 13] = [
    [77430000.0, 568250000.0],
    [55193582.0, 12413141.0],
    [51250000.0, 12413141.0],
    [50000000.0, -0.0],
    [77430000.0, 567299999.0],
    [65000000.0, 12413141.0],
    [65000001.0, 12413141.0],
    [51250000.0, -1.0],
    [0.5, 12413141.0],
    [55193582.0, 2147483648.0],
    [-2147483648.0, 12413141.0],
    [55193582.0, 1e300],
    [5e-324, 12413141.0],
];

// Counts of 0.01 ft.
const FEET: [i32; 5] = [12_413_141, -1, 0, 2_147_483_647, -2_147_483_648];

fn put(rt: &HostRuntime, b: u8) {
    let _ = Print::write_all(rt, &[b]);
}

// Numbers, each after a blank.
fn put_size(rt: &HostRuntime, n: u64) {
    put(rt, b' ');
    let _ = rt.print(n);
}

fn put_signed(rt: &HostRuntime, z: i32) {
    put(rt, b' ');
    let _ = rt.print(z);
}

// A float; a NaN has no bits here.
fn put_float(rt: &HostRuntime, x: f64) {
    if x.is_nan() {
        put(rt, b' ');
        put(rt, b'?');
        return;
    }
    let bits = x.to_bits();
    if let Some(n) = counts::whole_of(x) {
        put_signed(rt, n);
    } else {
        put(rt, b' ');
    }
    put(rt, b'/');
    let _ = print!(rt; "{bits:016x}");
}

// Words, and a line feed.
fn put_words(rt: &HostRuntime, words: &[i32]) {
    for word in words {
        put_signed(rt, *word);
    }
    put(rt, b'\n');
}

// ---- the reader of contents

// Kind, start and rows; a point for the end.
fn put_entry(rt: &HostRuntime, entry: Option<Entry>) {
    put(rt, b':');
    match entry {
        Some(e) => {
            put_size(rt, e.kind as u64);
            put_size(rt, e.start as u64);
            put_size(rt, e.rows as u64);
        }
        None => put(rt, b'.'),
    }
    put(rt, b'\n');
}

// Entries 0 to 6, the last past the end.
fn read_each(rt: &HostRuntime, sheet: &[u8]) {
    for e in 0..7 {
        put(rt, b'R');
        put_size(rt, sheet.len() as u64);
        put_size(rt, e as u64);
        put_entry(rt, reader::read_entry(sheet, e));
    }
}

// ---- the batch

// Memory that holds marks.
fn marks() -> [i32; 12291]
    ensures { 12291 ≡ length result }
{
    [-7; 12291]
}

// What was asked, and number and count.
fn put_batch(rt: &HostRuntime, bytes: u64, words: u64, room: u64, answer: Result<u32, Refusal>) {
    let (number, count) = match answer {
        Ok(count) => (0, count),
        Err(r) => (r.number(), 0),
    };
    put(rt, b'B');
    put_size(rt, bytes);
    put_size(rt, words);
    put_size(rt, room);
    put(rt, b':');
    put_size(rt, number as u64);
    put_size(rt, count as u64);
}

// A batch that is lent the first `room` words of the memory.
fn work(rt: &HostRuntime, sheet: &[u8], points: &[i32], memory: &mut [i32], room: usize)
    requires { (room ≤ length memory.old) × (14 ≤ length memory.old) }
{
    let answer = batch::batch(sheet, points, &mut memory[0..room]);
    put_batch(
        rt,
        sheet.len() as u64,
        points.len() as u64,
        room as u64,
        answer,
    );
    put_words(rt, &memory[0..14]);
}

// The points; then in one memory: an odd batch, too little room, a point too many, 76 zeros for a sheet, no point, all points.
fn batches(rt: &HostRuntime, sheet: &[u8], many: &[i32], memory: &mut [i32])
    requires { (8_194 ≤ length many.now) × (12_291 ≤ length memory.old) }
{
    let points: &[i32] = &POINTS;
    put_words(rt, points);
    work(rt, sheet, &points[0..7], memory, 14);
    work(rt, sheet, points, memory, 11);
    work(rt, sheet, &many[0..8194], memory, 12_291);
    work(rt, &[0; 76], points, memory, 14);
    work(rt, sheet, &points[0..0], memory, 14);
    work(rt, sheet, points, memory, 14);
}

// ---- the tools' door

fn put_asked(rt: &HostRuntime, letter: u8, bytes: u64, p: Point) {
    put(rt, letter);
    put_size(rt, bytes);
    put_float(rt, p.first);
    put_float(rt, p.second);
    put(rt, b':');
}

// Number and values, and the word half if some rounding met one; or the refusal number.
fn put_answer(rt: &HostRuntime, answer: Result<TwoCounts, Refusal>) {
    match answer {
        Ok(c) => {
            put_size(rt, 0);
            put_float(rt, c.first);
            put_float(rt, c.second);
            if c.half {
                let _ = Print::write_all(rt, b" half");
            }
        }
        Err(r) => put_size(rt, r.number() as u64),
    }
    put(rt, b'\n');
}

// A point in all three ways.
fn ask(rt: &HostRuntime, sheet: &[u8], p: Point) {
    let n = sheet.len() as u64;
    put_asked(rt, b'G', n, p);
    put_answer(rt, door::geographic_to_plane(sheet, p));
    put_asked(rt, b'P', n, p);
    put_answer(rt, door::plane_to_geographic(sheet, p));
    put_asked(rt, b'S', n, p);
    put_answer(rt, door::convergence_and_scale(sheet, p));
}

// The pairs; then a NaN, and infinity, which no constant holds.
fn ask_each(rt: &HostRuntime, sheet: &[u8], pairs: &[[f64; 2]]) {
    for [first, second] in pairs {
        ask(
            rt,
            sheet,
            Point {
                first: *first,
                second: *second,
            },
        );
    }
    ask(
        rt,
        sheet,
        Point {
            first: 0.0 / 0.0,
            second: 12413141.0,
        },
    );
    ask(
        rt,
        sheet,
        Point {
            first: 55193582.0,
            second: 1.0 / 0.0,
        },
    );
}

// Counts in feet.
fn feet(rt: &HostRuntime, counts: &[i32]) {
    for count in counts {
        put(rt, b'F');
        put_signed(rt, *count);
        put(rt, b':');
        put_float(rt, door::feet(*count));
        put(rt, b'\n');
    }
}

// ---- the program

// All of it on the first n bytes.
fn run(rt: &HostRuntime, space: &[u8], n: usize)
    requires { n ≤ length space.now }
{
    let sheet = &space[0..n];
    let none = &space[0..0];
    let mut memory = marks();
    read_each(rt, sheet);
    read_each(rt, none);
    batches(rt, sheet, &marks(), &mut memory);
    ask_each(rt, sheet, &PAIRS);
    ask_each(rt, none, &PAIRS);
    feet(rt, &FEET);
}

fn main(rt: HostRuntime) {
    let mut path = [0u8; 4096];
    let k = rt.arg(1, &mut path).unwrap_or(0);
    let mut space = files::sheet_room();
    if let Ok(mut file) = files::open(&rt, &path[..k]) {
        let n = files::read_full(&mut file, &mut space);
        run(&rt, &space, n);
    }
}
