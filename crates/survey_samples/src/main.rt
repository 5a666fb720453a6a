// Works the sources' samples: those of Indiana and Hawaii on their sheets, with the figures on the way, and those of Illinois and Vermont, of which there is no
// sheet, from the figures that their forms print. Prints the answers by the rules; a comment says where a form prints another.
#![tactic(auto)]

ghost use Rattle.std.specs.Prelude.{◌≡◌, true, ◌*◌, ◌<◌, ◌≤◌, T, pos, nat_abs, ◌+ℤ◌, ◌-ℤ◌, ◌*ℤ◌, length};
ghost use Rattle.std.specs.Int.Signed.{non_neg};
ghost use Rattle.rounding.specs.Ranges.{most_h, most_v, most_a, most_b, most_c, most_p, most_m, most_d, most_s, most_x, most_word};
ghost use Rattle.entries.specs.Layout.{latitude, longitude, easting};
ghost use Rattle.entries.specs.Entries.{Within};
ghost use Rattle.tables.specs.Figures.{InTable};
ghost use Rattle.extent.specs.Extent.{latitude_known, longitude_known, northing_known};

use lines::Values;
use reading::At;
use std::io::Print;
use std::rt::Env;
use tables::Passed;

// Latitude, longitude, x and y, each as the form prints it. Indiana, document 000.
const INDIANA: [[i32; 4]; 4] = [
    [142_884_840, 312_310_717, 59_296_992, 79_780_708], // Day
    [136_464_755, 315_704_075, 32_335_158, 14_873_267], // Welborn
    [142_366_419, 311_533_179, 65_407_170, 74_565_047], // Hall
    [138_377_646, 314_726_675, 40_239_808, 34_182_841], // Harvey, worked back only: forward x and y are each 0.01 ft less
];

// Hawaii, document 003.
const HAWAII: [[i32; 4]; 2] = [
    [70_284_578, 559_086_262, 56_827_006, 25_066_324], // Kulani
    [70_643_477, 561_556_911, 33_205_094, 28_706_835], // Kahela
];

fn print(rt: &HostRuntime, text: &[u8]) {
    let _ = Print::write_all(rt, text);
}

fn print_size(rt: &HostRuntime, name: &[u8], n: u64) {
    print(rt, name);
    let _ = rt.print(n);
}

// A name and a figure.
fn print_figure(rt: &HostRuntime, name: &[u8], z: i64) {
    print(rt, name);
    let _ = rt.print(z);
}

// Two numbers, each after a blank.
fn print_pair(rt: &HostRuntime, first: i32, second: i32) {
    print_figure(rt, b" ", first as i64);
    print_figure(rt, b" ", second as i64);
}

// A line, and its answer: letter and two numbers; number and two values; a line feed.
fn print_line(rt: &HostRuntime, letter: &[u8], first: i32, second: i32, answer: Values) {
    print(rt, letter);
    print_pair(rt, first, second);
    print_size(rt, b": ", answer.number as u64);
    print_pair(rt, answer.first, answer.second);
    print(rt, b"\n");
}

// ---- on a sheet

// What the sheet has at a latitude's position.
fn show_latitude(rt: &HostRuntime, sheet: Passed, at: At)
    requires { InTable sheet.bytes.now latitude at }
{
    print_figure(rt, b" y0 ", tables::y0_at(sheet, at).value);
    print_size(rt, b" H ", tables::h_at(sheet, at).value);
    print_size(rt, b" V ", tables::v_at(sheet, at).value);
    print_figure(rt, b" a ", tables::a_at(sheet, at).value);
}

// What it has at a size of L.
fn show_longitude(rt: &HostRuntime, sheet: Passed, size: u64)
    requires { Within sheet.bytes.now longitude size }
{
    let at = extent::position_of(sheet, entries::LONGITUDE, sheet.places.longitude.step, size);
    print_size(rt, b" q ", steps::q_of(size).value);
    print_figure(rt, b" b ", tables::b_at(sheet, at).value);
    print_figure(rt, b" c ", tables::c_at(sheet, at).value);
}

// The figures of the way forward, of a latitude and a longitude within the tables.
fn show_point(rt: &HostRuntime, sheet: Passed, latitude: i32, longitude: i32)
    requires { (latitude_known sheet.bytes.now latitude ≡ true) × (longitude_known sheet.bytes.now longitude ≡ true) }
{
    let t = extent::from_first(sheet, latitude) as u64;
    let l = extent::l_of(sheet, longitude);
    let north = extent::position_of(sheet, entries::LATITUDE, entries::ONE_MINUTE, t);
    show_latitude(rt, sheet, north);
    print_figure(rt, b" L ", l);
    show_longitude(rt, sheet, rounding::size(l));
    print(rt, b"\n");
}

// A station forward, with the figures on the way.
fn forward(rt: &HostRuntime, sheet: Passed, latitude: i32, longitude: i32) {
    let answer = convert::geographic_to_plane(sheet.bytes, latitude, longitude).into();
    print_line(rt, b"G", latitude, longitude, answer);
    if !extent::latitude_known(sheet, latitude) {
        return;
    }
    if !extent::longitude_known(sheet, longitude) {
        return;
    }
    show_point(rt, sheet, latitude, longitude);
}

// The figures of the way back as far as the reduced northing, at the size x of x' and y.
fn show_reduction(rt: &HostRuntime, sheet: Passed, x: u64, y: i32)
    requires { Within sheet.bytes.now easting x × (northing_known sheet.bytes.now y ≡ true) }
{
    let read = inverse::for_reduction(sheet, x, y);
    print_size(rt, b" P ", read.p.value);
    print_figure(rt, b" d ", read.d.value);
    print_figure(
        rt,
        b" reduction ",
        steps::reduction(read.p.value, x, read.d.value).value,
    );
    print_figure(rt, b" reduced ", inverse::reduced_of(read, x, y).value);
    print(rt, b"\n");
}

// A station back, with the figures on the way.
fn back(rt: &HostRuntime, sheet: Passed, x: i32, y: i32) {
    let answer = convert::plane_to_geographic(sheet.bytes, x, y).into();
    print_line(rt, b"P", x, y, answer);
    let xp = extent::x_prime(sheet, x);
    if !extent::easting_known(sheet, xp) {
        return;
    }
    if !extent::northing_known(sheet, y) {
        return;
    }
    show_reduction(rt, sheet, rounding::size(xp), y);
}

// A station, at its latitude, longitude, x and y: forward, back, and its convergence and scale.
fn station(rt: &HostRuntime, sheet: Passed, point: [i32; 4]) {
    forward(rt, sheet, point[0], point[1]);
    back(rt, sheet, point[2], point[3]);
    let answer = convert::convergence_and_scale(sheet.bytes, point[2], point[3]).into();
    print_line(rt, b"S", point[2], point[3], answer);
}

// Every station of a table.
fn station_each(rt: &HostRuntime, sheet: Passed, points: &[[i32; 4]]) {
    for point in points {
        station(rt, sheet, *point);
    }
}

// The stations on the sheet's first n bytes, where they pass the check.
fn work(rt: &HostRuntime, sheet: &[u8], n: usize, points: &[[i32; 4]])
    requires { n ≤ length sheet.now }
{
    if let Ok(passed) = tables::pass(&sheet[0..n]) {
        station_each(rt, passed, points);
    }
}

// Puts the file's bytes at the start of sheet, and answers how many there are; none for a file that cannot be opened.
fn load(rt: &HostRuntime, name: &[u8], sheet: &mut [u8]) -> usize
    ensures { result ≤ length sheet.new }
{
    match files::open(rt, name) {
        Ok(mut file) => files::read_full(&mut file, sheet),
        Err(_) => 0,
    }
}

// Loads the sheet that argument i names, prints its name, and works the stations.
fn work_sheet(rt: &HostRuntime, i: usize, points: &[[i32; 4]]) {
    let mut path = [0u8; 4096];
    let k = rt.arg(i, &mut path).unwrap_or(0);
    let name = &path[..k];
    print(rt, name);
    print(rt, b"\n");
    let mut space = files::sheet_room();
    let sheet: &mut [u8] = &mut space;
    let n = load(rt, name, sheet);
    work(rt, sheet, n, points);
}

// ---- from printed figures

// The steps forward: q, the size of x', and the rise.
fn step_forward(rt: &HostRuntime, s: u64, h: u64, v: u64, a: i64, b: i64, c: i64)
    requires { (s ≤ most_s) × (h ≤ most_h) × (v ≤ most_v) × (nat_abs a ≤ most_a) × (nat_abs b ≤ most_b) × (nat_abs c ≤ most_c) × T (non_neg (pos (h * s) +ℤ a *ℤ b *ℤ pos 1_000)) }
{
    let q = steps::q_of(s).value;
    print_size(rt, b": q ", q);
    print_size(rt, b" x ", steps::size_of_x(h, s, a, b).value);
    print_figure(rt, b" rise ", steps::rise(v, q, c).value);
}

// The steps back: the reduction, approximate L, and the size of L.
fn step_back(rt: &HostRuntime, x: u64, h: u64, a: i64, b: i64, p: u64, d: i64)
    requires { (x ≤ most_x) × (0 < h) × (h ≤ most_h) × (nat_abs a ≤ most_a) × (nat_abs b ≤ most_b) × (p ≤ most_p) × (nat_abs d ≤ most_d) × T (non_neg (pos (x * 10_000) -ℤ a *ℤ b)) }
{
    print_figure(rt, b" reduction ", steps::reduction(p, x, d).value);
    print_size(rt, b" approximate ", steps::approximate_l(x, h).value);
    print_size(rt, b" L ", steps::size_of_l(x, a, b, h).value);
}

// Δα.
fn step_across(rt: &HostRuntime, m: u64, x: i64)
    requires { (m ≤ most_m) × (nat_abs x ≤ most_word) }
{
    print_figure(rt, b" convergence ", steps::convergence(m, x).value);
    print(rt, b"\n");
}

// Illinois, document 001: Naper and King.
fn illinois(rt: &HostRuntime) {
    print(rt, b"Naper");
    step_forward(rt, 773_210, 75_777_729, 1_223_859, -367, 1_596, -13);
    step_back(rt, 5_859_151, 75_777_729, -367, 1_596, 213_085, 0);
    step_across(rt, 87_908, 5_859_151);
    print(rt, b"King");
    step_forward(rt, 1_295_208, 76_992_654, 1_217_932, -492, 2_545, -38);
    step_back(rt, 9_972_025, 76_992_654, -492, 2_545, 205_416, 1);
    step_across(rt, 84_745, -9_972_025);
}

// Vermont, document 002: Stowell and Irish. Irish's form has a Δα of 0.1″ less in size, since Vermont takes off e, and the rules, by document 003, do not.
fn vermont(rt: &HostRuntime) {
    print(rt, b"Stowell");
    step_forward(rt, 28_582, 74_110_975, 1_229_237, -726, 17, 0);
    step_back(rt, 211_823, 74_110_975, -726, 17, 223_754, 0);
    step_across(rt, 92_311, 211_823);
    print(rt, b"Irish");
    step_forward(rt, 2_526_978, 72_635_503, 1_231_546, -263, 1_098, -107);
    step_back(rt, 18_354_803, 72_635_503, -263, 1_098, 233_389, 2);
    step_across(rt, 96_287, -18_354_803);
}

fn main(rt: HostRuntime) {
    work_sheet(&rt, 1, &INDIANA);
    work_sheet(&rt, 2, &HAWAII);
    illinois(&rt);
    vermont(&rt);
}
