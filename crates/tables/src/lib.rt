// The figures of a sheet that passes the check, by name: at its rows and between them. Such a sheet is one value, `Passed`: its places and its origin are worked once.
#![tactic(auto)]

ghost use Rattle.std.specs.Prelude.{◌≡◌, ◌≢◌, true, ◌-◌, ◌^◌, ◌<◌, ◌≤◌, min, pos, nat_abs, MatchResult};
ghost use Rattle.std.specs.Int.Signed.{le_z};
ghost use Rattle.rounding.specs.Ranges.{most_h, most_v, most_a, most_b, most_c, most_p, most_m, most_d};
ghost use Rattle.entries.specs.Layout.{last_kind, latitude, longitude, northing, easting, scale, width_of};
ghost use Rattle.entries.specs.Entries.{rows_of};
ghost use Rattle.contents.specs.Contents.{verdict_told};
ghost use Rattle.sheet_check.specs.Check.{check_of, KnownToPass};
ghost use Rattle.reading.specs.Tables.{offset_of, NotNegative};
ghost use Rattle.row_search.specs.Rows.{last_not_above};
ghost use Rattle.tables.specs.Figures.{InTable, figure_of, figure_at, figure_half, central_meridian_of, false_easting_of, first_latitude_of, origin_of, y0_of, y0_at, y0_half, h_at, h_half, v_at, v_half, a_at, a_half, b_at, b_half, c_at, c_half, p_at, p_half, m_at, m_half, d_at, d_half, k_at, k_half};

use contents::{Refused, Table};
use entries::{EASTING, LATITUDE, LONGITUDE, NORTHING, Places, SCALE, ZONE};
use reading::At;
use rounding::Rounded;

// What a sheet's points are measured from: the latitude of row 0 and the central meridian, in 0.001″, and the false easting C, in 0.01 ft.
#[derive(Clone, Copy)]
pub struct Origin {
    pub first_latitude: i64,
    pub central_meridian: i64,
    pub false_easting: i64,
}

// A sheet that passes the check: its bytes, where each kind's body lies, and what its points are measured from.
#[derive(Clone, Copy)]
pub struct Passed<'a> {
    pub bytes: &'a [u8],
    pub places: Places,
    pub origin: Origin,
    pub ghost known: { KnownToPass bytes.now places },
    pub ghost measured: { origin ≡ origin_of bytes.now },
}

// ---- a sheet that passes

// The kind's table in a sheet known to pass, with its places.
fn table_of<'a>(sheet: &'a [u8], p: Places, kind: usize) -> Table<'a>
    requires { KnownToPass sheet.now p × (1 ≤ kind) × (kind ≤ last_kind) }
    ensures { (result.sheet.now ≡ sheet.now) × (result.kind ≡ kind) }
{
    let place = match kind {
        ZONE => p.zone,
        LATITUDE => p.latitude,
        LONGITUDE => p.longitude,
        NORTHING => p.northing,
        EASTING => p.easting,
        _ => p.scale,
    };
    Table { sheet, kind, place }
}

impl<'a> Passed<'a> {
    // The kind's table.
    pub fn table(self, kind: usize) -> Table<'a>
        requires { (1 ≤ kind) × (kind ≤ last_kind) }
        ensures { (result.sheet.now ≡ self.entry.bytes.now) × (result.kind ≡ kind) }
    {
        table_of(self.bytes, self.places, kind)
    }
}

// ---- one figure

// The figure in row i of a column of the table, where it is not negative.
fn figure_of(t: Table, number: usize, i: usize) -> i64
    requires { (number < width_of t.kind) × (i < rows_of t.sheet.now t.kind) × (le_z (pos 0) (figure_of t.sheet.now t.kind number i) ≡ true) }
    ensures { result ≡ figure_of t.entry.sheet.now t.entry.kind number i }
{
    words::unsigned_word(t.body(), entries::width_of(t.kind) * i + number) as i64
}

// The figure of a column at a position in the table.
fn value_by(t: Table, number: usize, at: At) -> Rounded<i64>
    requires { (number < width_of t.kind) × InTable t.sheet.now t.kind at }
    ensures { (result.value ≡ figure_at t.entry.sheet.now t.entry.kind number (offset_of at)) × (result.half ≡ figure_half t.entry.sheet.now t.entry.kind number (offset_of at)) }
{
    reading::past_row(t.body(), entries::width_of(t.kind), number, at)
}

// The same of a column in which no figure is negative.
fn size_by(t: Table, number: usize, at: At) -> Rounded<u64>
    requires { (number < width_of t.kind) × InTable t.sheet.now t.kind at × NotNegative (figure_of t.sheet.now t.kind number) (rows_of t.sheet.now t.kind) }
    ensures { (pos result.value ≡ figure_at t.entry.sheet.now t.entry.kind number (offset_of at)) × (result.half ≡ figure_half t.entry.sheet.now t.entry.kind number (offset_of at)) }
{
    reading::size_past_row(t.body(), entries::width_of(t.kind), number, at)
}

// A size as a number with a sign.
fn signed(r: Rounded<u64>) -> Rounded<i64>
    requires { r.value < 2 ^ 63 }
    ensures { (result.value ≡ pos r.value) × (result.half ≡ r.half) }
{
    Rounded {
        value: r.value as i64,
        half: r.half,
    }
}

// ---- the origin

// The central meridian, in 0.001″.
fn central_meridian(sheet: &[u8], p: Places) -> i64
    requires { KnownToPass sheet.now p }
    ensures { (result ≡ central_meridian_of sheet.now) × (nat_abs result ≤ 642_000_000) }
{
    figure_of(table_of(sheet, p, ZONE), 0, 0)
}

// The false easting C, in 0.01 ft.
fn false_easting(sheet: &[u8], p: Places) -> i64
    requires { KnownToPass sheet.now p }
    ensures { (result ≡ false_easting_of sheet.now) × (nat_abs result ≤ 100_000_000) }
{
    figure_of(table_of(sheet, p, ZONE), 1, 0)
}

// The latitude of row 0, in 0.001″.
pub fn first_latitude(sheet: &[u8], p: Places) -> i64
    requires { KnownToPass sheet.now p }
    ensures { (result ≡ first_latitude_of sheet.now) × (nat_abs result ≤ 324_000_000) }
{
    figure_of(table_of(sheet, p, LATITUDE), 0, 0) * (entries::ONE_MINUTE as i64)
}

// The origin of a sheet known to pass, with its places.
pub fn origin_of(sheet: &[u8], p: Places) -> Origin
    requires { KnownToPass sheet.now p }
    ensures { result ≡ origin_of sheet.now }
{
    let first = first_latitude(sheet, p);
    let central = central_meridian(sheet, p);
    Origin {
        first_latitude: first,
        central_meridian: central,
        false_easting: false_easting(sheet, p),
    }
}

// A sheet known to pass, with its places and its origin.
pub fn known<'a>(sheet: &'a [u8], places: Places) -> Passed<'a>
    requires { KnownToPass sheet.now places }
    ensures { result.bytes.now ≡ sheet.now }
{
    Passed {
        bytes: sheet,
        places,
        origin: origin_of(sheet, places),
    }
}

// The sheet where it passes the check; else why it does not.
pub fn pass<'a>(sheet: &'a [u8]) -> Result<Passed<'a>, Refused>
    ensures { MatchResult result (λ p. p.bytes.now ≡ sheet.now) (λ e. verdict_told (Err e) ≡ check_of sheet.now) }
{
    sheet_check::check(sheet)?;
    Ok(known(sheet, entries::places_of(sheet)))
}

// y0 in latitude row i, in 0.01 ft.
pub fn y0_of(sheet: Passed, i: usize) -> i64
    requires { (i < rows_of sheet.bytes.now latitude) }
    ensures { (result ≡ y0_of sheet.entry.bytes.now i) × (nat_abs result ≤ 999_999_999) }
{
    figure_of(sheet.table(LATITUDE), 1, i)
}

// Of the first n latitude rows, the last with y0 not above z. z is not below the first y0. The first look takes every row to rise by the middle of the two bounds.
fn row_among(sheet: Passed, n: usize, z: i64) -> usize
    requires { (0 < n) × (n ≤ rows_of sheet.bytes.now latitude) × (le_z (y0_of sheet.bytes.now 0) z ≡ true) × (nat_abs z < 2 ^ 62) }
    ensures { (result ≡ last_not_above (y0_of sheet.entry.bytes.now) n z) × (result < n) }
{
    let b = sheet.table(LATITUDE).body();
    let rise = (rules::LEAST_RISE as u64 + rules::MOST_RISE as u64) / 2;
    row_search::last_not_above(b, entries::LATITUDE_WIDTH, 1, n, rise, z)
}

// The last latitude row with y0 not above z, which is not below the first.
pub fn row_of_northing(sheet: Passed, z: i64) -> usize
    requires { (le_z (y0_of sheet.bytes.now 0) z ≡ true) × (nat_abs z < 2 ^ 62) }
    ensures { (result ≡ last_not_above (y0_of sheet.entry.bytes.now) (rows_of sheet.entry.bytes.now latitude) z) × (result < rows_of sheet.entry.bytes.now latitude) }
{
    row_among(sheet, sheet.places.latitude.rows, z)
}

// The same row, or the one before it where that is the last, so that there is a next: the last row is not looked at.
pub fn row_with_next(sheet: Passed, z: i64) -> usize
    requires { (le_z (y0_of sheet.bytes.now 0) z ≡ true) × (nat_abs z < 2 ^ 62) }
    ensures { result ≡ min (last_not_above (y0_of sheet.entry.bytes.now) (rows_of sheet.entry.bytes.now latitude) z) (rows_of sheet.entry.bytes.now latitude - 2) }
{
    row_among(sheet, sheet.places.latitude.rows - 1, z)
}

// y0 at a latitude, in 0.01 ft. Here and below `at` is a position in the table that has the figure.
pub fn y0_at(sheet: Passed, at: At) -> Rounded<i64>
    requires { InTable sheet.bytes.now latitude at }
    ensures { (result.value ≡ y0_at sheet.entry.bytes.now (offset_of at)) × (nat_abs result.value ≤ 999_999_999) × (result.half ≡ y0_half sheet.entry.bytes.now (offset_of at)) }
{
    signed(size_by(sheet.table(LATITUDE), 1, at))
}

// H, in 0.000001.
pub fn h_at(sheet: Passed, at: At) -> Rounded<u64>
    requires { InTable sheet.bytes.now latitude at }
    ensures { (result.value ≡ h_at sheet.entry.bytes.now (offset_of at)) × (30_000_000 ≤ result.value) × (result.value ≤ most_h) × (result.half ≡ h_half sheet.entry.bytes.now (offset_of at)) }
{
    size_by(sheet.table(LATITUDE), 3, at)
}

// V, in 0.000001.
pub fn v_at(sheet: Passed, at: At) -> Rounded<u64>
    requires { InTable sheet.bytes.now latitude at }
    ensures { (result.value ≡ v_at sheet.entry.bytes.now (offset_of at)) × (result.value ≤ most_v) × (result.half ≡ v_half sheet.entry.bytes.now (offset_of at)) }
{
    size_by(sheet.table(LATITUDE), 5, at)
}

// a, in 0.001.
pub fn a_at(sheet: Passed, at: At) -> Rounded<i64>
    requires { InTable sheet.bytes.now latitude at }
    ensures { (result.value ≡ a_at sheet.entry.bytes.now (offset_of at)) × (nat_abs result.value ≤ most_a) × (result.half ≡ a_half sheet.entry.bytes.now (offset_of at)) }
{
    value_by(sheet.table(LATITUDE), 7, at)
}

// b at a size of L, in 0.001.
pub fn b_at(sheet: Passed, at: At) -> Rounded<i64>
    requires { InTable sheet.bytes.now longitude at }
    ensures { (result.value ≡ b_at sheet.entry.bytes.now (offset_of at)) × (nat_abs result.value ≤ most_b) × (result.half ≡ b_half sheet.entry.bytes.now (offset_of at)) }
{
    value_by(sheet.table(LONGITUDE), 0, at)
}

// c, in 0.001 ft.
pub fn c_at(sheet: Passed, at: At) -> Rounded<i64>
    requires { InTable sheet.bytes.now longitude at }
    ensures { (result.value ≡ c_at sheet.entry.bytes.now (offset_of at)) × (nat_abs result.value ≤ most_c) × (result.half ≡ c_half sheet.entry.bytes.now (offset_of at)) }
{
    value_by(sheet.table(LONGITUDE), 1, at)
}

// P at y, in 0.00001.
pub fn p_at(sheet: Passed, at: At) -> Rounded<u64>
    requires { InTable sheet.bytes.now northing at }
    ensures { (result.value ≡ p_at sheet.entry.bytes.now (offset_of at)) × (result.value ≤ most_p) × (result.half ≡ p_half sheet.entry.bytes.now (offset_of at)) }
{
    size_by(sheet.table(NORTHING), 0, at)
}

// M at y, in 10⁻⁷.
pub fn m_at(sheet: Passed, at: At) -> Rounded<u64>
    requires { InTable sheet.bytes.now northing at }
    ensures { (result.value ≡ m_at sheet.entry.bytes.now (offset_of at)) × (result.value ≤ most_m) × (result.half ≡ m_half sheet.entry.bytes.now (offset_of at)) }
{
    size_by(sheet.table(NORTHING), 1, at)
}

// d at a size of x', in 0.01 ft.
pub fn d_at(sheet: Passed, at: At) -> Rounded<i64>
    requires { InTable sheet.bytes.now easting at }
    ensures { (result.value ≡ d_at sheet.entry.bytes.now (offset_of at)) × (nat_abs result.value ≤ most_d) × (result.half ≡ d_half sheet.entry.bytes.now (offset_of at)) }
{
    value_by(sheet.table(EASTING), 0, at)
}

// k at a size of x', in 10⁻⁷.
pub fn k_at(sheet: Passed, at: At) -> Rounded<i64>
    requires { InTable sheet.bytes.now scale at }
    ensures { (result.value ≡ k_at sheet.entry.bytes.now (offset_of at)) × (nat_abs result.value ≤ 10_010_000) × (result.half ≡ k_half sheet.entry.bytes.now (offset_of at)) }
{
    signed(size_by(sheet.table(SCALE), 0, at))
}
