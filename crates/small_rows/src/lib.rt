// The fault of one row of the small bodies, kind by kind: zone, longitude, northing, easting and scale. A row is read by one function and judged by another, which reads nothing.
#![tactic(auto)]

ghost use Rattle.std.specs.Prelude.{◌≡◌, ◌+◌, ◌*◌, ◌≤◌, length};
ghost use Rattle.refusals.specs.Numbers.{number};
ghost use Rattle.entries.specs.Layout.{zone, longitude, northing, easting, scale, row_bytes};
ghost use Rattle.small_rows.specs.SmallRows.{zone_at, longitude_at, northing_at, easting_at, scale_at, zero_where, zone_row_fault, longitude_row_fault, northing_row_fault, easting_row_fault, scale_row_fault};

use refusals::Refusal;

// A zone row: central meridian and false easting.
#[derive(Clone, Copy)]
pub struct ZoneRow {
    pub central_meridian: i32,
    pub false_easting: i32,
}

// A longitude row: b and c.
#[derive(Clone, Copy)]
pub struct LongitudeRow {
    pub b: i32,
    pub c: i32,
}

// A northing row: P and M.
#[derive(Clone, Copy)]
pub struct NorthingRow {
    pub p: i32,
    pub m: i32,
}

// Zone row i.
pub fn zone_at(b: &[u8], i: usize) -> ZoneRow
    requires { row_bytes zone * i + row_bytes zone ≤ length b.now }
    ensures { result ≡ zone_at b.now i }
{
    ZoneRow {
        central_meridian: words::word(b, entries::ZONE_WIDTH * i),
        false_easting: words::word(b, entries::ZONE_WIDTH * i + 1),
    }
}

// Longitude row i.
pub fn longitude_at(b: &[u8], i: usize) -> LongitudeRow
    requires { row_bytes longitude * i + row_bytes longitude ≤ length b.now }
    ensures { result ≡ longitude_at b.now i }
{
    LongitudeRow {
        b: words::word(b, entries::LONGITUDE_WIDTH * i),
        c: words::word(b, entries::LONGITUDE_WIDTH * i + 1),
    }
}

// Northing row i.
pub fn northing_at(b: &[u8], i: usize) -> NorthingRow
    requires { row_bytes northing * i + row_bytes northing ≤ length b.now }
    ensures { result ≡ northing_at b.now i }
{
    NorthingRow {
        p: words::word(b, entries::NORTHING_WIDTH * i),
        m: words::word(b, entries::NORTHING_WIDTH * i + 1),
    }
}

// Easting row i: d.
pub fn easting_at(b: &[u8], i: usize) -> i32
    requires { row_bytes easting * i + row_bytes easting ≤ length b.now }
    ensures { result ≡ easting_at b.now i }
{
    words::word(b, entries::EASTING_WIDTH * i)
}

// Scale row i: k.
pub fn scale_at(b: &[u8], i: usize) -> i32
    requires { row_bytes scale * i + row_bytes scale ≤ length b.now }
    ensures { result ≡ scale_at b.now i }
{
    words::word(b, entries::SCALE_WIDTH * i)
}

// Whether x is 0, or its row is not the first.
fn zero_where(first: bool, x: i32) -> bool
    ensures { result ≡ zero_where first x }
{
    !first | refusals::in_range(0, x, 0)
}

// The fault of a zone row.
pub fn zone_row(row: ZoneRow) -> Result<(), Refusal>
    ensures { number result ≡ zone_row_fault row }
{
    if !refusals::in_range(6_000_000, row.central_meridian, 642_000_000) {
        return Err(Refusal::Range);
    }
    if !refusals::in_range(0, row.false_easting, 100_000_000) {
        return Err(Refusal::Range);
    }
    Ok(())
}

// The fault of a longitude row. first and last say whether it is the first of its body, or the last; where it is the last, next is not looked at.
pub fn longitude_row(
    row: LongitudeRow,
    next: LongitudeRow,
    first: bool,
    last: bool,
) -> Result<(), Refusal>
    ensures { number result ≡ longitude_row_fault row next first last }
{
    let b = row.b;
    let c = row.c;
    if !refusals::in_range(-20_000, b, 20_000) {
        return Err(Refusal::Range);
    }
    if !refusals::in_range(-2_000, c, 2_000) {
        return Err(Refusal::Range);
    }
    if !zero_where(first, b) {
        return Err(Refusal::Range);
    }
    if !zero_where(first, c) {
        return Err(Refusal::Range);
    }
    if !(last | rules::rises(b, next.b, -1_000, 1_000)) {
        return Err(Refusal::Bound);
    }
    Ok(())
}

// The fault of a northing row.
pub fn northing_row(row: NorthingRow) -> Result<(), Refusal>
    ensures { number result ≡ northing_row_fault row }
{
    if !refusals::in_range(0, row.p, 1_000_000) {
        return Err(Refusal::Range);
    }
    if !refusals::in_range(0, row.m, 1_000_000) {
        return Err(Refusal::Range);
    }
    Ok(())
}

// The fault of an easting row: d, and whether it is the first.
pub fn easting_row(d: i32, first: bool) -> Result<(), Refusal>
    ensures { number result ≡ easting_row_fault d first }
{
    if !refusals::in_range(-100, d, 100) {
        return Err(Refusal::Range);
    }
    if !zero_where(first, d) {
        return Err(Refusal::Range);
    }
    Ok(())
}

// The fault of a scale row: k.
pub fn scale_row(k: i32) -> Result<(), Refusal>
    ensures { number result ≡ scale_row_fault k }
{
    if !refusals::in_range(9_990_000, k, 10_010_000) {
        return Err(Refusal::Range);
    }
    Ok(())
}
