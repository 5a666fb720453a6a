// The check of a sheet: its contents, then its bodies by kind and row, each body a part of the sheet that its kind's checker judges.
#![tactic(auto)]

ghost use Rattle.std.specs.Prelude.{◌≡◌, ◌*◌, ◌<◌, ◌≤◌, length};
ghost use Rattle.refusals.specs.Numbers.{number};
ghost use Rattle.refusals.specs.Faults.{first_told, first_fault};
ghost use Rattle.entries.specs.Layout.{latitude, longitude, last_kind, width_of, row_bytes};
ghost use Rattle.contents.specs.Contents.{verdict_told, contents_of};
ghost use Rattle.latitude_rows.specs.Rows.{latitude_fault};
ghost use Rattle.small_rows.specs.SmallRows.{longitude_fault};
ghost use Rattle.sheet_check.specs.Check.{row_fault, fault_of, check_of};

use contents::{Refused, Table};
use refusals::{Found, Refusal};

// The fault of longitude row i, one of n. The last row has no next.
fn longitude_fault(b: &[u8], n: usize, i: usize) -> Result<(), Refusal>
    requires { (row_bytes longitude * n ≤ length b.now) × (i < n) }
    ensures { number result ≡ longitude_fault b.now n i }
{
    let row = small_rows::longitude_at(b, i);
    if i + 1 < n {
        let next = small_rows::longitude_at(b, i + 1);
        return small_rows::longitude_row(row, next, i == 0, false);
    }
    small_rows::longitude_row(row, row, i == 0, true)
}

// The fault of row i of a body with n rows, of any kind but latitude: the row is read, and goes to its kind's checker.
fn row_fault(kind: usize, b: &[u8], n: usize, i: usize) -> Result<(), Refusal>
    requires { (1 ≤ kind) × (kind ≤ last_kind) × (kind ≡ latitude → ⊥) × (4 * (n * width_of kind) ≤ length b.now) × (i < n) }
    ensures { number result ≡ row_fault kind b.now n i }
{
    if kind == entries::ZONE {
        return small_rows::zone_row(small_rows::zone_at(b, i));
    }
    if kind == entries::LONGITUDE {
        return longitude_fault(b, n, i);
    }
    if kind == entries::NORTHING {
        return small_rows::northing_row(small_rows::northing_at(b, i));
    }
    if kind == entries::EASTING {
        return small_rows::easting_row(small_rows::easting_at(b, i), i == 0);
    }
    small_rows::scale_row(small_rows::scale_at(b, i))
}

// The first fault of a body with n rows, of any kind but latitude.
fn table(kind: usize, b: &[u8], n: usize) -> Result<(), Found>
    requires { (1 ≤ kind) × (kind ≤ last_kind) × (kind ≡ latitude → ⊥) × (4 * (n * width_of kind) ≤ length b.now) }
    ensures { first_told result ≡ first_fault (row_fault kind b.now n) n 0 }
{
    for i in 0..n {
        if let Err(refusal) = row_fault(kind, b, n, i) {
            return Err(Found { refusal, place: i });
        }
    }
    Ok(())
}

// The first fault of a latitude body of n rows. Each row is read once: it is judged beside the next, and the next then takes its place.
fn latitude(b: &[u8], n: usize) -> Result<(), Found>
    requires { (row_bytes latitude * n ≤ length b.now) × (0 < n) }
    ensures { first_told result ≡ first_fault (latitude_fault b.now n) n 0 }
{
    let mut row = latitude_rows::row_at(b, 0);
    for i in 0..n - 1 {
        let next = latitude_rows::row_at(b, i + 1);
        if let Err(refusal) = latitude_rows::latitude_row(row, next) {
            return Err(Found { refusal, place: i });
        }
        row = next;
    }
    if let Err(refusal) = latitude_rows::last_latitude_row(row) {
        return Err(Found {
            refusal,
            place: n - 1,
        });
    }
    Ok(())
}

// The first fault of a body of the kind, with n rows.
fn body(kind: usize, b: &[u8], n: usize) -> Result<(), Found>
    requires { (1 ≤ kind) × (kind ≤ last_kind) × (4 * (n * width_of kind) ≤ length b.now) × (0 < n) }
    ensures { first_told result ≡ first_fault (row_fault kind b.now n) n 0 }
{
    if kind == entries::LATITUDE {
        return latitude(b, n);
    }
    table(kind, b, n)
}

// The first fault of the sheet's body of the kind, which is lent to its checker as the part of the sheet that holds it.
fn body_of(s: &[u8], kind: usize) -> Result<(), Found>
    requires { ((contents_of s.now).number ≡ 0) × (1 ≤ kind) × (kind ≤ last_kind) }
    ensures { first_told result ≡ fault_of s.now kind }
{
    let place = entries::place_of(s, kind);
    let table = Table {
        sheet: s,
        kind,
        place,
    };
    body(kind, table.body(), place.rows)
}

// The check: whether the sheet passes, and else the first fault, by its refusal, kind and row.
pub fn check(sheet: &[u8]) -> Result<(), Refused>
    ensures { verdict_told result ≡ check_of sheet.now }
{
    contents::contents(sheet)?;
    for kind in entries::ZONE..=entries::LAST_KIND {
        if let Err(found) = body_of(sheet, kind) {
            return Err(Refused {
                refusal: found.refusal,
                kind,
                row: found.place,
            });
        }
    }
    Ok(())
}
