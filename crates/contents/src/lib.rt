// The contents of a sheet: its length, word 0, the entries and the end, numbers 1 to 5; and each kind's body, once they have no fault.
#![tactic(auto)]

ghost use Rattle.std.specs.Prelude.{◌≡◌, ◌*◌, ◌<◌, ◌≤◌, length, eqb};
ghost use Rattle.words.specs.Words.{unsigned_at};
ghost use Rattle.refusals.specs.Numbers.{number};
ghost use Rattle.refusals.specs.Faults.{first_told, first_fault};
ghost use Rattle.entries.specs.Layout.{most_kinds, least_rows, most_rows, names_form, width_of};
ghost use Rattle.entries.specs.Entries.{kind_at, start_at, rows_at, due_at, body_of};
ghost use Rattle.contents.specs.Contents.{within, entry_fault, sized, ends, verdict_told, numbers_of, contents_by, contents_of, Placed};

use entries::{Contents, Place};
use refusals::{Found, Refusal};

// Why a sheet does not pass: the refusal, and its kind and row. A fault of length, word 0 or contents has kind 0 and, as row, the entry's place counted from 1: 0 for length and word 0, one
// past the last entry for the end.
#[derive(Clone, Copy)]
pub struct Refused {
    pub refusal: Refusal,
    pub kind: usize,
    pub row: usize,
}

// Whether n is from least to most.
fn is_within(least: usize, n: usize, most: usize) -> bool
    ensures { result ≡ within least n most }
{
    (least <= n) & (n <= most)
}

// Whether entry e names one of the form's kinds.
fn names_kind(c: Contents, e: usize) -> bool
    requires { e < c.form.kinds }
    ensures { result ≡ within 1 (kind_at c.entry.form c.entry.sheet.now e) c.entry.form.kinds }
{
    is_within(1, c.kind_at(e), c.form.kinds)
}

// Whether entry e's rows are within its kind's limits.
fn rows_allowed(c: Contents, e: usize) -> bool
    requires { (e < c.form.kinds) × (kind_at c.form c.sheet.now e ≤ most_kinds) }
    ensures { result ≡ within (least_rows (kind_at c.entry.form c.entry.sheet.now e)) (rows_at c.entry.form c.entry.sheet.now e) (most_rows (kind_at c.entry.form c.entry.sheet.now e)) }
{
    let kind = c.kind_at(e);
    is_within(
        entries::least_rows(kind),
        c.rows_at(e),
        entries::most_rows(kind),
    )
}

// Whether entry e has its body start at the word due, where it has to.
fn starts_at(c: Contents, e: usize, due: usize) -> bool
    requires { (e < c.form.kinds) × (due ≡ due_at c.form c.sheet.now e) }
    ensures { result ≡ eqb (start_at c.entry.form c.entry.sheet.now e) (due_at c.entry.form c.entry.sheet.now e) }
{
    c.start_at(e) == due
}

// Entry e's fault; due is the word at which its body has to start.
fn entry_fault(c: Contents, e: usize, due: usize) -> Result<(), Refusal>
    requires { (e < c.form.kinds) × (due ≡ due_at c.form c.sheet.now e) }
    ensures { number result ≡ entry_fault c.entry.form c.entry.sheet.now e }
{
    if !names_kind(c, e) {
        return Err(Refusal::Kind);
    }
    if c.named_before(e) {
        return Err(Refusal::Repeated);
    }
    if !rows_allowed(c, e) {
        return Err(Refusal::Rows);
    }
    if !starts_at(c, e, due) {
        return Err(Refusal::Place);
    }
    Ok(())
}

// The first fault of the entries.
fn entries(c: Contents) -> Result<(), Found>
    ensures { first_told result ≡ first_fault (entry_fault c.entry.form c.entry.sheet.now) c.entry.form.kinds 0 }
{
    let mut due = entries::first_body(c.form);
    for e in 0..c.form.kinds {
        if let Err(refusal) = entry_fault(c, e, due) {
            return Err(Found { refusal, place: e });
        }
        due += c.span_at(e);
    }
    Ok(())
}

// Whether the last entry's body ends the sheet, where no entry has a fault.
fn ends_sheet(c: Contents) -> bool
    requires { (first_fault (entry_fault c.form c.sheet.now) c.form.kinds 0).number ≡ 0 }
    ensures { result ≡ ends c.entry.form c.entry.sheet.now }
{
    let last = c.form.kinds - 1;
    let end = c.start_at(last) + c.span_at(last);
    4 * end == c.sheet.len()
}

// Whether the sheet has a length that a sheet of its form may have.
fn is_sized(s: &[u8]) -> bool
    ensures { result ≡ sized s.now }
{
    let n = s.len();
    if n < 4 {
        return false; // no word 0
    }
    let least = 4 * entries::first_body(entries::form_of(s));
    is_within(least, n, entries::MOST_BYTES) & (n % 4 == 0)
}

// Whether word 0 names a form.
fn is_known(s: &[u8]) -> bool
    requires { 4 ≤ length s.now }
    ensures { result ≡ names_form (unsigned_at s.now 0) }
{
    entries::names_form(entries::count_at(s, 0))
}

// The first fault of the entries of a form and the end.
fn contents_by(c: Contents) -> Result<(), Refused>
    ensures { verdict_told result ≡ contents_by c.entry.form c.entry.sheet.now }
{
    if let Err(found) = entries(c) {
        return Err(Refused {
            refusal: found.refusal,
            kind: 0,
            row: found.place + 1,
        });
    }
    if !ends_sheet(c) {
        return Err(Refused {
            refusal: Refusal::Place,
            kind: 0,
            row: c.form.kinds + 1,
        });
    }
    Ok(())
}

// The first fault of length, word 0, the entries and the end.
pub fn contents(s: &[u8]) -> Result<(), Refused>
    ensures { verdict_told result ≡ contents_of s.now }
{
    if !is_sized(s) {
        return Err(Refused {
            refusal: Refusal::Length,
            kind: 0,
            row: 0,
        });
    }
    if !is_known(s) {
        return Err(Refused {
            refusal: Refusal::Kind,
            kind: 0,
            row: 0,
        });
    }
    contents_by(Contents {
        sheet: s,
        form: entries::form_of(s),
    })
}

// The table of a kind in a sheet whose contents have no fault: the sheet, the kind, and where its body lies.
#[derive(Clone, Copy)]
pub struct Table<'a> {
    pub sheet: &'a [u8],
    pub kind: usize,
    pub place: Place,
    pub ghost placed: { Placed sheet.now kind place },
}

impl<'a> Table<'a> {
    // The table's body, as the part of the sheet that holds its rows. Everyone who reads or judges a body gets it here.
    pub fn body(self) -> &'a [u8]
        ensures { (result.now ≡ body_of self.entry.sheet.now self.entry.kind) × (length result.now ≡ 4 * (self.entry.place.rows * width_of self.entry.kind)) }
    {
        let start = 4 * self.place.start;
        let end = start + 4 * (self.place.rows * entries::width_of(self.kind));
        &self.sheet[start..end]
    }
}

// The check's number, kind and row: those of a refusal, and zeros where there is none.
pub fn numbers(refused: Option<Refused>) -> (u32, usize, usize)
    ensures { result ≡ numbers_of refused }
{
    match refused {
        Some(r) => (r.refusal.number(), r.kind, r.row),
        None => (0, 0, 0),
    }
}

impl From<Refused> for Refusal {
    ghost from_gives = { λ r refusal. refusal ≡ r.refusal };

    fn from(r: Refused) -> Refusal {
        r.refusal
    }
}
