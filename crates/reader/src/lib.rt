// The reader of contents: it keeps the lent sheet and its place, a word number, as one small value. Each function over it takes it apart and leaves the work to a
// function on the slice and the number.
#![tactic(auto)]

ghost use Rattle.std.specs.Prelude.{◌≡◌};
ghost use Rattle.entries.specs.Layout.{first_entry};
ghost use Rattle.reader.specs.Read.{entry_at, entry_numbered};

// The lent sheet, and the word at which the next entry is read.
#[derive(Clone, Copy)]
pub struct Reader<'a> {
    pub sheet: &'a [u8],
    pub place: usize,
}

// An entry of the contents: kind, start (a word number) and rows, read without a sign and not judged.
#[derive(Clone, Copy)]
pub struct Entry {
    pub kind: u32,
    pub start: u32,
    pub rows: u32,
}

// The entry whose first word is at the place; none where the sheet ends before its third word.
pub fn entry_at(s: &[u8], place: usize) -> Option<Entry>
    ensures { result ≡ entry_at s.now place }
{
    let last = (s.len() / 4).checked_sub(entries::ENTRY_WORDS)?;
    if last < place {
        return None;
    }
    Some(Entry {
        kind: words::unsigned_word(s, place),
        start: words::unsigned_word(s, place + 1),
        rows: words::unsigned_word(s, place + 2),
    })
}

// A reader of the sheet, at the first entry.
pub fn new(sheet: &[u8]) -> Reader<'_>
    ensures { (result.sheet ≡ sheet.entry) × (result.place ≡ first_entry) }
{
    Reader {
        sheet,
        place: entries::FIRST_ENTRY,
    }
}

// The entry at the reader's place. The reader is a value: it stays where it is.
pub fn next(r: Reader<'_>) -> Option<Entry>
    ensures { result ≡ entry_at r.entry.sheet.now r.entry.place }
{
    entry_at(r.sheet, r.place)
}

// The reader moved to another place of the same sheet.
pub fn moved(r: Reader<'_>, place: usize) -> Reader<'_>
    ensures { (result.sheet ≡ r.entry.sheet) × (result.place ≡ place) }
{
    Reader { place, ..r }
}

// What a reader of the sheet reads at the place.
fn read_at(sheet: &[u8], place: usize) -> Option<Entry>
    ensures { result ≡ entry_at sheet.now place }
{
    next(moved(new(sheet), place))
}

// Entry e of the contents, counted from 0: as the check reads it, and none where the sheet or the contents have no entry e.
pub fn read_entry(sheet: &[u8], e: usize) -> Option<Entry>
    ensures { result ≡ entry_numbered sheet.now e }
{
    if sheet.len() < 4 {
        return None; // no word 0
    }
    let f = entries::form_of(sheet);
    if f.kinds <= e {
        return None;
    }
    read_at(sheet, f.words * e + entries::FIRST_ENTRY)
}
