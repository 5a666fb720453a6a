// The entries of a sheet's contents: the table of forms and kinds, what an entry says, and where each kind's body lies.
#![tactic(auto)]

ghost use Rattle.std.specs.Prelude.{◌≡◌, ◌+◌, ◌*◌, ◌<◌, ◌≤◌, length};
ghost use Rattle.words.specs.Words.{unsigned_at};
ghost use Rattle.entries.specs.Layout.{Small, HasContents, entry_words, most_kinds, most_first, most_width, first_body, least_bytes, form_named, names_form, width_of, usual_step, least_rows, most_rows};
ghost use Rattle.entries.specs.Entries.{entry_word, kind_at, start_at, rows_at, step_at, span_at, named, entry_of, form_of, place_of, places_of};

// A form of the contents: its kinds, each of which has one entry, and the words of an entry.
#[derive(Clone, Copy)]
pub struct Form {
    pub kinds: usize,
    pub words: usize,
}

// A sheet that is as long as the contents of its form, and that form.
#[derive(Clone, Copy)]
pub struct Contents<'a> {
    pub sheet: &'a [u8],
    pub form: Form,
    pub ghost there: { HasContents form sheet.now },
}

// Where a kind's body lies: the word at which it starts, its rows, and the step from a row to the next, in the point's unit.
#[derive(Clone, Copy)]
pub struct Place {
    pub start: usize,
    pub rows: usize,
    pub step: u64,
}

// Where each kind's body lies.
#[derive(Clone, Copy)]
pub struct Places {
    pub zone: Place,
    pub latitude: Place,
    pub longitude: Place,
    pub northing: Place,
    pub easting: Place,
    pub scale: Place,
}

// The kinds.
pub const ZONE: usize = 1;

pub const LATITUDE: usize = 2;

pub const LONGITUDE: usize = 3;

pub const NORTHING: usize = 4;

pub const EASTING: usize = 5;

pub const SCALE: usize = 6;

pub const LAST_KIND: usize = SCALE;

// The word of the first entry, and the words that every entry begins with: kind, start, rows.
pub const FIRST_ENTRY: usize = 1;

pub const ENTRY_WORDS: usize = 3;

// The most bytes of a sheet.
pub const MOST_BYTES: usize = 65_532;

// Words in a row, by kind.
pub const ZONE_WIDTH: usize = 2;

pub const LATITUDE_WIDTH: usize = 8;

pub const LONGITUDE_WIDTH: usize = 2;

pub const NORTHING_WIDTH: usize = 2;

pub const EASTING_WIDTH: usize = 1;

pub const SCALE_WIDTH: usize = 1;

// A minute of latitude, in 0.001″: the step of latitude.
pub const ONE_MINUTE: u64 = 60_000;

// By kind: the least rows and the most. There is no kind 0.
const ROWS: [(usize, usize); 7] = [
    (0, 0),
    (1, 1),
    (2, 1_200),
    (2, 61),
    (2, 100),
    (2, 10),
    (2, 200),
];

// The form that word 0 names; where it names none, the one by whose least length the sheet is judged.
fn form_named(word: usize) -> Form
    ensures { result ≡ form_named word }
{
    Form { kinds: 6, words: 3 }
}

// Whether word 0 names a form.
pub fn names_form(word: usize) -> bool
    ensures { result ≡ names_form word }
{
    word == 6
}

// Words in a row of the kind. This and the step are chains, not arrays: where the kind is known beforehand nothing is left of them.
pub fn width_of(kind: usize) -> usize
    requires { kind ≤ most_kinds }
    ensures { result ≡ width_of kind }
{
    if kind == 0 {
        return 0;
    }
    if kind == LATITUDE {
        return LATITUDE_WIDTH;
    }
    if kind < EASTING {
        return 2; // zone, longitude and northing
    }
    1
}

// The usual step from a row of the kind to the next, in the point's unit.
pub fn usual_step(kind: usize) -> u64
    ensures { result ≡ usual_step kind }
{
    if kind == LATITUDE {
        return ONE_MINUTE;
    }
    if kind == LONGITUDE {
        return 100_000;
    }
    if kind == NORTHING {
        return 10_000_000;
    }
    if kind == EASTING {
        return 5_000_000;
    }
    if kind == SCALE {
        return 500_000;
    }
    0
}

// The least rows that the kind may have.
pub fn least_rows(kind: usize) -> usize
    requires { kind ≤ most_kinds }
    ensures { result ≡ least_rows kind }
{
    ROWS[kind].0
}

// The most rows that the kind may have.
pub fn most_rows(kind: usize) -> usize
    requires { kind ≤ most_kinds }
    ensures { result ≡ most_rows kind }
{
    ROWS[kind].1
}

// Word i as a size, read without its sign.
pub fn count_at(s: &[u8], i: usize) -> usize
    requires { 4 * i + 4 ≤ length s.now }
    ensures { (result ≡ unsigned_at s.now i) × (result < 4_294_967_296) }
{
    words::unsigned_word(s, i) as usize
}

// The form of a sheet that has a word 0.
pub fn form_of(s: &[u8]) -> Form
    requires { 4 ≤ length s.now }
    ensures { result ≡ form_of s.now }
{
    form_named(count_at(s, 0))
}

// The word of the form's first body.
pub fn first_body(f: Form) -> usize
    requires { Small f }
    ensures { (result ≡ first_body f) × (result ≤ most_first) }
{
    f.words * f.kinds + FIRST_ENTRY
}

impl Contents<'_> {
    // Word j of entry e.
    fn word(self, e: usize, j: usize) -> usize
        requires { (e < self.form.kinds) × (j < entry_words) }
        ensures { (result ≡ entry_word self.entry.form self.entry.sheet.now e j) × (result < 4_294_967_296) }
    {
        count_at(self.sheet, self.form.words * e + FIRST_ENTRY + j)
    }

    // Entry e's kind.
    pub fn kind_at(self, e: usize) -> usize
        requires { e < self.form.kinds }
        ensures { (result ≡ kind_at self.entry.form self.entry.sheet.now e) × (result < 4_294_967_296) }
    {
        self.word(e, 0)
    }

    // The word at which entry e has its body start.
    pub fn start_at(self, e: usize) -> usize
        requires { e < self.form.kinds }
        ensures { (result ≡ start_at self.entry.form self.entry.sheet.now e) × (result < 4_294_967_296) }
    {
        self.word(e, 1)
    }

    // Entry e's rows.
    pub fn rows_at(self, e: usize) -> usize
        requires { e < self.form.kinds }
        ensures { (result ≡ rows_at self.entry.form self.entry.sheet.now e) × (result < 4_294_967_296) }
    {
        self.word(e, 2)
    }

    // The words of entry e's body.
    pub fn span_at(self, e: usize) -> usize
        requires { (e < self.form.kinds) × (kind_at self.form self.sheet.now e ≤ most_kinds) }
        ensures { (result ≡ span_at self.entry.form self.entry.sheet.now e) × (result < 4_294_967_296 * most_width) }
    {
        self.rows_at(e) * width_of(self.kind_at(e))
    }

    // The step of entry e's table.
    fn step_at(self, e: usize) -> u64
        requires { e < self.form.kinds }
        ensures { result ≡ step_at self.entry.form self.entry.sheet.now e }
    {
        usual_step(self.kind_at(e))
    }

    // Whether one of the first n entries names the kind.
    fn is_named(self, kind: usize, n: usize) -> bool
        requires { n ≤ self.form.kinds }
        ensures { result ≡ named self.entry.form self.entry.sheet.now kind n }
    {
        for e in (0..n).rev() {
            if self.kind_at(e) == kind {
                return true;
            }
        }
        false
    }

    // Whether an entry before e names e's kind.
    pub fn named_before(self, e: usize) -> bool
        requires { e < self.form.kinds }
        ensures { result ≡ named self.entry.form self.entry.sheet.now (kind_at self.entry.form self.entry.sheet.now e) e }
    {
        self.is_named(self.kind_at(e), e)
    }

    // Which entry names the kind.
    fn entry_of(self, kind: usize) -> usize
        ensures { (result ≡ entry_of self.entry.form self.entry.sheet.now kind self.entry.form.kinds) × (result < self.entry.form.kinds) }
    {
        for e in (0..self.form.kinds).rev() {
            if self.kind_at(e) == kind {
                return e;
            }
        }
        0
    }
}

// Where the kind's body lies.
pub fn place_of(s: &[u8], kind: usize) -> Place
    requires { least_bytes (form_of s.now) ≤ length s.now }
    ensures { result ≡ place_of s.now kind }
{
    let c = Contents {
        sheet: s,
        form: form_of(s),
    };
    let e = c.entry_of(kind);
    Place {
        start: c.start_at(e),
        rows: c.rows_at(e),
        step: c.step_at(e),
    }
}

// Where each kind's body lies.
pub fn places_of(s: &[u8]) -> Places
    requires { least_bytes (form_of s.now) ≤ length s.now }
    ensures { result ≡ places_of s.now }
{
    Places {
        zone: place_of(s, ZONE),
        latitude: place_of(s, LATITUDE),
        longitude: place_of(s, LONGITUDE),
        northing: place_of(s, NORTHING),
        easting: place_of(s, EASTING),
        scale: place_of(s, SCALE),
    }
}
