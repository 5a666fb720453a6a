// What writes a sheet: a latitude row's words, and the table of contents.
#![tactic(auto)]

ghost use Rattle.std.specs.Prelude.{◌≡◌, ◌+◌, ◌*◌, ◌<◌, ◌≤◌, length};
ghost use Rattle.entries.specs.Layout.{latitude, row_bytes, HasContents};
ghost use Rattle.writing.specs.Rows.{put_figures, put_differences, put_row};
ghost use Rattle.writing.specs.Contents.{most_written, put_count, put_entry, put_entries, put_contents, Writable};

use entries::Form;
use rules::{Differences, Figures};

// The figures become row i's.
fn put_figures(b: &mut [u8], i: usize, f: Figures)
    requires { row_bytes latitude * i + row_bytes latitude ≤ length b.old }
    ensures { b.new ≡ put_figures b.old i f }
{
    words::put_word(b, entries::LATITUDE_WIDTH * i + 1, f.y0);
    words::put_word(b, entries::LATITUDE_WIDTH * i + 3, f.h);
    words::put_word(b, entries::LATITUDE_WIDTH * i + 5, f.v);
    words::put_word(b, entries::LATITUDE_WIDTH * i + 7, f.a);
}

// The differences become row i's.
pub fn put_differences(b: &mut [u8], i: usize, d: Differences)
    requires { row_bytes latitude * i + row_bytes latitude ≤ length b.old }
    ensures { b.new ≡ put_differences b.old i d }
{
    words::put_word(b, entries::LATITUDE_WIDTH * i + 2, d.y);
    words::put_word(b, entries::LATITUDE_WIDTH * i + 4, d.h);
    words::put_word(b, entries::LATITUDE_WIDTH * i + 6, d.v);
}

// The figures and the differences become row i's, which keeps its minute.
pub fn put_row(b: &mut [u8], i: usize, f: Figures, d: Differences)
    requires { row_bytes latitude * i + row_bytes latitude ≤ length b.old }
    ensures { b.new ≡ put_row b.old i f d }
{
    put_figures(b, i, f);
    put_differences(b, i, d);
}

// The size n becomes word i.
pub fn put_count(s: &mut [u8], i: usize, n: usize)
    requires { (4 * i + 4 ≤ length s.old) × (n ≤ most_written) }
    ensures { s.new ≡ put_count s.old i n }
{
    words::put_word(s, i, n as i32);
}

// Kind, start and rows become entry e's.
pub fn put_entry(s: &mut [u8], f: Form, e: usize, kind: usize, start: usize, rows: usize)
    requires { HasContents f s.old × (e < f.kinds) × (kind ≤ most_written) × (start ≤ most_written) × (rows ≤ most_written) }
    ensures { s.new ≡ put_entry f s.old e kind start rows }
{
    let at = f.words * e + entries::FIRST_ENTRY;
    put_count(s, at, kind);
    put_count(s, at + 1, start);
    put_count(s, at + 2, rows);
}

// Every entry, each body where the last ended.
fn put_entries(s: &mut [u8], f: Form, kinds: &[usize], rows: &[usize])
    requires { HasContents f s.old × Writable f kinds.now rows.now }
    ensures { s.new ≡ put_entries f s.old kinds.now rows.now f.kinds }
{
    let mut due = entries::first_body(f);
    for e in 0..f.kinds {
        let kind = kinds[e];
        let n = rows[e];
        put_entry(s, f, e, kind, due, n);
        due += n * entries::width_of(kind);
    }
}

// The table of contents: word 0, and an entry for each of the kinds, with its rows.
pub fn put_contents(s: &mut [u8], f: Form, word: usize, kinds: &[usize], rows: &[usize])
    requires { HasContents f s.old × (word ≤ most_written) × Writable f kinds.now rows.now }
    ensures { s.new ≡ put_contents f s.old word kinds.now rows.now }
{
    put_count(s, 0, word);
    put_entries(s, f, kinds, rows);
}
