// The correction of one latitude row: judged, then written with the differences that it moves.
#![tactic(auto)]

ghost use Rattle.std.specs.Prelude.{◌≡◌, true, ◌+◌, ◌*◌, ◌<◌, ◌≤◌, length};
ghost use Rattle.refusals.specs.Numbers.{number};
ghost use Rattle.entries.specs.Layout.{latitude, row_bytes};
ghost use Rattle.contents.specs.Contents.{contents_of};
ghost use Rattle.rules.specs.Latitude.{figures_in_range};
ghost use Rattle.writing.specs.Rows.{put_figures};
ghost use Rattle.judge.specs.Judge.{bound_before, bound_after, judged_by};
ghost use Rattle.correct.specs.Correction.{correction_of, worked_at, rewritten, corrected_body, figures, corrected_of};

use refusals::Refusal;
use rules::{Differences, Figures};

// The differences that row r of n has with figures f: those to the next row, and none in the last.
fn differences_after(b: &[u8], n: usize, r: usize, f: Figures) -> Differences
    requires { (row_bytes latitude * n ≤ length b.now) × (r < n) × (figures_in_range f ≡ true) × (bound_after b.now n r f ≡ true) }
    ensures { result ≡ worked_at (put_figures b.now r f) n r }
{
    if r + 1 < n {
        return rules::differences_of(f, latitude_rows::figures_at(b, r + 1));
    }
    rules::no_differences()
}

// Row r of n gets the new figures, and it and the row before it their differences. These are worked from the figures in hand, not from what was just written.
fn rewrite(b: &mut [u8], n: usize, r: usize, f: Figures)
    requires { (row_bytes latitude * n ≤ length b.old) × (r < n) × (figures_in_range f ≡ true) × (bound_before b.old r f ≡ true) × (bound_after b.old n r f ≡ true) }
    ensures { b.new ≡ rewritten b.old n r f }
{
    let own = differences_after(b, n, r, f);
    writing::put_row(b, r, f, own);
    if 0 < r {
        let before = rules::differences_of(latitude_rows::figures_at(b, r - 1), f);
        writing::put_differences(b, r - 1, before);
    }
}

// 16, 6 or 8, and the body of n rows stays; or the correction is accepted, and the minute's row has the new figures.
fn correct_body(b: &mut [u8], n: usize, minute: i32, f: Figures) -> Result<(), Refusal>
    requires { (0 < n) × (row_bytes latitude * n ≤ length b.old) }
    ensures answer { number result ≡ judged_by b.old n minute f }
    ensures memory { b.new ≡ corrected_body b.old n minute f }
{
    let r = judge::judge(b, n, minute, f)?;
    rewrite(b, n, r, f);
    Ok(())
}

// Ok where the contents have no fault; else the refusal, 1 to 5.
fn faultless(sheet: &[u8]) -> Result<(), Refusal>
    ensures { number result ≡ (contents_of sheet.now).number }
{
    contents::contents(sheet)?;
    Ok(())
}

// A correction of the minute's latitude row: new y0 (0.01 ft), H (0.000001), V (0.000001) and a (0.001). It is accepted and written; or refused by 1 to 5, 16, 6 or 8, and the
// sheet stays as it was. The latitude body is lent to its corrector as the part of the sheet that holds it.
pub fn correct(
    sheet: &mut [u8],
    minute: i32,
    y0: i32,
    h: i32,
    v: i32,
    a: i32,
) -> Result<(), Refusal>
    ensures answer { number result ≡ correction_of sheet.old minute (figures y0 h v a) }
    ensures memory { sheet.new ≡ corrected_of sheet.old minute (figures y0 h v a) }
{
    faultless(sheet)?;
    let place = entries::place_of(sheet, entries::LATITUDE);
    let start = 4 * place.start;
    let end = start + 4 * (place.rows * entries::LATITUDE_WIDTH);
    correct_body(
        &mut sheet[start..end],
        place.rows,
        minute,
        Figures { y0, h, v, a },
    )
}
