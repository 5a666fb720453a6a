// The judging of a correction of one latitude row: 16, then 6 and 8 by the check's own rules, or the row where it is accepted.
#![tactic(auto)]

ghost use Rattle.std.specs.Prelude.{◌≡◌, ◌*◌, ◌<◌, ◌≤◌, length, IfOk};
ghost use Rattle.refusals.specs.Numbers.{number};
ghost use Rattle.entries.specs.Layout.{latitude, row_bytes};
ghost use Rattle.minute_row.specs.MinuteRow.{named_row};
ghost use Rattle.judge.specs.Judge.{bound_before, bound_after, judged_by};

use refusals::Refusal;
use rules::Figures;

// Whether row r with the new figures keeps its bounds with the row before.
fn bound_before(b: &[u8], r: usize, f: Figures) -> bool
    requires { row_bytes latitude * r ≤ length b.now }
    ensures { result ≡ bound_before b.now r f }
{
    if 0 < r {
        return rules::within_bounds(latitude_rows::figures_at(b, r - 1), f);
    }
    true
}

// Whether row r of n with the new figures keeps its bounds with the row after.
fn bound_after(b: &[u8], n: usize, r: usize, f: Figures) -> bool
    requires { (row_bytes latitude * n ≤ length b.now) × (r < n) }
    ensures { result ≡ bound_after b.now n r f }
{
    if r + 1 < n {
        return rules::within_bounds(f, latitude_rows::figures_at(b, r + 1));
    }
    true
}

// The minute's row, where the new figures are accepted for it; else 16, 6 or 8.
pub fn judge(b: &[u8], n: usize, minute: i32, f: Figures) -> Result<usize, Refusal>
    requires { (0 < n) × (row_bytes latitude * n ≤ length b.now) }
    ensures number { number result ≡ judged_by b.now n minute f }
    ensures row { IfOk result (λ r. (r ≡ named_row b.now minute) × (r < n)) }
{
    let Some(r) = minute_row::named_row(b, n, minute) else {
        return Err(Refusal::NoRow);
    };
    if !rules::figures_in_range(f) {
        return Err(Refusal::Range);
    }
    if !bound_before(b, r, f) {
        return Err(Refusal::Bound);
    }
    if !bound_after(b, n, r, f) {
        return Err(Refusal::Bound);
    }
    Ok(r)
}
