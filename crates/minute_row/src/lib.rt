// The latitude row that a minute names: the first row's minute fixes its place, and its own minute must agree.
#![tactic(auto)]

ghost use Rattle.std.specs.Prelude.{◌≡◌, true, false, ◌*◌, ◌<◌, ◌≤◌, length, MatchOption};
ghost use Rattle.entries.specs.Layout.{latitude, row_bytes};
ghost use Rattle.minute_row.specs.MinuteRow.{from_first_minute, named_row, has_row};

// The place of the minute's row: how far the minute stands from the first row's.
fn from_first_minute(b: &[u8], minute: i32) -> i64
    requires { row_bytes latitude ≤ length b.now }
    ensures { result ≡ from_first_minute b.now minute }
{
    (minute as i64) - (words::word(b, 0) as i64)
}

// The row with the minute in a latitude body of n rows, in the place that the first row's minute gives it; none where the body has no such row there.
pub fn named_row(b: &[u8], n: usize, minute: i32) -> Option<usize>
    requires { (0 < n) × (row_bytes latitude * n ≤ length b.now) }
    ensures { MatchOption result (has_row b.now n minute ≡ false) (λ r. (has_row b.now n minute ≡ true) × (r ≡ named_row b.now minute) × (r < n)) }
{
    let place = from_first_minute(b, minute);
    if place < 0 {
        return None;
    }
    if (n as i64) <= place {
        return None;
    }
    let r = place as usize;
    let own = words::word(b, entries::LATITUDE_WIDTH * r);
    (own == minute).then_some(r)
}
