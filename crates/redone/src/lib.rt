// The lines of the redo program's input: each is compared on two sheets that pass, and counted.
#![tactic(auto)]

ghost use Rattle.std.specs.Prelude.{◌≡◌, ◌+◌, ◌≤◌, length};
ghost use Rattle.std.proofs.Common.{rules};
ghost use Rattle.decimal.specs.Writing.{Wrote};
ghost use Rattle.compared.specs.Compared.{change_room};
ghost use Rattle.redone.specs.Tallied.{up, up_where, stray_after, counts_text};
ghost use Rattle.redone.specs.Redone.{comparing};

use answering::{Answers, Next};
use point_line::BLANK;
use tables::Passed;

// The number of lines so far, how many of them were points, changed their answer and may be touched, and the number of the first line of no known form, 0 where there is none.
#[derive(Clone, Copy, Default)]
pub struct Tally {
    pub lines: u64,
    pub points: u64,
    pub changed: u64,
    pub reached: u64,
    pub stray: u64,
}

// The redo program's way to answer lines, on the old sheet and the new one.
#[derive(Clone, Copy)]
pub struct Comparing<'a> {
    pub old: Passed<'a>,
    pub new: Passed<'a>,
}

// ---- counting

// One more, to the most that 64 bits hold, which no run reaches.
#[tactic(auto, unfolding(crate::specs::Tallied::up, refusals::specs::Ladder::where_is))]
fn up(n: u64) -> u64
    ensures { result ≡ up n }
{
    if n == u64::MAX {
        return n;
    }
    n + 1
}

// One more where it is so.
#[tactic(auto, unfolding(crate::specs::Tallied::up_where))]
fn up_where(more: bool, n: u64) -> u64
    ensures { result ≡ up_where more n }
{
    if more {
        return up(n);
    }
    n
}

// The number of the first line of no known form, of those so far and line n.
#[tactic(auto, unfolding(crate::specs::Tallied::stray_after, refusals::specs::Ladder::where_is))]
fn stray_after(known: bool, stray: u64, n: u64) -> u64
    ensures { result ≡ stray_after known stray n }
{
    if known {
        return stray;
    }
    if stray == 0 {
        return n;
    }
    stray
}

// The counts, from `at` on; the place behind them.
fn put_counts(a: Tally, out: &mut [u8], at: usize) -> usize
    requires { at + 66 ≤ length out.old }
    ensures { (result ≤ at + 66) × Wrote out.old out.new at result (counts_text a) }
{
    let i = lines::put_size_and(out, at, a.points, BLANK);
    let j = lines::put_size_and(out, i, a.changed, BLANK);
    lines::put_size_and(out, j, a.reached, stream::LINE_FEED)
}

// ---- lines

impl<'a> Answers for Comparing<'a> {
    type State = Tally;

    ghost room = { change_room };

    ghost closing_room = { 66 };

    ghost way = { λ c. comparing c.old.bytes.now c.new.bytes.now };

    // The line's number and both answers where they differ, and the tally with it.
    #[tactic(auto, unfolding(crate::specs::Tallied::tallied))]
    fn answer(&self, state: Tally, line: &[u8], out: &mut [u8], at: usize) -> Next<Tally> {
        let lines = up(state.lines);
        let r = compared::compare_line(self.old, self.new, line, lines, out, at);
        let tally = Tally {
            lines,
            points: up_where(r.point, state.points),
            changed: up_where(r.changed, state.changed),
            reached: up_where(r.reached, state.reached),
            stray: stray_after(r.point, state.stray, lines),
        };
        Next {
            at: r.next,
            state: tally,
        }
    }

    // The counts.
    fn close(&self, state: Tally, out: &mut [u8], at: usize) -> usize {
        put_counts(state, out, at)
    }

    ghost closing_fits = { Prim.search rules };
}
