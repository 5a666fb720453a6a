// The redo program, a filter: which points to redo after a correction. Standard input: the names of the old sheet's file and of the corrected one's, then a line for each point. Standard output: the
// check's answer for each sheet and, where both are 0, each line whose answer changes, with both answers, and at the end how many points there were, how many changed and how many the correction may
// touch. Standard error: how many lines were of no known form. What has come in is compared before more is read.
#![tactic(auto)]

ghost use Rattle.std.specs.Prelude.{◌≡◌, ◌*◌, ◌≤◌, ◌<◌, length};
ghost use Rattle.compared.specs.Compared.{change_room};
ghost use Rattle.stream.specs.Stream.{most_kept};

use answering::Held;
use redone::{Comparing, Tally};

// Room for the input, and for a changed line to each of its bytes.
const INPUT: usize = 7_040;

const OUTPUT: usize = 1_084_160;

// ---- the lines of no known form

// Says how many lines were of no known form, and the number of the first one, where there were any.
fn say_stray(rt: &HostRuntime, a: Tally) {
    if a.stray == 0 {
        return;
    }
    let mut out = [0u8; 64];
    files::say(rt, b"lines of no known form: ");
    let n = decimal::put_size(&mut out, 0, a.lines.saturating_sub(a.points));
    files::say(rt, &out[0..n]);
    files::say(rt, b"; the first is line ");
    let m = decimal::put_size(&mut out, 0, a.stray);
    files::say(rt, &out[0..m]);
    files::say(rt, b"\n");
}

// ---- the sheets

// Compares the lines from `from` on, of which the bytes to `to` are read, on two sheets that pass.
fn compare(
    rt: &HostRuntime,
    sheets: &Comparing,
    input: &mut [u8],
    from: usize,
    to: usize,
    out: &mut [u8],
)
    requires { (from ≤ to) × (to ≤ length input.old) × (most_kept < length input.old) × (change_room * length input.old ≤ length out.old) }
{
    let state = Tally::default();
    let h = Held { from, to, state };
    let tally = filter::answer_input(rt, sheets, input, h, out);
    say_stray(rt, tally);
}

// Prints the check's answer for each sheet and, where both are 0, compares the lines from `from` on.
#[tactic(auto, using(sheet_check::proofs::Known::sheet_long))]
fn run(
    rt: &HostRuntime,
    old: &[u8],
    new: &[u8],
    input: &mut [u8],
    from: usize,
    to: usize,
    out: &mut [u8],
)
    requires { (from ≤ to) × (to ≤ length input.old) × (most_kept < length input.old) × (change_room * length input.old ≤ length out.old) }
{
    let first = tables::pass(old);
    let (number, kind, row) = contents::numbers(first.err());
    let i = lines::put_verdict(out, 0, number, kind, row);
    let second = tables::pass(new);
    let (number, kind, row) = contents::numbers(second.err());
    let at = lines::put_verdict(out, i, number, kind, row);
    if !files::tell(rt, &out[0..at]) {
        return;
    }
    if let (Ok(old), Ok(new)) = (first, second) {
        compare(rt, &Comparing { old, new }, input, from, to, out);
    }
}

// The output's memory. It is made apart because the proof of a function that holds so long an array would spell it out.
fn output() -> [u8; OUTPUT]
    ensures { 1_084_160 ≡ length result }
{
    [0; OUTPUT]
}

fn main(rt: HostRuntime) {
    let mut old = files::sheet_room();
    let mut new = files::sheet_room();
    let mut input = [0u8; INPUT];
    let mut out = output();
    let Some(first) = files::read_line(&rt, &mut input, 0, 0) else {
        return;
    };
    let a = first.from;
    let b = first.end;
    let m = files::load(&rt, &input[a..b], &mut old);
    let Some(second) = files::read_line(&rt, &mut input, first.next, first.to) else {
        return;
    };
    let c = second.from;
    let d = second.end;
    let n = files::load(&rt, &input[c..d], &mut new);
    run(
        &rt,
        &old[0..m],
        &new[0..n],
        &mut input,
        second.next,
        second.to,
        &mut out,
    );
}
