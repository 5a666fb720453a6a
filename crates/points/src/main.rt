// The points program, a filter. Standard input: the name of the sheet's file, then a line for each point. Standard output: the check's answer and, where it is 0, an answer for each line. What has
// come in is answered before more is read.
#![tactic(auto)]

ghost use Rattle.std.specs.Prelude.{◌≡◌, ◌*◌, ◌≤◌, ◌<◌, length};
ghost use Rattle.lines.specs.Lines.{line_room};
ghost use Rattle.stream.specs.Stream.{most_kept};

use answering::Held;
use blocks::Points;

// Room for the input, and for an answer to each of its bytes.
const INPUT: usize = 16_640;

const OUTPUT: usize = 1_098_240;

// Prints the check's answer and, where it is 0, the answers to the lines behind the name, from `from` on; the bytes to `to` are read.
#[tactic(auto, using(sheet_check::proofs::Known::sheet_long))]
fn run(rt: &HostRuntime, sheet: &[u8], input: &mut [u8], from: usize, to: usize, out: &mut [u8])
    requires { (from ≤ to) × (to ≤ length input.old) × (most_kept < length input.old) × (line_room * length input.old ≤ length out.old) }
{
    let checked = tables::pass(sheet);
    let (number, kind, row) = contents::numbers(checked.err());
    let at = lines::put_verdict(out, 0, number, kind, row);
    if !files::tell(rt, &out[0..at]) {
        return;
    }
    if let Ok(sheet) = checked {
        let h = Held {
            from,
            to,
            state: (),
        };
        filter::answer_input(rt, &Points { sheet }, input, h, out);
    }
}

// The output's memory. It is made apart because the proof of a function that holds so long an array would spell it out.
fn output() -> [u8; OUTPUT]
    ensures { 1_098_240 ≡ length result }
{
    [0; OUTPUT]
}

fn main(rt: HostRuntime) {
    let mut sheet = files::sheet_room();
    let mut input = [0u8; INPUT];
    let mut out = output();
    let Some(name) = files::read_line(&rt, &mut input, 0, 0) else {
        return;
    };
    let from = name.from;
    let end = name.end;
    let size = files::load(&rt, &input[from..end], &mut sheet);
    run(
        &rt,
        &sheet[0..size],
        &mut input,
        name.next,
        name.to,
        &mut out,
    );
}
