// The loop of a filter: standard input is answered line by line, in any way, on standard output. What has come in is answered before more is read. No contract can say what is read or written;
// `answering::turn` says what a turn works.
#![tactic(auto)]

ghost use Rattle.std.specs.Prelude.{◌*◌, ◌≤◌, ◌<◌, length};
ghost use Rattle.stream.specs.Stream.{most_kept};

use answering::{Answers, Held, Taken};

// Answers the lines that are held and those of what is read behind them, and writes the answers out after each piece; the state after the last line. A proved loop has to end, so its turns are counted,
// up to a number that no run uses up.
pub fn answer_input<A: Answers>(
    rt: &HostRuntime,
    by: &A,
    input: &mut [u8],
    h: Held<A::State>,
    out: &mut [u8],
) -> A::State
    requires { (h.from ≤ h.to) × (h.to ≤ length input.old) × (most_kept < length input.old) × (A.room * length input.old ≤ length out.old) }
{
    let done = answering::answer_block(by, input, h, out);
    let mut s = Taken { done, ended: false };
    for _ in 0..u64::MAX {
        let at = s.done.at;
        if !files::tell(rt, &out[0..at]) | s.ended {
            return s.done.state;
        }
        let more = files::read_on(rt, input, s.done.kept);
        s = answering::turn(by, input, s.done, more, out);
    }
    s.done.state
}
