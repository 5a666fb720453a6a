// The lines of an input that is read in pieces into a buffer, answered as they come, in any way. A line's answer may depend on a state, which each line takes further.
#![tactic(auto)]

ghost use Rattle.std.specs.Prelude.{ℕ, ◌≡◌, ◌+◌, ◌*◌, ◌≤◌, ◌<◌, length, take, IfSome};
ghost use Rattle.std.proofs.Math.Seq.{slice};
ghost use Rattle.decimal.specs.Writing.{Wrote};
ghost use Rattle.stream.specs.Stream.{last_line, ended_lines, unended, most_kept};
ghost use Rattle.stream.specs.Pieces.{Way, answers, after, written};
ghost use Rattle.answering.specs.Answered.{Answered};
ghost use Rattle.answering.specs.Turned.{Turned};

// What an answer leaves: the place after it, and the state after its line.
#[derive(Clone, Copy)]
pub struct Next<S> {
    pub at: usize,
    pub state: S,
}

// The buffer's bytes that are not yet answered, and the state before them.
#[derive(Clone, Copy)]
pub struct Held<S> {
    pub from: usize,
    pub to: usize,
    pub state: S,
}

// How many bytes of the line that has not ended are kept at the buffer's front, how many bytes of answers stand at the output's, and the state after them.
#[derive(Clone, Copy)]
pub struct Done<S> {
    pub kept: usize,
    pub at: usize,
    pub state: S,
}

// What a turn left, or the first block, and whether the input has ended or its reading failed.
#[derive(Clone, Copy)]
pub struct Taken<S> {
    pub done: Done<S>,
    pub ended: bool,
}

// ---- one line

// A way to answer lines.
pub trait Answers {
    // What an answer may depend on besides its line.
    type State: Copy;

    // The room that any line's answer needs.
    ghost room: { ℕ };

    // The room that the closing text needs.
    ghost closing_room: { ℕ };

    // What a line is answered from a state, the state after it, and the closing text.
    ghost way: { Self → Way Self.State };

    // The line's answer, from `at` on; the place after it, and the state after the line.
    fn answer(
        &self,
        state: Self::State,
        line: &[u8],
        out: &mut [u8],
        at: usize,
    ) -> Next<Self::State>
        requires { at + room ≤ length out.old }
        ensures place { result.at ≤ at + room }
        ensures state { result.state ≡ (way self.now).next state line.now }
        ensures text { Wrote out.old out.new at result.at ((way self.now).answer state line.now) };

    // The text behind the last answer, from `at` on; the place after it.
    fn close(&self, state: Self::State, out: &mut [u8], at: usize) -> usize
        requires { at + closing_room ≤ length out.old }
        ensures { (result ≤ at + closing_room) × Wrote out.old out.new at result ((way self.now).close state) };

    // A turn has room for both, since the output has room for an answer to each of more than 256 bytes.
    ghost closing_fits: { closing_room ≤ room };
}

// ---- a block of lines

// Where the line that has not ended begins, how many bytes of answers stand at the output's front, and the state after them.
#[derive(Clone, Copy)]
struct Lines<S> {
    rest: usize,
    at: usize,
    state: S,
}

// Answers the lines that are held and have ended. A line takes a byte or more, its line feed, so that an output with room for an answer to each byte has room for all.
fn answer_lines<A: Answers>(
    by: &A,
    buffer: &[u8],
    h: Held<A::State>,
    out: &mut [u8],
) -> Lines<A::State>
    requires { (h.from ≤ h.to) × (h.to ≤ length buffer.now) × (A.room * h.to ≤ length out.old) }
    ensures place { (result.rest ≤ h.to) × (result.at ≤ length out.old) × (slice result.rest h.to buffer.now ≡ unended (slice h.from h.to buffer.now)) }
    ensures state { result.state ≡ after (A.way by.now) h.state (ended_lines (slice h.from h.to buffer.now)) }
    ensures text { Wrote out.old out.new 0 result.at (answers (A.way by.now) h.state (ended_lines (slice h.from h.to buffer.now))) }
{
    let to = h.to;
    let mut i = h.from;
    let mut at = 0;
    let mut state = h.state;
    let mut end = stream::line_end(buffer, i, to);
    // No iterator is plainer: `line_end` goes by eight bytes, and the place and the state go on from line to line.
    while end < to {
        let next = by.answer(state, &buffer[i..end], out, at);
        at = next.at;
        state = next.state;
        i = end + 1;
        end = stream::line_end(buffer, i, to);
    }
    Lines { rest: i, at, state }
}

// Answers the lines that are held and have ended, and keeps the one that has not.
#[tactic(auto, unfolding(stream::specs::Stream::kept_of))]
pub fn answer_block<A: Answers>(
    by: &A,
    buffer: &mut [u8],
    h: Held<A::State>,
    out: &mut [u8],
) -> Done<A::State>
    requires { (h.from ≤ h.to) × (h.to ≤ length buffer.old) × (A.room * h.to ≤ length out.old) }
    ensures { Answered (A.way by.now) buffer.old buffer.new h.from h.to h.state out.old out.new result }
{
    let d = answer_lines(by, buffer, h, out);
    let at = d.at;
    let state = d.state;
    let kept = stream::keep(buffer, d.rest, h.to);
    Done { kept, at, state }
}

// ---- the input's end

// Answers the line that has not ended, the buffer's first n bytes, where there is one.
fn answer_rest<A: Answers>(
    by: &A,
    buffer: &[u8],
    n: usize,
    state: A::State,
    out: &mut [u8],
) -> Next<A::State>
    requires { (n ≤ length buffer.now) × (A.room ≤ length out.old) }
    ensures place { result.at ≤ A.room }
    ensures state { result.state ≡ after (A.way by.now) state (last_line (take n buffer.now)) }
    ensures text { Wrote out.old out.new 0 result.at (answers (A.way by.now) state (last_line (take n buffer.now))) }
{
    if n == 0 {
        return Next { at: 0, state };
    }
    by.answer(state, &buffer[0..n], out, 0)
}

// At the input's end: answers what is left, and writes the closing text behind it.
pub fn answer_last<A: Answers>(
    by: &A,
    buffer: &[u8],
    n: usize,
    state: A::State,
    out: &mut [u8],
) -> Done<A::State>
    requires { (n ≤ length buffer.now) × (A.room + A.closing_room ≤ length out.old) }
    ensures place { (result.kept ≡ 0) × (result.at ≤ length out.old) }
    ensures state { result.state ≡ after (A.way by.now) state (last_line (take n buffer.now)) }
    ensures text { Wrote out.old out.new 0 result.at (written (A.way by.now) state (last_line (take n buffer.now))) }
{
    let r = answer_rest(by, buffer, n, state, out);
    let last = r.state;
    let at = by.close(last, out, r.at);
    Done {
        kept: 0,
        at,
        state: last,
    }
}

// ---- a filter's turn

// Takes what was read behind the bytes that are kept, and answers the lines that have ended; at the input's end, what is left. `more` is how many bytes the buffer holds after the read, none where it
// failed: a line that it cut is not answered, and no closing text is written, which would speak of a part of the input.
pub fn turn<A: Answers>(
    by: &A,
    input: &mut [u8],
    prior: Done<A::State>,
    more: Option<usize>,
    out: &mut [u8],
) -> Taken<A::State>
    requires { (prior.kept ≤ most_kept) × (most_kept < length input.old) × IfSome more (λ to. (prior.kept ≤ to) × (to ≤ length input.old)) × (A.room * length input.old ≤ length out.old) }
    ensures { Turned (A.way by.now) input.old input.new prior more out.old out.new result }
{
    let kept = prior.kept;
    let state = prior.state;
    let Some(to) = more else {
        return Taken {
            done: Done {
                kept: 0,
                at: 0,
                state,
            },
            ended: true,
        };
    };
    if kept < to {
        let h = Held { from: 0, to, state };
        let done = answer_block(by, input, h, out);
        return Taken { done, ended: false };
    }
    let done = answer_last(by, input, kept, state, out);
    Taken { done, ended: true }
}
