// The lines of the points program's input: each asks for a conversion on a sheet that passes.
#![tactic(auto)]

ghost use Rattle.std.proofs.Common.{rules};
ghost use Rattle.lines.specs.Lines.{line_room};
ghost use Rattle.blocks.specs.Blocks.{answering};

use answering::{Answers, Next};
use tables::Passed;

// The points program's way to answer lines, on the sheet.
#[derive(Clone, Copy)]
pub struct Points<'a> {
    pub sheet: Passed<'a>,
}

impl<'a> Answers for Points<'a> {
    type State = ();

    ghost room = { line_room };

    ghost closing_room = { 0 };

    ghost way = { λ points. answering points.sheet.bytes.now };

    fn answer(&self, state: (), line: &[u8], out: &mut [u8], at: usize) -> Next<()> {
        let next = lines::answer(self.sheet, line, out, at);
        Next { at: next, state }
    }

    // Nothing stands behind the last answer.
    fn close(&self, _state: (), _out: &mut [u8], at: usize) -> usize {
        at
    }

    ghost closing_fits = { Prim.search rules };
}
