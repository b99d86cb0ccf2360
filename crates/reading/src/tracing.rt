// A line of the trace: a reference that is counted is taken, an escape flushes, and any other good line is skipped.
ghost use Rattle.std.specs.Prelude.{◌≡◌};
ghost use Rattle.units.specs.Refusals.{answer_of};
ghost use Rattle.reading.specs.Meaning.{meaning_of};
ghost use Rattle.reading.specs.Reading.{desk, outcome};
ghost use Rattle.reading.specs.Step.{trace_step};

use crate::Reading;
use lines::{TraceLine, trace_line};
use units::Refusal;

impl Reading {
    pub(crate) fn trace_step(
        &mut self,
        line: &[u8],
        stacks: &mut [u32],
        counts: &mut [u32],
    ) -> Result<(), Refusal>
        ensures { outcome (answer_of result) (desk self.new stacks.new counts.new)
            ≡ trace_step (desk self.old stacks.old counts.old) (meaning_of self.old.head.kinds line.now) }
    {
        match trace_line(line) {
            Ok(TraceLine::Ref(kind, a)) => {
                if self.head.kinds.counts(kind) {
                    let reply = self.opened.take_ref(stacks, counts, a);
                    self.opened = reply.state;
                    reply.answer
                } else {
                    self.tally.skipped = self.tally.skipped.saturating_add(1);
                    Ok(())
                }
            }
            Ok(TraceLine::Escape) => {
                let reply = self.opened.flush(stacks);
                self.opened = reply.state;
                reply.answer?;
                self.tally.flushes = self.tally.flushes.saturating_add(1);
                Ok(())
            }
            Err(bad) => {
                self.column = bad.column;
                Err(bad.refusal)
            }
        }
    }
}
