// The counts of the closing line.
ghost use Rattle.answers.specs.Said.{meaning};
ghost use Rattle.session.specs.Tallies.{closing_bytes, counts_bytes, noted};
ghost use Rattle.std.specs.Prelude.{◌≡◌, IfOk, Some, string_bytes};

use answers::Answer;
use std::alloc::{AllocError, Global};
use std::fmt;

// How many answers there were of each sort.
#[derive(Clone, Copy, Debug, Default, PartialEq, Eq)]
pub struct Tally {
    accepted: usize,
    refused: usize,
    answered: usize,
    not_carried_out: usize,
}

impl Tally {
    // Counts one more answer.
    pub(crate) fn note(&mut self, answer: &Answer)
        ensures { self.new ≡ noted self.old (meaning answer.now) }
    {
        match answer {
            Answer::Store(_) | Answer::Table(_) | Answer::Numbers(_) => {}
            Answer::Declared { .. } | Answer::Claimed { .. } => {
                self.accepted = self.accepted.saturating_add(1);
            }
            Answer::Refused(_, _) => {
                self.refused = self.refused.saturating_add(1);
            }
            Answer::Count(_) | Answer::LookUp(_) | Answer::Listed(_, _) | Answer::Sealed => {
                self.answered = self.answered.saturating_add(1);
            }
            Answer::NotServed(_) | Answer::Barred(_) | Answer::NoRequest => {
                self.not_carried_out = self.not_carried_out.saturating_add(1);
            }
        }
    }

    // `A accepted, R refused, Q answered, B not carried out, C constants`.
    pub(crate) fn closing_line(&self, heap: Global, constants: usize) -> Result<String, AllocError>
        ensures { IfOk result (λ s. string_bytes s ≡ closing_bytes self.now constants) }
    {
        format!(in heap; "{self}, {constants} constants")
    }
}

// `A accepted, R refused, Q answered, B not carried out`.
impl fmt::Display for Tally {
    ghost output = { λ tally. Some (counts_bytes tally) };

    fn fmt<W: fmt::Write>(&self, f: &mut fmt::Formatter<W>) -> fmt::Result {
        let Tally {
            accepted,
            refused,
            answered,
            not_carried_out,
        } = *self;
        write!(
            f,
            "{accepted} accepted, {refused} refused, {answered} answered, {not_carried_out} not carried out"
        )
    }
}
