// What a log has set, counted and printed so far.
ghost use Rattle.session.specs.Transcript.{closed, fresh, taken};
ghost use Rattle.std.specs.Prelude.{◌≡◌, IfOk, OnOk, string_bytes};

use crate::state::Session;
use crate::totals::Tally;
use answers::answer_line;
use requests::read_line;
use std::alloc::{AllocError, Global};
use std::marker::Model;

// The session, the counts and the text that follow from the lines taken.
#[derive(Drop)]
pub(crate) struct Transcript {
    heap: Global,
    session: Session,
    tally: Tally,
    text: String,
}

impl Model for Transcript {
    ghost use Rattle.session.specs.Transcript.{Transcript};
    ghost use Rattle.std.specs.Prelude.{string_bytes};

    ghost Value = { Transcript };

    ghost view = { λ t. record { session = t.session; tally = t.tally; text = string_bytes t.text } };
}

impl Transcript {
    // Before the first line.
    pub(crate) fn new(heap: Global) -> Transcript
        ensures { result ≡ fresh }
    {
        Transcript {
            heap,
            session: Session::new(),
            tally: Tally::default(),
            text: String::new(heap),
        }
    }

    // Takes a line, and adds what is printed for it.
    pub(crate) fn take(&mut self, number: usize, line: &[u8]) -> Result<(), AllocError>
        ensures { OnOk result (self.new ≡ taken number line.now self.old) }
    {
        if let Some(answer) = self.session.take(read_line(line)) {
            let written = answer_line(self.heap, number, &answer)?;
            writeln!(self.text, "{written}")?;
            self.tally.note(&answer);
        }
        Ok(())
    }

    // Adds the counts, and gives all that is printed.
    pub(crate) fn close(mut self) -> Result<String, AllocError>
        ensures { IfOk result (λ s. string_bytes s ≡ closed self) }
    {
        // The library has no constants as yet.
        let closing = self.tally.closing_line(self.heap, 0)?;
        // A `&str`, so that the writing of a `String` is inlined in `take`, its one place.
        writeln!(self.text, "{}", closing.as_str())?;
        Ok(self.text)
    }
}
