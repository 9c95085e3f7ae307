// Writes the answers to the requests of a log, one line each.
#![tactic(auto)]

ghost use Rattle.answers.specs.Line.{answer_bytes, said_bytes, spaced};
ghost use Rattle.answers.specs.Said.{meaning};
ghost use Rattle.std.specs.Prelude.{◌≡◌, ◌+◌, ◌-◌, ◌^◌, IfOk, length, min, Some, string_bytes};

pub use refusals::Fault;
use requests::{NoRequest, StoreKind, Verb};
use std::alloc::{AllocError, Global};
use std::fmt;
use std::fmt::Write;

// What is answered to a line of a log.
#[derive(Clone, Copy, Debug, PartialEq, Eq)]
pub enum Answer<'a> {
    Store(StoreKind),
    Table(usize),
    Numbers(usize),
    Declared { constant: usize, work: usize },
    Claimed { work: usize },
    Count(usize),
    LookUp(Option<usize>),
    // The constants that a query found.
    Listed(Verb, &'a [u32]),
    Sealed,
    Refused(Verb, Fault),
    NotServed(Verb),
    // The library is sealed, so the request is not carried out.
    Barred(Verb),
    NoRequest,
}

// What is said after the line's number.
impl fmt::Display for Answer<'_> {
    ghost output = { λ answer. Some (said_bytes (meaning answer)) };

    fn fmt<W: fmt::Write>(&self, f: &mut fmt::Formatter<W>) -> fmt::Result {
        match *self {
            Answer::Store(kind) => write!(f, "store {kind}"),
            Answer::Table(length) => write!(f, "table {length}"),
            Answer::Numbers(length) => write!(f, "numbers {length}"),
            Answer::Declared { constant, work } => {
                write!(f, "declare accepted: constant {constant}, work {work}")
            }
            Answer::Claimed { work } => write!(f, "claim accepted: work {work}"),
            Answer::Count(count) => write!(f, "count {count}"),
            Answer::LookUp(Some(constant)) => write!(f, "look-up {constant}"),
            Answer::LookUp(None) => write!(f, "look-up none"),
            Answer::Listed(verb, constants) => {
                write!(f, "{verb} {}:{}", constants.len(), Spaced(constants))
            }
            Answer::Sealed => write!(f, "sealed"),
            Answer::Refused(verb, fault) => write!(f, "{verb} refused {fault}"),
            Answer::NotServed(verb) => write!(f, "{verb} not carried out: not served yet"),
            Answer::Barred(verb) => write!(f, "{verb} not carried out: the library is sealed"),
            Answer::NoRequest => write!(f, "{NoRequest}"),
        }
    }
}

// Numbers, each after a space.
#[derive(Clone, Copy, Debug, PartialEq, Eq)]
struct Spaced<'a>(&'a [u32]);

impl fmt::Display for Spaced<'_> {
    ghost output = { λ numbers. Some (spaced numbers.0.now) };

    fn fmt<W: fmt::Write>(&self, f: &mut fmt::Formatter<W>) -> fmt::Result {
        for number in self.0 {
            write!(f, " {number}")?;
        }
        Ok(())
    }
}

// Counts the bytes that are written.
#[derive(Clone, Copy, Debug, PartialEq, Eq)]
struct Length(usize);

impl fmt::Write for Length {
    ghost write_str_gives = { λ before bytes after. after.0 ≡ min (before.0 + length bytes) (2 ^ 64 - 1) };

    fn write_str(&mut self, text: &str) -> fmt::Result {
        self.0 = self.0.saturating_add(text.len());
        Ok(())
    }
}

// The line that answers line `number` of a log, without its line feed.
pub fn answer_line(heap: Global, number: usize, answer: &Answer) -> Result<String, AllocError>
    ensures { IfOk result (λ s. string_bytes s ≡ answer_bytes number (meaning answer.now)) }
{
    // The text has the room that it needs from the beginning, and no more.
    let mut length = Length(0);
    let _ = write!(length, "{number}: {answer}");
    let mut line = String::with_capacity(heap, length.0)?;
    write!(line, "{number}: {answer}")?;
    Ok(line)
}

#[cfg(test)]
mod tests {
    use super::*;

    // The lines are those of the page on the log format.
    #[test]
    fn lines_are_written(rt: HostRuntime) {
        let fault = Fault {
            layer: 3,
            number: 39,
            text: 1,
            place: 24,
            judgement: 4,
        };
        let cases = [
            (
                Answer::Refused(Verb::Claim, fault),
                "7: claim refused 39 layer 3 text 1 place 24 judgement 4 - the nodes do not fit the work table",
            ),
            (
                Answer::Listed(Verb::RestsOn, &[0, 3, 5, 6, 7]),
                "7: rests-on 5: 0 3 5 6 7",
            ),
            (
                Answer::Declared {
                    constant: 3,
                    work: 7,
                },
                "7: declare accepted: constant 3, work 7",
            ),
        ];
        for (answer, text) in cases {
            let line = answer_line(rt.alloc(), 7, &answer).expect(&rt, "memory suffices");
            assert_eq!(rt; line.as_str(), text);
        }
    }
}
