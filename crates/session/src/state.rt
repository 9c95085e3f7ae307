// What a log has set so far, and the answers that follow from it.
ghost use Rattle.answers.specs.Said.{meaning as said};
ghost use Rattle.requests.specs.Asked.{meaning, request_meaning};
ghost use Rattle.session.specs.Limits.{limit_of, limited_to};
ghost use Rattle.session.specs.Session.{after, answer_to, start};
ghost use Rattle.std.specs.Option.{option_map};
ghost use Rattle.std.specs.Prelude.{◌≡◌, Some};

use crate::limits::{claim_fault, declare_fault};
use answers::Answer;
use refusals::Refusal;
use requests::{NoRequest, Request, StoreKind, Verb};

// The lengths of the tables where a log sets none.
const WORK_TABLE: usize = 32768;

const NUMBER_TABLE: usize = 1024;

// The kind of store from the first request on, whether the library is sealed, and the lengths of the tables.
#[derive(Clone, Copy, Debug, PartialEq, Eq)]
pub struct Session {
    store: Option<StoreKind>,
    sealed: bool,
    table: usize,
    numbers: usize,
}

// The answer to a call of which the size limits alone are served.
fn limited(verb: Verb, limits: Result<(), Refusal>) -> Answer<'static>
    ensures { said result ≡ limited_to verb (limit_of limits) }
{
    match limits {
        Ok(()) => Answer::NotServed(verb),
        Err(refusal) => Answer::Refused(verb, refusal.into()),
    }
}

impl Session {
    // Before the first line.
    pub(crate) fn new() -> Session
        ensures { result ≡ start }
    {
        Session {
            store: None,
            sealed: false,
            table: WORK_TABLE,
            numbers: NUMBER_TABLE,
        }
    }

    // The answer to a request. The library has no constants as yet.
    fn answer(self, request: Request<'_>) -> Answer<'static>
        ensures { Some (said result) ≡ answer_to self (request_meaning request.entry) }
    {
        match request {
            Request::Store(kind) if self.store.is_none() => Answer::Store(kind),
            Request::Store(_) => Answer::NoRequest,
            Request::Table(length) => Answer::Table(length),
            Request::Numbers(length) => Answer::Numbers(length),
            Request::Declare(_) if self.sealed => Answer::Barred(Verb::Declare),
            Request::Declare(text) => limited(Verb::Declare, declare_fault(text, self.table)),
            Request::Claim { statement, proof } => {
                limited(Verb::Claim, claim_fault(statement, proof, self.table))
            }
            Request::Count => Answer::Count(0),
            Request::LookUp(_) => Answer::LookUp(None),
            Request::RestsOn(_) => Answer::Refused(Verb::RestsOn, Refusal::NoSuchConstant.into()),
            Request::Carries(_) => Answer::Refused(Verb::Carries, Refusal::NoSuchConstant.into()),
            Request::Seal if self.sealed => Answer::Barred(Verb::Seal),
            Request::Seal => Answer::Sealed,
        }
    }

    // The session after a request.
    fn after(self, request: Request<'_>) -> Session
        ensures { result ≡ after self (request_meaning request.entry) }
    {
        let next = Session {
            store: Some(self.store.unwrap_or(StoreKind::Flat)),
            ..self
        };
        match request {
            Request::Store(_) if self.store.is_some() => self,
            Request::Store(kind) => Session {
                store: Some(kind),
                ..self
            },
            Request::Table(table) => Session { table, ..next },
            Request::Numbers(numbers) => Session { numbers, ..next },
            Request::Seal => Session {
                sealed: true,
                ..next
            },
            _ => next,
        }
    }

    // The answer to a line, if it has one, and the session after it.
    pub(crate) fn take(
        &mut self,
        line: Option<Result<Request<'_>, NoRequest>>,
    ) -> Option<Answer<'static>>
        ensures answer { option_map said result ≡ answer_to self.old (meaning line.entry) }
        ensures next { self.new ≡ after self.old (meaning line.entry) }
    {
        match line {
            None => None,
            Some(Err(NoRequest)) => Some(Answer::NoRequest),
            Some(Ok(request)) => {
                let answer = self.answer(request);
                *self = self.after(request);
                Some(answer)
            }
        }
    }
}
