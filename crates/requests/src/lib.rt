// Reads the lines of a log of requests.
#![tactic(auto)]

ghost use Rattle.requests.specs.Asked.{asked, asked_by, asking, lone, meaning, request_meaning, requested};
ghost use Rattle.requests.specs.Bytes.{after, before};
ghost use Rattle.requests.specs.Decimal.{is_digit, read_decimal};
ghost use Rattle.requests.specs.Parts.{Divided};
ghost use Rattle.rules.specs.Token.{begins_with, is_blank};
ghost use Rattle.std.specs.List.{list_all};
ghost use Rattle.std.specs.Prelude.{◌≡◌, ◌==◌, codes, position, Some};
ghost use Rattle.std.specs.Result.{result_ok};

pub use kind::StoreKind;
use std::error::Error;
use std::{fmt, str};
pub use verb::Verb;

mod choice;
mod kind;
mod verb;

// What a line asks of the library, with its operand.
#[derive(Clone, Copy, Debug, PartialEq, Eq)]
pub enum Request<'a> {
    Store(StoreKind),
    Table(usize),
    Numbers(usize),
    Declare(&'a [u8]),
    Claim {
        statement: &'a [u8],
        proof: &'a [u8],
    },
    Count,
    LookUp(&'a [u8]),
    RestsOn(usize),
    Carries(usize),
    Seal,
}

// Bytes that were to be read are no request, no verb or no kind of store.
#[derive(Clone, Copy, Debug, PartialEq, Eq)]
pub struct NoRequest;

// The work table and the number table have at most so many places.
const LONGEST_TABLE: usize = 65536;

// No constant has a larger number.
const LAST_CONSTANT: usize = 65535;

// A decimal has at most so many digits.
const MOST_DIGITS: usize = 9;

// By hand: derived by thiserror it proves, and what an answer prints of it then does not.
impl fmt::Display for NoRequest {
    ghost output = { λ _. Some (codes "not a request") };

    fn fmt<W: fmt::Write>(&self, f: &mut fmt::Formatter<W>) -> fmt::Result {
        f.write_str("not a request")
    }
}

impl Error for NoRequest {}

// A tab, a line feed, a carriage return or a space.
fn is_blank(byte: u8) -> bool
    ensures { result ≡ is_blank byte }
{
    matches!(byte, b'\t' | b'\n' | b'\r' | b' ')
}

// Nothing but blanks: the empty line too.
fn is_blank_line(line: &[u8]) -> bool
    ensures { result ≡ list_all is_blank line.now }
{
    line.iter().all(|byte| is_blank(*byte))
}

fn is_comment(line: &[u8]) -> bool
    ensures { result ≡ begins_with 37 line.now }
{
    line.starts_with(b"%")
}

// The place of the first `byte`.
fn place_of(bytes: &[u8], byte: u8) -> Option<usize>
    ensures { result ≡ position (λ x. x == byte) bytes.now }
{
    bytes.iter().position(|x| *x == byte)
}

// The parts of `bytes` before the first `byte` and after it, if it is there.
#[tactic(auto, using(crate::proofs::Parts::parts))]
fn divide(bytes: &[u8], byte: u8) -> Option<(&[u8], &[u8])>
    ensures { Divided byte bytes.now result }
{
    let i = place_of(bytes, byte)?;
    Some((&bytes[..i], &bytes[i + 1..]))
}

// The parts of `bytes` before the first `byte` and after it; all and nothing where there is none.
fn split(bytes: &[u8], byte: u8) -> (&[u8], &[u8])
    ensures front { result.0.now ≡ before byte bytes.now }
    ensures back { result.1.now ≡ after byte bytes.now }
{
    divide(bytes, byte).unwrap_or((bytes, &[]))
}

// Nothing but digits.
fn is_digits(bytes: &[u8]) -> bool
    ensures { result ≡ list_all is_digit bytes.now }
{
    bytes.iter().all(u8::is_ascii_digit)
}

// The number that `bytes` write in digits, if they are a decimal and it is at most `most`.
#[tactic(auto, using(crate::proofs::Decimals::digits_are_text, crate::proofs::Decimals::digits_parse))]
fn decimal_of(bytes: &[u8], most: usize) -> Result<usize, NoRequest>
    ensures { result_ok result ≡ read_decimal bytes.now most }
{
    if bytes.is_empty() || bytes.len() > MOST_DIGITS || !is_digits(bytes) {
        return Err(NoRequest);
    }
    // Digits are UTF-8, and so few of them are a number that fits.
    let number = str::from_utf8(bytes).unwrap().parse().unwrap();
    if number > most {
        return Err(NoRequest);
    }
    Ok(number)
}

// The request, if it stands with no operand.
fn alone<'a>(operand: &[u8], request: Request<'a>) -> Result<Request<'a>, NoRequest>
    ensures { asking result ≡ lone (request_meaning request.entry) operand.now }
{
    if operand.is_empty() {
        Ok(request)
    } else {
        Err(NoRequest)
    }
}

// The request that a verb makes with its operand, if it makes one.
fn request_of(verb: Verb, operand: &[u8]) -> Result<Request<'_>, NoRequest>
    ensures { asking result ≡ asked_by verb operand.now }
{
    match verb {
        Verb::Store => Ok(Request::Store(StoreKind::try_from(operand)?)),
        Verb::Table => Ok(Request::Table(decimal_of(operand, LONGEST_TABLE)?)),
        Verb::Numbers => Ok(Request::Numbers(decimal_of(operand, LONGEST_TABLE)?)),
        Verb::Declare => Ok(Request::Declare(operand)),
        Verb::Claim => {
            let (statement, proof) = divide(operand, b'=').ok_or(NoRequest)?;
            Ok(Request::Claim { statement, proof })
        }
        Verb::Count => alone(operand, Request::Count),
        Verb::LookUp => Ok(Request::LookUp(operand)),
        Verb::RestsOn => Ok(Request::RestsOn(decimal_of(operand, LAST_CONSTANT)?)),
        Verb::Carries => Ok(Request::Carries(decimal_of(operand, LAST_CONSTANT)?)),
        Verb::Seal => alone(operand, Request::Seal),
    }
}

// The request that a line makes, if it makes one: its word ends before the first space, and its
// operand begins after it.
fn read_request(line: &[u8]) -> Result<Request<'_>, NoRequest>
    ensures { asking result ≡ requested line.now }
{
    let (word, operand) = split(line, b' ');
    request_of(Verb::try_from(word)?, operand)
}

// What a line of a log asks, if it is not passed over.
pub fn read_line(line: &[u8]) -> Option<Result<Request<'_>, NoRequest>>
    ensures { meaning result ≡ asked line.now }
{
    if is_blank_line(line) || is_comment(line) {
        return None;
    }
    Some(read_request(line))
}

// The first line of a log, and what follows its line feed.
pub fn first_line(log: &[u8]) -> (&[u8], &[u8])
    ensures line { result.0.now ≡ before 10 log.now }
    ensures rest { result.1.now ≡ after 10 log.now }
{
    split(log, b'\n')
}
