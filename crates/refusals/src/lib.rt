// Why a call says no, and how that is printed.
#![tactic(auto)]

ghost use Rattle.refusals.specs.Fault.{fault_bytes, fault_of, reason_bytes};
ghost use Rattle.refusals.specs.Refusal.{judgement_number, meaning, text_number};
ghost use Rattle.rules.specs.Refusal.{refusal};
ghost use Rattle.std.specs.Option.{option_map_or};
ghost use Rattle.std.specs.Prelude.{◌≡◌, Some};

use std::fmt;

// The texts of a call: the only one or a claim's statement, and a claim's proof.
#[derive(Clone, Copy, Debug, PartialEq, Eq)]
pub enum Text {
    First,
    Proof,
}

// A place in a text.
#[derive(Clone, Copy, Debug, PartialEq, Eq)]
pub struct Place {
    pub text: Text,
    pub at: usize,
}

// The judgement at which a check refuses.
#[derive(Clone, Copy, Debug, PartialEq, Eq)]
pub enum Judgement {
    Classifier = 1,
    Type,
    Object,
    Spine,
}

// Why a call says no, with what varies.
#[derive(Clone, Copy, Debug, PartialEq, Eq)]
pub enum Refusal {
    // A text has too many bytes.
    TextTooLong(Text),
    // The work table has too many nodes, or too few for the texts.
    UnfitTable,
    // A byte cannot begin a token.
    NoToken(Place),
    // A name has too many bytes.
    LongName(Place),
    // A token does not fit the grammar.
    MisfitToken(Place),
    // What a token opens is too deep.
    TooDeep(Place),
    // A head finds neither a binder nor a constant.
    UnknownName(Place),
    // The judgement has no such form.
    WrongForm(Place, Judgement),
    // For a type the head is an index, or its classifier is no kind; for an object its classifier is a kind.
    WrongHead(Place, Judgement),
    // A head with a spine stands against a product.
    HeadAtProduct(Place),
    // An abstraction stands against what is no product.
    LamAtNoProduct(Place),
    // An argument is missing.
    TooFew(Place),
    // There is an argument, and no product for it.
    TooMany(Place),
    // The type in which the spine ends is not the one asked for.
    Unequal(Place),
    // The put of an argument has no result.
    NoResult(Place),
    // The nodes to be written do not fit the work table.
    NoRoom(Place, Judgement),
    // The name is not one that reads, or the classifier is not lawful.
    UnfitEntry,
    // The name is already in the store: its place in the text that declares it.
    NameTaken(usize),
    // The store is full for this name and size: the place of the name.
    StoreFull(usize),
    // The number is that of no constant.
    NoSuchConstant,
    // The number table is shorter than the count of constants.
    ShortNumbers,
}

// A refusal by its five numbers: the layer, the number, the text, the place in it, and the judgement.
// Numbers by a rule of this crate: any fault is printed, and an enum here would take fewer.
#[derive(Clone, Copy, Debug, PartialEq, Eq)]
pub struct Fault {
    pub layer: u8,
    pub number: u8,
    pub text: u8,
    pub place: usize,
    pub judgement: u8,
}

// The fault of a number. The layer is the number's tens, and 0 stands for no judgement.
fn numbered(number: u8, place: Place, judgement: Option<Judgement>) -> Fault
    ensures { result ≡ fault_of (refusal number (text_number place.text) place.at (option_map_or judgement_number judgement 0)) }
{
    Fault {
        layer: number / 10,
        number,
        text: place.text as u8,
        place: place.at,
        judgement: judgement.map_or(0, |judgement| judgement as u8),
    }
}

// This is where a refusal becomes a number.
impl From<Refusal> for Fault {
    ghost from_gives = { λ refusal fault. fault ≡ fault_of (meaning refusal) };

    fn from(refusal: Refusal) -> Fault {
        let nowhere = Place {
            text: Text::First,
            at: 0,
        };
        match refusal {
            Refusal::TextTooLong(text) => numbered(11, Place { text, at: 0 }, None),
            Refusal::UnfitTable => numbered(12, nowhere, None),
            Refusal::NoToken(place) => numbered(13, place, None),
            Refusal::LongName(place) => numbered(14, place, None),
            Refusal::MisfitToken(place) => numbered(15, place, None),
            Refusal::TooDeep(place) => numbered(16, place, None),
            Refusal::UnknownName(place) => numbered(21, place, None),
            Refusal::WrongForm(place, judgement) => numbered(31, place, Some(judgement)),
            Refusal::WrongHead(place, judgement) => numbered(32, place, Some(judgement)),
            Refusal::HeadAtProduct(place) => numbered(33, place, Some(Judgement::Object)),
            Refusal::LamAtNoProduct(place) => numbered(34, place, Some(Judgement::Object)),
            Refusal::TooFew(place) => numbered(35, place, Some(Judgement::Spine)),
            Refusal::TooMany(place) => numbered(36, place, Some(Judgement::Spine)),
            Refusal::Unequal(place) => numbered(37, place, Some(Judgement::Object)),
            Refusal::NoResult(place) => numbered(38, place, Some(Judgement::Spine)),
            Refusal::NoRoom(place, judgement) => numbered(39, place, Some(judgement)),
            Refusal::UnfitEntry => numbered(41, nowhere, None),
            Refusal::NameTaken(at) => numbered(42, Place { at, ..nowhere }, None),
            Refusal::StoreFull(at) => numbered(43, Place { at, ..nowhere }, None),
            Refusal::NoSuchConstant => numbered(51, nowhere, None),
            Refusal::ShortNumbers => numbered(52, nowhere, None),
        }
    }
}

// A refusal's number in words.
// By number, by the same rule: a fault may hold any.
fn reason(number: u8) -> &'static str
    ensures { result.now ≡ reason_bytes number }
{
    match number {
        11 => "the text is too long",
        12 => "the work table is too long or too short",
        13 => "no token begins here",
        14 => "the name is too long",
        15 => "the token does not fit the grammar",
        16 => "too deep",
        21 => "no binder and no constant has this name",
        31 => "the expression has not this form",
        32 => "the head has the wrong classifier",
        33 => "a head against a product",
        34 => "an abstraction against no product",
        35 => "too few arguments",
        36 => "too many arguments",
        37 => "the types differ",
        38 => "the substitution has no result",
        39 => "the nodes do not fit the work table",
        41 => "the name or the classifier is unfit",
        42 => "the name is taken",
        43 => "the store is full",
        51 => "no such constant",
        52 => "the number table is too short",
        _ => "unknown",
    }
}

// `39 layer 3 text 1 place 24 judgement 4 - the nodes do not fit the work table`.
impl fmt::Display for Fault {
    ghost output = { λ fault. Some (fault_bytes fault) };

    fn fmt<W: fmt::Write>(&self, f: &mut fmt::Formatter<W>) -> fmt::Result {
        let Fault {
            layer,
            number,
            text,
            place,
            judgement,
        } = *self;
        let reason = reason(number);
        write!(
            f,
            "{number} layer {layer} text {text} place {place} judgement {judgement} - {reason}"
        )
    }
}
