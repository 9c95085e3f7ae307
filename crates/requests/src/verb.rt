// The words that requests begin with.
ghost use Rattle.requests.specs.Asked.{verb_named};
ghost use Rattle.requests.specs.Words.{verb_bytes, verbs};
ghost use Rattle.std.specs.Prelude.{◌≡◌, refl, Some};
ghost use Rattle.std.specs.Result.{result_ok};

use crate::NoRequest;
use crate::choice::{Choice, spelled};
use std::fmt;

// The word that a request begins with.
#[derive(Clone, Copy, Debug, PartialEq, Eq)]
pub enum Verb {
    Store,
    Table,
    Numbers,
    Declare,
    Claim,
    Count,
    LookUp,
    RestsOn,
    Carries,
    Seal,
}

impl Choice for Verb {
    ghost use Rattle.requests.specs.declared.verb.Verb.TheVariants.{Store, Table, Numbers, Declare, Claim, Count, LookUp, RestsOn, Carries, Seal};

    ghost all = { verbs };

    ghost bytes = { verb_bytes };

    ghost spells_itself = { elim [ Store ↦ refl | Table ↦ refl | Numbers ↦ refl | Declare ↦ refl | Claim ↦ refl | Count ↦ refl | LookUp ↦ refl | RestsOn ↦ refl | Carries ↦ refl | Seal ↦ refl ] };

    fn all() -> &'static [Verb] {
        &[
            Verb::Store,
            Verb::Table,
            Verb::Numbers,
            Verb::Declare,
            Verb::Claim,
            Verb::Count,
            Verb::LookUp,
            Verb::RestsOn,
            Verb::Carries,
            Verb::Seal,
        ]
    }

    fn word(self) -> &'static str {
        match self {
            Verb::Store => "store",
            Verb::Table => "table",
            Verb::Numbers => "numbers",
            Verb::Declare => "declare",
            Verb::Claim => "claim",
            Verb::Count => "count",
            Verb::LookUp => "look-up",
            Verb::RestsOn => "rests-on",
            Verb::Carries => "carries",
            Verb::Seal => "seal",
        }
    }
}

impl TryFrom<&[u8]> for Verb {
    type Error = NoRequest;

    ghost try_from_gives = { λ word r. result_ok r ≡ verb_named word.now };

    fn try_from(word: &[u8]) -> Result<Verb, NoRequest> {
        spelled(word).ok_or(NoRequest)
    }
}

impl fmt::Display for Verb {
    ghost output = { λ verb. Some (verb_bytes verb) };

    fn fmt<W: fmt::Write>(&self, f: &mut fmt::Formatter<W>) -> fmt::Result {
        f.write_str(self.word())
    }
}
