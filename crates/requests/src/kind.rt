// Kinds of store.
ghost use Rattle.requests.specs.Asked.{kind_named};
ghost use Rattle.requests.specs.Words.{kind_bytes, kinds};
ghost use Rattle.std.specs.Prelude.{◌≡◌, refl, Some};
ghost use Rattle.std.specs.Result.{result_ok};

use crate::NoRequest;
use crate::choice::{Choice, spelled};
use std::fmt;

// Where the constants of a library are kept.
#[derive(Clone, Copy, Debug, PartialEq, Eq)]
pub enum StoreKind {
    Flat,
    Module,
}

impl Choice for StoreKind {
    ghost use Rattle.requests.specs.declared.kind.StoreKind.TheVariants.{Flat, Module};

    ghost all = { kinds };

    ghost bytes = { kind_bytes };

    ghost spells_itself = { elim [ Flat ↦ refl | Module ↦ refl ] };

    fn all() -> &'static [StoreKind] {
        &[StoreKind::Flat, StoreKind::Module]
    }

    fn word(self) -> &'static str {
        match self {
            StoreKind::Flat => "flat",
            StoreKind::Module => "module",
        }
    }
}

impl TryFrom<&[u8]> for StoreKind {
    type Error = NoRequest;

    ghost try_from_gives = { λ name r. result_ok r ≡ kind_named name.now };

    fn try_from(name: &[u8]) -> Result<StoreKind, NoRequest> {
        spelled(name).ok_or(NoRequest)
    }
}

impl fmt::Display for StoreKind {
    ghost output = { λ kind. Some (kind_bytes kind) };

    fn fmt<W: fmt::Write>(&self, f: &mut fmt::Formatter<W>) -> fmt::Result {
        f.write_str(self.word())
    }
}
