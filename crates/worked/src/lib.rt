// The worked library: what the rules answer to each line of a log, from its bytes.
#![tactic(auto)]

ghost use Rattle.std.specs.Prelude.{◌≡◌};
ghost use Rattle.rules.specs.Log.{run};
ghost use Rattle.rules.specs.Rule.{flat};
ghost use Rattle.worked.specs.Worked.{lines, replies};

use refusals::{Judgement, Place, Refusal, Text};

// The answer to a line.
#[derive(Clone, Copy, Debug, PartialEq, Eq)]
pub enum Figure {
    Declared { constant: u32, work: u32 },
    Claimed { work: u32 },
    Refused(Refusal),
    Listed(&'static [u32]),
}

use Figure::{Claimed, Declared, Listed, Refused};

// What the rules answer to the lines of the worked list, over an empty flat table.
#[tactic(auto, using(crate::proofs::Computed::worked))]
pub fn figures() -> [Figure; 20]
    ensures { run flat lines ≡ replies result }
{
    [
        Declared {
            constant: 0,
            work: 1,
        },
        Declared {
            constant: 1,
            work: 3,
        },
        Declared {
            constant: 2,
            work: 7,
        },
        Declared {
            constant: 3,
            work: 1,
        },
        Declared {
            constant: 4,
            work: 11,
        },
        Declared {
            constant: 5,
            work: 11,
        },
        Declared {
            constant: 6,
            work: 5,
        },
        Declared {
            constant: 7,
            work: 71,
        },
        Claimed { work: 270 },
        Refused(Refusal::NoRoom(
            Place {
                text: Text::Proof,
                at: 24,
            },
            Judgement::Spine,
        )),
        Refused(Refusal::Unequal(Place {
            text: Text::Proof,
            at: 4,
        })),
        Refused(Refusal::HeadAtProduct(Place {
            text: Text::First,
            at: 25,
        })),
        Refused(Refusal::LamAtNoProduct(Place {
            text: Text::First,
            at: 8,
        })),
        Refused(Refusal::TooFew(Place {
            text: Text::First,
            at: 8,
        })),
        Refused(Refusal::TooMany(Place {
            text: Text::First,
            at: 8,
        })),
        Refused(Refusal::WrongHead(
            Place {
                text: Text::First,
                at: 4,
            },
            Judgement::Type,
        )),
        Refused(Refusal::WrongForm(
            Place {
                text: Text::First,
                at: 4,
            },
            Judgement::Type,
        )),
        Refused(Refusal::NameTaken(0)),
        Listed(&[0, 3, 5, 6, 7]),
        Listed(&[3, 4, 5, 6, 7]),
    ]
}
