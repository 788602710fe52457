// Why there is no answer, as the program says it.
ghost use Rattle.std.specs.Prelude.{◌≡◌, None, Option as Optional};
ghost use Rattle.marker.specs.declared.failure.Failure.TheVariants.{Words};
ghost use Rattle.requests.specs.declared.Wrong.TheVariants.{Memory};
ghost use Rattle.marker.specs.Spots.{Spotted};
ghost use Rattle.marker.specs.declared.failure.Cause.TheVariants.{Unanswered};

use automata::Fault;
use requests::{Spot, Wrong};
use std::alloc::AllocError;
use std::fmt;

// Why a file has no answer.
#[derive(Clone, Copy)]
pub enum Cause {
    Unreadable,
    Table,
    Unanswered(answers::Cause),
}

impl From<answers::Cause> for Cause {
    ghost from_gives = { λ c r. r ≡ Unanswered c };

    fn from(cause: answers::Cause) -> Cause {
        Cause::Unanswered(cause)
    }
}

// Why the program has no answer: its words are no command, or a file gives none.
#[derive(Drop)]
pub enum Failure {
    Words(Wrong),
    File {
        name: String,
        cause: Cause,
        spot: Option<Spot>,
    },
}

impl From<Wrong> for Failure {
    ghost from_gives = { λ w r. r ≡ Words w };

    fn from(wrong: Wrong) -> Failure {
        Failure::Words(wrong)
    }
}

impl From<AllocError> for Failure {
    ghost from_gives = { λ e r. r ≡ Words Memory };

    fn from(_error: AllocError) -> Failure {
        Failure::Words(Wrong::Memory)
    }
}

impl Failure {
    // A file that cannot be read.
    pub(crate) fn unreadable(name: String) -> Failure
        ensures { result ≡ Failure.File name Cause.Unreadable None }
    {
        Failure::File {
            name,
            cause: Cause::Unreadable,
            spot: None,
        }
    }

    // The cause at a file, with the spot of a refusal in its text.
    pub(crate) fn of(name: String, cause: Cause, text: &[u8]) -> Failure
        ensures { (s : Optional Spot) × (result ≡ Failure.File name cause s) × Spotted cause text.now s }
    {
        let spot = spot_of(cause, text);
        Failure::File { name, cause, spot }
    }
}

// The spot of a refusal in a text, where it has a place.
fn spot_of(cause: Cause, text: &[u8]) -> Option<Spot>
    ensures { Spotted cause text.now result }
{
    match cause {
        Cause::Unanswered(answers::Cause::Refused(fault)) => {
            fault.place().map(|place| Spot::of(text, place))
        }
        _ => None,
    }
}

// A refusal, and its spot where it has one.
#[derive(Clone, Copy)]
struct Refusal {
    fault: Fault,
    spot: Option<Spot>,
}

// Its number, its layer, place and spot where it has them, and its words.
impl fmt::Display for Refusal {
    fn fmt<W: fmt::Write>(&self, f: &mut fmt::Formatter<W>) -> fmt::Result {
        let Refusal { fault, spot } = *self;
        let number = fault.number();
        write!(f, "refused {number}")?;
        if let Some(layer) = fault.layer() {
            write!(f, ", layer {layer}")?;
        }
        if let Some(place) = fault.place() {
            write!(f, ", place {place}")?;
        }
        if let Some(spot) = spot {
            write!(f, " ({spot})")?;
        }
        write!(f, ": {fault}")
    }
}

impl fmt::Display for Failure {
    fn fmt<W: fmt::Write>(&self, f: &mut fmt::Formatter<W>) -> fmt::Result {
        match self {
            Failure::Words(Wrong::Usage) => {
                f.write_str("usage: marker run [--kind 1|2] MACHINE ATOM...\n")?;
                f.write_str("       marker check [--kind 1|2] FILE\n")?;
                f.write_str(
                    "an ATOM is a number 0 to 255, tests joined by `+` (widow orphan head figure note last), or `none`",
                )
            }
            Failure::Words(Wrong::Memory) => f.write_str("marker: no memory"),
            Failure::File { name, cause, spot } => {
                write!(f, "marker: {name}: ")?;
                match *cause {
                    Cause::Unreadable => f.write_str("cannot be read"),
                    Cause::Table => f.write_str("tables are not read yet"),
                    Cause::Unanswered(answers::Cause::Refused(fault)) => {
                        let refusal = Refusal { fault, spot: *spot };
                        write!(f, "{refusal}")
                    }
                    Cause::Unanswered(answers::Cause::Memory) => f.write_str("no memory"),
                }
            }
        }
    }
}
