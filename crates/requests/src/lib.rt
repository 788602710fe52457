// What the words of a command line ask for, and places in a text.
#![tactic(auto)]

ghost use Rattle.std.specs.Prelude.{◌≡◌};
ghost use Rattle.requests.specs.declared.Wrong.TheVariants.{Usage, Memory};

use labels::UnknownKind;
use std::alloc::{AllocError, AllocFailed};

mod atom;
mod request;
mod spot;

pub use atom::{Tests, atom_of};
pub use request::{Command, Request, parse_request};
pub use spot::Spot;

// Why the words ask for nothing: they are no command, or memory lacks.
#[derive(Clone, Copy, Debug)]
pub enum Wrong {
    Usage,
    Memory,
}

impl From<AllocError> for Wrong {
    ghost from_gives = { λ e r. r ≡ Memory };

    fn from(_error: AllocError) -> Wrong {
        Wrong::Memory
    }
}

impl<T: Drop> From<AllocFailed<T>> for Wrong {
    ghost from_gives = { λ e r. r ≡ Memory };

    fn from(_error: AllocFailed<T>) -> Wrong {
        Wrong::Memory
    }
}

impl From<UnknownKind> for Wrong {
    ghost from_gives = { λ e r. r ≡ Usage };

    fn from(_error: UnknownKind) -> Wrong {
        Wrong::Usage
    }
}
