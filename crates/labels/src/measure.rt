// A label with a measure. Picas and points lie from -128 to 127.
ghost use Rattle.std.specs.Prelude.{◌<◌};
ghost use Rattle.std.specs.Int.Signed.{mag};

use crate::Verb;

#[derive(Clone, Copy, Debug)]
pub struct Measured {
    pub(crate) verb: Verb,
    pub(crate) picas: i8,
    pub(crate) points: i8,
    ghost narrow: { mag picas < 128 },
    ghost low: { mag points < 128 },
}
