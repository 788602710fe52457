// Outcomes: what is stored and what is found.
ghost use Rattle.std.specs.Prelude.{◌≡◌, map, IfOk};
ghost use Rattle.trials.specs.Outcomes.{outcome_of, refused_by, Stored};

use anyhow::anyhow;
use automata::{Ending, Fault};
use std::fmt;

// What a line stores, or what was found. A refusal is three numbers and no Fault: a stored line may say what no fault has.
#[derive(Clone, Copy, PartialEq)]
pub enum Outcome {
    // the machine's size
    Read(usize),
    Refused {
        number: u8,
        layer: Option<u8>,
        place: Option<usize>,
    },
    Ended(Ending),
}

// The outcome of a refusal.
impl From<Fault> for Outcome {
    ghost from_gives = { λ f r. r ≡ refused_by f };

    fn from(fault: Fault) -> Outcome {
        Outcome::Refused {
            number: fault.number(),
            layer: fault.layer(),
            place: fault.place(),
        }
    }
}

// The outcome of a run that ended so.
impl From<Ending> for Outcome {
    ghost from_gives = { λ e r. r ≡ outcome_of e };

    fn from(ending: Ending) -> Outcome {
        Outcome::Ended(ending)
    }
}

// The outcome that the fields of a line store; how many steps a script has is not compared.
impl<'a, 'b> TryFrom<&'a [&'b str]> for Outcome {
    type Error = anyhow::Error;

    ghost try_from_gives = { λ fields r. IfOk r (λ o. Stored (map (λ x. x.now) fields.now) o) };

    fn try_from(fields: &'a [&'b str]) -> anyhow::Result<Outcome> {
        match fields {
            ["ok", size, _] => Ok(Outcome::Read(size.parse()?)),
            ["refused", cause, layer, place] => Ok(Outcome::Refused {
                number: cause.parse()?,
                layer: Some(layer.parse()?),
                place: Some(place.parse()?),
            }),
            ["accepted"] => Ok(Outcome::Ended(Ending::Accepted)),
            ["rejected", place] => Ok(Outcome::Ended(Ending::Rejected(place.parse()?))),
            ["early", place] => Ok(Outcome::Ended(Ending::Early(place.parse()?))),
            ["out", place] => Ok(Outcome::Ended(Ending::Out(place.parse()?))),
            _ => Err(anyhow!("an outcome that is not known")),
        }
    }
}

impl fmt::Display for Outcome {
    fn fmt<W: fmt::Write>(&self, f: &mut fmt::Formatter<W>) -> fmt::Result {
        match *self {
            Outcome::Read(size) => write!(f, "ok {size}"),
            Outcome::Refused {
                number,
                layer,
                place,
            } => {
                write!(f, "refused {number}")?;
                if let Some(layer) = layer {
                    write!(f, " {layer}")?;
                }
                if let Some(place) = place {
                    write!(f, " {place}")?;
                }
                Ok(())
            }
            Outcome::Ended(Ending::Accepted) => f.write_str("accepted"),
            Outcome::Ended(Ending::Rejected(place)) => write!(f, "rejected {place}"),
            Outcome::Ended(Ending::Early(place)) => write!(f, "early {place}"),
            Outcome::Ended(Ending::Out(place)) => write!(f, "out {place}"),
        }
    }
}
