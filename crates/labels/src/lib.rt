// Verbs, orders, and the two kinds of label: bare and measured.
#![tactic(auto)]

ghost use Rattle.std.specs.Prelude.{◌≡◌, pos};
ghost use Rattle.labels.specs.declared.Order.{Order as Said};
ghost use Rattle.labels.specs.Verbs.{byte_of, VerbOf, name_of};
ghost use Rattle.labels.specs.Kinds.{order_bytes, same_verb, alike_bare, made_bare, written_bare, said_bare, measure_of, alike_measured, made_measured, written_measured, said_measured, kind_number, has_measure, KindNamed};
ghost use Rattle.std.proofs.Common.{rules};
ghost use Rattle.labels.specs.Labels.{alike_through, measured_same};

use automata::Label;
use std::error::Error;
use std::fmt;
use std::str::FromStr;

mod measure;

pub use measure::Measured;

// What an order does.
#[derive(Clone, Copy, Debug, PartialEq, Eq)]
pub enum Verb {
    Line,
    Page,
    Column,
    Float,
    Foot,
    Feather,
    Tight,
    Loose,
    Hyphen,
    Rule,
    Blank,
    Run,
}

// A verb's byte, from 1.
impl From<Verb> for u8 {
    ghost from_gives = { λ v b. b ≡ byte_of v };

    fn from(verb: Verb) -> u8 {
        match verb {
            Verb::Line => 1,
            Verb::Page => 2,
            Verb::Column => 3,
            Verb::Float => 4,
            Verb::Foot => 5,
            Verb::Feather => 6,
            Verb::Tight => 7,
            Verb::Loose => 8,
            Verb::Hyphen => 9,
            Verb::Rule => 10,
            Verb::Blank => 11,
            Verb::Run => 12,
        }
    }
}

// A byte that is no verb's.
#[derive(Clone, Copy, Debug, PartialEq, Eq)]
pub struct UnknownVerb(pub u8);

impl fmt::Display for UnknownVerb {
    fn fmt<W: fmt::Write>(&self, f: &mut fmt::Formatter<W>) -> fmt::Result {
        write!(f, "no verb has byte {}", self.0)
    }
}

impl Error for UnknownVerb {}

impl TryFrom<u8> for Verb {
    type Error = UnknownVerb;

    ghost try_from_gives = { VerbOf };

    fn try_from(byte: u8) -> Result<Verb, UnknownVerb> {
        match byte {
            1 => Ok(Verb::Line),
            2 => Ok(Verb::Page),
            3 => Ok(Verb::Column),
            4 => Ok(Verb::Float),
            5 => Ok(Verb::Foot),
            6 => Ok(Verb::Feather),
            7 => Ok(Verb::Tight),
            8 => Ok(Verb::Loose),
            9 => Ok(Verb::Hyphen),
            10 => Ok(Verb::Rule),
            11 => Ok(Verb::Blank),
            12 => Ok(Verb::Run),
            _ => Err(UnknownVerb(byte)),
        }
    }
}

impl Verb {
    // The word that a script writes for the verb.
    pub fn name(self) -> &'static str
        ensures { result.now ≡ name_of self }
    {
        match self {
            Verb::Line => "line",
            Verb::Page => "page",
            Verb::Column => "column",
            Verb::Float => "float",
            Verb::Foot => "foot",
            Verb::Feather => "feather",
            Verb::Tight => "tight",
            Verb::Loose => "loose",
            Verb::Hyphen => "hyphen",
            Verb::Rule => "rule",
            Verb::Blank => "blank",
            Verb::Run => "run",
        }
    }
}

impl fmt::Display for Verb {
    fn fmt<W: fmt::Write>(&self, f: &mut fmt::Formatter<W>) -> fmt::Result {
        f.write_str(self.name())
    }
}

// What an order of a script says, before a kind makes its label of it.
#[derive(Clone, Copy, Debug, PartialEq, Eq)]
pub struct Order {
    pub verb: Verb,
    pub picas: i8,
    pub points: i8,
}

impl Order {
    // The order's three bytes.
    pub fn bytes(self) -> [u8; 3]
        ensures { result ≡ order_bytes self }
    {
        let verb = u8::from(self.verb);
        let picas = self.picas.cast_unsigned();
        let points = self.points.cast_unsigned();
        [verb, picas, points]
    }
}

// As scripts write it: a measure of 0p0 is left out, one minus stands for both parts, and parts of unlike sign carry their own.
impl fmt::Display for Order {
    fn fmt<W: fmt::Write>(&self, f: &mut fmt::Formatter<W>) -> fmt::Result {
        let verb = self.verb;
        let picas = i16::from(self.picas);
        let points = i16::from(self.points);
        if picas == 0 && points == 0 {
            write!(f, "{verb}")
        } else if picas <= 0 && points <= 0 {
            let picas = -picas;
            let points = -points;
            write!(f, "{verb} by -{picas}p{points}")
        } else if picas < 0 && points > 0 {
            write!(f, "{verb} by {picas}p+{points}")
        } else {
            write!(f, "{verb} by {picas}p{points}")
        }
    }
}

// A kind of label that stands for an order, as scripts write it.
pub trait Spelled: Label {
    // the order that the label stands for
    ghost said: { Self → Said };

    fn spelled(self) -> Order
        ensures { result ≡ said self };
}

// A label that is a verb alone.
#[derive(Clone, Copy, Debug)]
pub struct Bare {
    verb: Verb,
}

impl Spelled for Bare {
    ghost said = { said_bare };

    fn spelled(self) -> Order {
        Order {
            verb: self.verb,
            picas: 0,
            points: 0,
        }
    }
}

impl Label for Bare {
    ghost kind = { 1 };

    ghost alike = { alike_bare };

    ghost made = { made_bare };

    ghost written = { written_bare };

    ghost byte = { Prim.search rules };

    ghost reflexive = { Prim.search rules };

    ghost symmetric = { Prim.search rules };

    ghost transitive = { Prim.search rules };

    ghost three = { Prim.search rules };

    ghost back = { Prim.search rules };

    fn number() -> u8 {
        u8::from(Kind::Bare)
    }

    fn same(&self, other: &Bare) -> bool {
        self.verb == other.verb
    }

    fn from_bytes(bytes: [u8; 3]) -> Option<Bare> {
        match bytes {
            [byte, 0, 0] => Verb::try_from(byte).ok().map(|verb| Bare { verb }),
            _ => None,
        }
    }

    fn to_bytes(&self) -> [u8; 3] {
        [u8::from(self.verb), 0, 0]
    }
}

impl Measured {
    // The label's measure: twelve points make a pica.
    fn measure(self) -> i16
        ensures { result ≡ measure_of self }
    {
        12 * i16::from(self.picas) + i16::from(self.points)
    }
}

impl Spelled for Measured {
    ghost said = { said_measured };

    fn spelled(self) -> Order {
        Order {
            verb: self.verb,
            picas: self.picas,
            points: self.points,
        }
    }
}

impl Label for Measured {
    ghost kind = { 2 };

    ghost alike = { alike_measured };

    ghost made = { made_measured };

    ghost written = { written_measured };

    ghost byte = { Prim.search rules };

    ghost reflexive = { Prim.search rules };

    ghost symmetric = { Prim.search rules };

    ghost transitive = { alike_through };

    ghost three = { Prim.search rules };

    ghost back = { measured_same };

    fn number() -> u8 {
        u8::from(Kind::Measured)
    }

    fn same(&self, other: &Measured) -> bool {
        self.verb == other.verb && self.measure() == other.measure()
    }

    fn from_bytes(bytes: [u8; 3]) -> Option<Measured> {
        let [verb, picas, points] = bytes;
        Some(Measured {
            verb: Verb::try_from(verb).ok()?,
            picas: picas.cast_signed(),
            points: points.cast_signed(),
        })
    }

    fn to_bytes(&self) -> [u8; 3] {
        self.spelled().bytes()
    }
}

// The two kinds of label.
#[derive(Clone, Copy, Debug, PartialEq, Eq)]
pub enum Kind {
    Bare,
    Measured,
}

// The kind's number.
impl From<Kind> for u8 {
    ghost from_gives = { λ k n. n ≡ kind_number k };

    fn from(kind: Kind) -> u8 {
        match kind {
            Kind::Bare => 1,
            Kind::Measured => 2,
        }
    }
}

impl Kind {
    // Whether a label of the kind has a measure.
    pub fn takes_measure(self) -> bool
        ensures { result ≡ has_measure self }
    {
        match self {
            Kind::Bare => false,
            Kind::Measured => true,
        }
    }
}

// A word that numbers no kind.
#[derive(Clone, Copy, Debug, PartialEq, Eq)]
pub struct UnknownKind;

impl fmt::Display for UnknownKind {
    fn fmt<W: fmt::Write>(&self, f: &mut fmt::Formatter<W>) -> fmt::Result {
        f.write_str("a kind that is not known")
    }
}

impl Error for UnknownKind {}

// A kind by its number, as one digit.
impl FromStr for Kind {
    type Err = UnknownKind;

    ghost from_str_gives = { KindNamed };

    fn from_str(word: &str) -> Result<Kind, UnknownKind> {
        match word {
            "1" => Ok(Kind::Bare),
            "2" => Ok(Kind::Measured),
            _ => Err(UnknownKind),
        }
    }
}
