// Moves, labels, machines, faults, and runs of a machine over a list of atoms.
#![tactic(auto)]

ghost use Rattle.std.specs.Prelude.{◌≡◌, ℕ, ◌<◌, ◌≤◌, Bool, true, ◌⊎◌, List, length, Option as Optional, MatchOption};
ghost use Rattle.atoms.specs.Atoms.{atoms};
ghost use Rattle.automata.specs.declared.Move.{Move};
ghost use Rattle.automata.specs.declared.Move.TheVariants.{Accept, Reject, Step};
ghost use Rattle.automata.specs.Faults.{number_of, layer_of, place_of};
ghost use Rattle.automata.specs.Runs.{ended};

use std::error::Error;
use std::fmt;

// What a state does at an atom: it accepts, rejects, or gives an order, the label, and goes on at the target.
#[derive(Clone, Copy, Debug, PartialEq, Eq)]
pub enum Move<L> {
    Accept,
    Reject,
    Step(L, u16),
}

// A kind of label. A label is what an order says; its kind has a number and tells which labels are the same. These are methods, and
// not PartialEq and TryFrom: unlike labels can be the same, and the laws below tie the methods to one another.
pub trait Label: Copy {
    // the kind's number
    ghost kind: { ℕ };

    // which labels are the same
    ghost alike: { Self → Self → Bool };

    // the label that three bytes make, if any
    ghost made: { List ℕ → Optional Self };

    // the three bytes of a label
    ghost written: { Self → List ℕ };

    fn number() -> u8
        ensures { result ≡ kind };

    fn same(&self, other: &Self) -> bool
        ensures { result ≡ alike self.now other.now };

    fn from_bytes(bytes: [u8; 3]) -> Option<Self>
        ensures { result ≡ made bytes };

    fn to_bytes(&self) -> [u8; 3]
        ensures { result ≡ written self.now };

    ghost byte: { kind < 256 };

    ghost reflexive: { (x : Self) → alike x x ≡ true };

    ghost symmetric: { (x y : Self) → alike x y ≡ true → alike y x ≡ true };

    ghost transitive: { (x y z : Self) → alike x y ≡ true → alike y z ≡ true → alike x z ≡ true };

    // a label has three bytes, and these make a label that is the same
    ghost three: { (x : Self) → length (written x) ≡ 3 };

    ghost back: { (x : Self) → MatchOption (made (written x)) ⊥ (λ y. alike x y ≡ true) };
}

// A machine with finitely many states, the first of which, 0, is its start. A machine of size 0 is void.
pub trait Machine {
    type Label: Label;

    // how many states there are
    ghost states: { Self → ℕ };

    // the move of a state at an atom
    ghost moves: { Self → ℕ → ℕ → Move Self.Label };

    fn size(&self) -> usize
        ensures { result ≡ states self.now };

    // state and atom change at each step of a run, each by itself, and are no struct
    fn step(&self, state: usize, atom: u8) -> Move<Self::Label>
        ensures { result ≡ moves self.now state atom };

    ghost small: { (m : Self) → states m ≤ 256 };

    // a step goes on at a state of the machine
    ghost closed: { (m : Self) (s a : ℕ) (l : Self.Label) (t : ℕ) → moves m s a ≡ Step l t → t < states m };

    // what is no state or no atom is rejected
    ghost outside: { (m : Self) (s a : ℕ) → (states m ≤ s) ⊎ (atoms ≤ a) → moves m s a ≡ Reject };
}

// Why a call is refused. docs/REFUSALS.md has the table; a place is counted in bytes from 0.
#[derive(Clone, Copy, Debug, PartialEq, Eq)]
pub enum Fault {
    // a buffer is below its fixed length
    ShortBuffer,
    // a text is over 16,384 bytes
    LongText,
    // a byte begins no token
    StrayByte(usize),
    // a number is over 127 or over three digits
    LargeNumber(usize),
    // a word is not known
    UnknownWord(usize),
    // the grammar does not allow this token, or the end of the text, here
    Unexpected(usize),
    // a measure stands where the kind has none
    NoMeasure(usize),
    // the 33rd level opens
    TooDeep(usize),
    // the 256th step begins
    TooManySteps(usize),
    // the machine is void
    VoidMachine,
    // the state is not below the size
    NoSuchState,
    // a field of a table's head, or its length, is wrong
    WrongHead(usize),
    // a field of a row is out of its range, or its label is declined
    WrongRow(usize),
    // a row's state is below that of the row before
    RowsUnordered(usize),
    // a row's set shares an atom with an earlier row of its state
    RowsOverlap(usize),
    // saving would need more than 2,048 rows
    TooManyRows,
}

impl Fault {
    // The fault's number, as it is told: the enum is the fault itself, and a further type for its number or layer would say no more.
    pub fn number(&self) -> u8
        ensures { result ≡ number_of self.now }
    {
        match self {
            Fault::ShortBuffer => 1,
            Fault::LongText => 2,
            Fault::StrayByte(_) => 3,
            Fault::LargeNumber(_) => 4,
            Fault::UnknownWord(_) => 5,
            Fault::Unexpected(_) => 6,
            Fault::NoMeasure(_) => 7,
            Fault::TooDeep(_) => 8,
            Fault::TooManySteps(_) => 9,
            Fault::VoidMachine => 10,
            Fault::NoSuchState => 11,
            Fault::WrongHead(_) => 13,
            Fault::WrongRow(_) => 14,
            Fault::RowsUnordered(_) => 15,
            Fault::RowsOverlap(_) => 16,
            Fault::TooManyRows => 17,
        }
    }

    // The layer that found the fault, where there is one.
    pub fn layer(&self) -> Option<u8>
        ensures { result ≡ layer_of self.now }
    {
        match self {
            Fault::ShortBuffer | Fault::LongText => Some(0),
            Fault::StrayByte(_) | Fault::LargeNumber(_) | Fault::UnknownWord(_) => Some(1),
            Fault::Unexpected(_) | Fault::TooDeep(_) => Some(2),
            Fault::NoMeasure(_) | Fault::TooManySteps(_) => Some(3),
            Fault::VoidMachine | Fault::NoSuchState => None,
            Fault::WrongHead(_) => Some(4),
            Fault::WrongRow(_) | Fault::RowsUnordered(_) | Fault::RowsOverlap(_) => Some(5),
            Fault::TooManyRows => Some(5),
        }
    }

    // The place of the fault in bytes, where there is one.
    pub fn place(&self) -> Option<usize>
        ensures { result ≡ place_of self.now }
    {
        match *self {
            Fault::ShortBuffer => Some(0),
            Fault::LongText => Some(16384),
            Fault::StrayByte(place) | Fault::LargeNumber(place) | Fault::UnknownWord(place) => Some(
                place,
            ),
            Fault::Unexpected(place) | Fault::TooDeep(place) => Some(place),
            Fault::NoMeasure(place) | Fault::TooManySteps(place) => Some(place),
            Fault::VoidMachine | Fault::NoSuchState => None,
            Fault::WrongHead(place) | Fault::WrongRow(place) => Some(place),
            Fault::RowsUnordered(place) | Fault::RowsOverlap(place) => Some(place),
            Fault::TooManyRows => Some(32778),
        }
    }
}

// What the fault says, in words.
impl fmt::Display for Fault {
    fn fmt<W: fmt::Write>(&self, f: &mut fmt::Formatter<W>) -> fmt::Result {
        f.write_str(match self {
            Fault::ShortBuffer => "buffer below its fixed length",
            Fault::LongText => "text over 16,384 bytes",
            Fault::StrayByte(_) => "byte that begins no token",
            Fault::LargeNumber(_) => "number over 127 or over three digits",
            Fault::UnknownWord(_) => "word not known",
            Fault::Unexpected(_) => "token or end of text that the grammar does not allow",
            Fault::NoMeasure(_) => "`by` with labels that have no measure",
            Fault::TooDeep(_) => "33rd level",
            Fault::TooManySteps(_) => "256th step",
            Fault::VoidMachine => "void machine",
            Fault::NoSuchState => "state not below the size",
            Fault::WrongHead(_) => "head field or length wrong",
            Fault::WrongRow(_) => "row field out of range or label declined",
            Fault::RowsUnordered(_) => "row's state below the row before",
            Fault::RowsOverlap(_) => "row shares an atom with an earlier row of its state",
            Fault::TooManyRows => "more than 2,048 rows to save",
        })
    }
}

impl Error for Fault {}

// How a run over a list of atoms ends; places count from 0.
#[derive(Clone, Copy, Debug, PartialEq, Eq)]
pub enum Ending {
    // the last atom is accepted
    Accepted,
    // the atom at this place is rejected
    Rejected(usize),
    // the atom at this place is accepted, and is not the last
    Early(usize),
    // every atom made a step; the place is the list's length
    Out(usize),
}

// Runs the machine from a state over the atoms, at most one move for each. State and atoms are no struct of their own: each caller
// has them apart, and would build it for this call alone.
pub fn run<M: Machine>(machine: &M, state: usize, atoms: &[u8]) -> Ending
    ensures { result ≡ ended (M.Machine.moves machine.now) 0 state atoms.now }
{
    let mut at = state;
    for (i, atom) in atoms.iter().enumerate() {
        match machine.step(at, *atom) {
            Move::Accept if i + 1 == atoms.len() => return Ending::Accepted,
            Move::Accept => return Ending::Early(i),
            Move::Reject => return Ending::Rejected(i),
            Move::Step(_, target) => at = usize::from(target),
        }
    }
    Ending::Out(atoms.len())
}
