// What the program answers, as it prints it.
use answers::{Line, Played};
use automata::{Ending, Move};
use requests::Tests;
use std::fmt;

// How many states the machine of a script has, or what it does on atoms.
#[derive(Drop)]
pub enum Reply {
    Size(usize),
    Run(Played),
}

// A line of a run, and its place.
#[derive(Clone, Copy)]
struct Numbered(usize, Line);

impl fmt::Display for Numbered {
    fn fmt<W: fmt::Write>(&self, f: &mut fmt::Formatter<W>) -> fmt::Result {
        let Numbered(place, Line { atom, made }) = *self;
        let tests = Tests(atom);
        write!(f, "{place}: {atom} {tests}: ")?;
        match made {
            Move::Accept => f.write_str("accept"),
            Move::Reject => f.write_str("reject"),
            Move::Step(order, _) => write!(f, "{order}"),
        }
    }
}

// How a run ended.
#[derive(Clone, Copy)]
struct Outcome(Ending);

impl fmt::Display for Outcome {
    fn fmt<W: fmt::Write>(&self, f: &mut fmt::Formatter<W>) -> fmt::Result {
        match self.0 {
            Ending::Accepted => f.write_str("accepted"),
            Ending::Rejected(place) => write!(f, "rejected at {place}"),
            Ending::Early(place) => write!(f, "accepted early at {place}"),
            Ending::Out(place) => write!(f, "run out at {place}"),
        }
    }
}

// A run has a line for each move, and one for its outcome.
impl fmt::Display for Reply {
    fn fmt<W: fmt::Write>(&self, f: &mut fmt::Formatter<W>) -> fmt::Result {
        match self {
            Reply::Size(states) => write!(f, "script: {states} states"),
            Reply::Run(Played { lines, ending }) => {
                for (place, line) in lines.iter().enumerate() {
                    let line = Numbered(place, *line);
                    writeln!(f, "{line}")?;
                }
                let outcome = Outcome(*ending);
                write!(f, "{outcome}")
            }
        }
    }
}
