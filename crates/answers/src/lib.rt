// What the text of a script answers: the size of its machine, and the moves that it makes on a list of atoms.
#![tactic(auto)]

ghost use Rattle.std.specs.Prelude.{◌≡◌, IfOk};
ghost use Rattle.std.specs.Fn.{FnOnceReturnsAt};
ghost use Rattle.script.specs.Machines.{size_on, tree_of, moves_in};
ghost use Rattle.answers.specs.declared.Cause.TheVariants.{Refused, Memory};
ghost use Rattle.answers.specs.Lines.{told_move, lines_of, Plays};
ghost use Rattle.answers.specs.Told.{Told};

use automata::{Ending, Fault, Label, Machine, Move, run};
use labels::{Kind, Order, Spelled};
use reading::{NODE_RECORDS, read};
use script::{Node, ScriptMachine};
use std::alloc::{AllocError, Global};

// Why a text has no answer.
#[derive(Clone, Copy)]
pub enum Cause {
    Refused(Fault),
    Memory,
}

impl From<AllocError> for Cause {
    ghost from_gives = { λ e r. r ≡ Memory };

    fn from(_error: AllocError) -> Cause {
        Cause::Memory
    }
}

impl From<Fault> for Cause {
    ghost from_gives = { λ f r. r ≡ Refused f };

    fn from(fault: Fault) -> Cause {
        Cause::Refused(fault)
    }
}

// A move that was made, and the atom on which it was made.
#[derive(Clone, Copy)]
pub struct Line {
    pub atom: u8,
    pub made: Move<Order>,
}

// The moves of a run, and how it ended.
#[derive(Drop)]
pub struct Played {
    pub lines: Vec<Line>,
    pub ending: Ending,
}

// What is asked of the machine of a script. Heap, kind and text are no struct of their own: it would be taken apart here at once.
fn asked<L: Label, T, F: FnOnce(&ScriptMachine<L>) -> Result<T, AllocError>>(
    heap: Global,
    kind: Kind,
    text: &[u8],
    ask: F,
) -> Result<T, Cause>
    requires { F.IsAlwaysCallable ask }
    ensures { Told L.Label kind text.now (λ x size moves. (m : _) × FnOnceReturnsAt F.FnOnce ask m (Ok x) × (size ≡ size_on (tree_of m.script)) × (moves ≡ moves_in L.Label (tree_of m.script))) result }
{
    let mut nodes = vec![in heap; Node::Blank; NODE_RECORDS]?;
    read(kind, text, &mut nodes)?;
    Ok(ask(&ScriptMachine::of(&nodes))?)
}

// How many states the machine of a script has.
pub fn states<L: Label>(heap: Global, kind: Kind, text: &[u8]) -> Result<usize, Cause>
    ensures { Told L.Label kind text.now (λ n size moves. n ≡ size) result }
{
    asked::<L, _, _>(heap, kind, text, |machine| Ok(machine.size()))
}

// The same move with the order that its label stands for; no `From`, since Move is of another crate.
fn told<L: Spelled>(made: Move<L>) -> Move<Order>
    ensures { result ≡ told_move L.Spelled.said made }
{
    match made {
        Move::Accept => Move::Accept,
        Move::Reject => Move::Reject,
        Move::Step(label, target) => Move::Step(label.spelled(), target),
    }
}

// The moves that a machine makes from a state on the atoms. The walk stands in `run` too, which uses no heap and keeps no list.
fn lines<M: Machine>(
    heap: Global,
    machine: &M,
    state: usize,
    atoms: &[u8],
) -> Result<Vec<Line>, AllocError>
where
    M::Label: Spelled,
    ensures { IfOk result (λ v. v.items ≡ lines_of M.Label.Spelled.said (M.Machine.moves machine.now) state atoms.now) }
{
    let mut lines = Vec::new(heap);
    let mut at = state;
    for atom in atoms {
        let made = machine.step(at, *atom);
        lines.push(Line {
            atom: *atom,
            made: told(made),
        })?;
        match made {
            Move::Step(_, target) => at = usize::from(target),
            _ => return Ok(lines),
        }
    }
    Ok(lines)
}

// The run of a script's machine from a state over the atoms.
pub fn replay<L: Spelled>(
    heap: Global,
    kind: Kind,
    text: &[u8],
    state: usize,
    atoms: &[u8],
) -> Result<Played, Cause>
    ensures { Told L.Label kind text.now (λ x size moves. Plays L.Spelled.said moves state atoms.now x) result }
{
    asked::<L, _, _>(
        heap,
        kind,
        text,
        |machine| -> Result<Played, AllocError>
            ensures { IfOk result (λ x. Plays L.Spelled.said (moves_in L.Label (tree_of machine.now.script)) state atoms.entry.now x) }
        {
            Ok(Played {
                lines: lines(heap, machine, state, atoms)?,
                ending: run(machine, state, atoms),
            })
        },
    )
}
