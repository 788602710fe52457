// What a line of a file asks the libraries.
ghost use Rattle.std.specs.Prelude.{◌≡◌, ◌==◌, [], map, IfOk, codes};
ghost use Rattle.std.specs.List.{slice_split};
ghost use Rattle.answers.specs.Told.{Told};
ghost use Rattle.trials.specs.Fields.{AllWritten};
ghost use Rattle.trials.specs.Kinds.{Numbers};
ghost use Rattle.trials.specs.Questions.{Atoms, Replays, Asks, Declined, Met, FoundBy};

use crate::escape::unescape;
use crate::outcome::Outcome;
use answers::{Cause, replay, states};
use anyhow::anyhow;
use labels::{Bare, Kind, Measured, Spelled};
use std::alloc::Global;

// What is asked of a script.
#[derive(Drop)]
enum Task {
    Size,
    Replay { state: usize, atoms: Vec<u8> },
}

// A script of a kind, and what is asked of it.
#[derive(Drop)]
pub struct Question {
    kind: Kind,
    text: Vec<u8>,
    task: Task,
}

// The kind of label that a field numbers. A function of its own: tried with `parse` in its place, the proof of `Question::of` does not close.
fn kind_of(field: &str) -> anyhow::Result<Kind>
    ensures { IfOk result (λ k. Numbers k field.now) }
{
    Ok(field.parse::<Kind>()?)
}

// The numbers of a list with commas.
fn numbers_of(heap: Global, list: &str) -> anyhow::Result<Vec<u8>>
    ensures { IfOk result (λ v. AllWritten v.items (slice_split (λ b. b == 44) list.now)) }
{
    let mut numbers = Vec::new(heap);
    for item in list.split(',') {
        numbers.push(item.parse::<u8>()?)?;
    }
    Ok(numbers)
}

// The atoms of a list with commas; `-` stands for none.
fn atoms_of(heap: Global, field: &str) -> anyhow::Result<Vec<u8>>
    ensures none { IfOk result (λ v. field.now ≡ codes "-" → v.items ≡ []) }
    ensures atoms { IfOk result (λ v. Atoms field.now v.items) }
{
    if field == "-" {
        return Ok(Vec::new(heap));
    }
    numbers_of(heap, field)
}

// What is asked of a script from a state on, by the fields of the state and the atoms.
fn replay_of(heap: Global, state: &str, atoms: &str) -> anyhow::Result<Task>
    ensures { IfOk result (λ t. Replays state.now atoms.now t) }
{
    Ok(Task::Replay {
        state: state.parse::<usize>()?,
        atoms: atoms_of(heap, atoms)?,
    })
}

impl Question {
    // The question of a line's fields, and the fields behind it.
    pub(crate) fn of<'a, 'b>(
        heap: Global,
        fields: &'a [&'b str],
    ) -> anyhow::Result<(Question, &'a [&'b str])>
        ensures { IfOk result (λ x. Asks (map (λ x. x.now) fields.now) x.0 (map (λ x. x.now) x.1.now)) }
    {
        match fields {
            ["read", kind, text, rest @ ..] => {
                let kind = kind_of(kind)?;
                let text = unescape(heap, text.as_bytes())?;
                Ok((
                    Question {
                        kind,
                        text,
                        task: Task::Size,
                    },
                    rest,
                ))
            }
            ["replay", kind, text, state, atoms, rest @ ..] => {
                let kind = kind_of(kind)?;
                let text = unescape(heap, text.as_bytes())?;
                let task = replay_of(heap, state, atoms)?;
                Ok((Question { kind, text, task }, rest))
            }
            _ => Err(anyhow!("a line that asks nothing known")),
        }
    }

    // What the libraries answer.
    pub(crate) fn answer(&self, heap: Global) -> anyhow::Result<Outcome>
        ensures { IfOk result (λ o. FoundBy self.now o) }
    {
        match self.kind {
            Kind::Bare => answer_as::<Bare>(heap, self).or_else(refusal),
            Kind::Measured => answer_as::<Measured>(heap, self).or_else(refusal),
        }
    }
}

// The outcome of a text that has no answer, unless memory lacks.
fn refusal(cause: Cause) -> anyhow::Result<Outcome>
    ensures { IfOk result (λ o. Declined cause o) }
{
    match cause {
        Cause::Refused(fault) => Ok(Outcome::from(fault)),
        Cause::Memory => Err(anyhow!("no memory")),
    }
}

// What the libraries answer with labels of a kind.
fn answer_as<L: Spelled>(heap: Global, question: &Question) -> Result<Outcome, Cause>
    ensures { Told L.Label question.now.kind question.now.text.items (λ o size moves. Met question.now.task o size moves) result }
{
    let text = question.text.as_slice();
    match &question.task {
        Task::Size => Ok(Outcome::Read(states::<L>(heap, question.kind, text)?)),
        Task::Replay { state, atoms } => {
            let played = replay::<L>(heap, question.kind, text, *state, atoms.as_slice())?;
            Ok(Outcome::from(played.ending))
        }
    }
}
