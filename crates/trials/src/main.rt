// Compares what the libraries answer with stored outcomes.
#![tactic(auto)]

ghost use Rattle.std.specs.Prelude.{◌≡◌, ◌+◌, ◌-◌, ◌^◌, map, IfOk, if◌then◌else◌, nat_lt};
ghost use Rattle.automata.specs.declared.Fault.TheVariants.{ShortBuffer};
ghost use Rattle.trials.specs.Outcomes.{refused_by};
ghost use Rattle.trials.specs.Comparisons.{Compared};

use anyhow::anyhow;
use std::alloc::Global;
use std::fs;

mod escape;
mod outcome;
mod question;

use labels::Kind;
use outcome::Outcome;
use question::Question;
use reading::{NODE_RECORDS, read};
use script::Node;

// How many lines a file has, and how many of them differ.
#[derive(Clone, Copy, Default)]
struct Tally {
    lines: u64,
    differ: u64,
}

impl Tally {
    // One line more, which may differ.
    fn with(self, differs: bool) -> Tally
        ensures lines { result.lines ≡ (if nat_lt (self.lines + 1) (2 ^ 64) then self.lines + 1 else 2 ^ 64 - 1) }
        ensures differ { result.differ ≡ (if differs then (if nat_lt (self.differ + 1) (2 ^ 64) then self.differ + 1 else 2 ^ 64 - 1) else self.differ) }
    {
        Tally {
            lines: self.lines.saturating_add(1),
            differ: self.differ.saturating_add(u64::from(differs)),
        }
    }
}

// The outcome that a line stores, and the one that is found.
fn both(heap: Global, fields: &[&str]) -> anyhow::Result<(Outcome, Outcome)>
    ensures { IfOk result (λ x. Compared (map (λ x. x.now) fields.now) x.0 x.1) }
{
    let (question, rest) = Question::of(heap, fields)?;
    let stored = Outcome::try_from(rest)?;
    let found = question.answer(heap)?;
    Ok((stored, found))
}

// Compares each line of a file, and prints those that differ.
fn compare(rt: &HostRuntime, file: &str) -> anyhow::Result<Tally> {
    let text = fs::read_to_string(rt, file)?;
    let mut tally = Tally::default();
    for line in text.as_str().lines() {
        let fields = line.split('\t').collect::<Vec<&str>>(rt.alloc())?;
        let (stored, found) = both(rt.alloc(), fields.as_slice())?;
        let differs = stored != found;
        tally = tally.with(differs);
        if differs {
            let at = tally.lines;
            println!(rt; "{file}, line {at}: expected {stored}, found {found}")?;
        }
    }
    Ok(tally)
}

// What reading into a list that is one record short answers: a refusal.
fn short_list(heap: Global) -> anyhow::Result<Outcome>
    ensures { IfOk result (λ o. o ≡ refused_by ShortBuffer) }
{
    let mut nodes = vec![in heap; Node::Blank; NODE_RECORDS - 1]?;
    match read(Kind::Measured, b"line", &mut nodes) {
        Ok(()) => Err(anyhow!("a short list that is not refused")),
        Err(fault) => Ok(Outcome::from(fault)),
    }
}

// Prints how many lines of a file differ; some that do are an error.
fn report(rt: &HostRuntime, file: &str) -> anyhow::Result<()> {
    let Tally { lines, differ } = compare(rt, file)?;
    println!(rt; "{file}: {lines} lines, {differ} differ")?;
    if differ > 0 {
        return Err(anyhow!("some lines differ"));
    }
    Ok(())
}

fn work(rt: &HostRuntime) -> anyhow::Result<()> {
    let short = short_list(rt.alloc())?;
    println!(rt; "a list one record short: {short}")?;
    for file in ["bounds.txt", "reading.txt", "replay.txt"] {
        report(rt, file)?;
    }
    Ok(())
}

fn main(rt: HostRuntime) -> anyhow::Result<()> {
    work(&rt)
}
