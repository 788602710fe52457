// Scripts, steps and blocks, by recursive descent into a lent node list.
ghost use Rattle.std.specs.Prelude.{◌*◌, ◌≤◌, length};
ghost use Rattle.script.specs.Lists.{most_steps};
ghost use Rattle.reading.specs.Drafts.{node_records};

use crate::{First, first_token, plain};
use atoms::AtomSet;
use automata::Fault;
use conditions::{cond, open_level};
use labels::Kind;
use script::{MOST_STEPS, Node};
use tokens::{Mark, Reader};

// A reader of a script of the kind, and the script so far: how many nodes of the list are used, and how many steps are
// counted. There is room, since a script has at most two nodes for each step.
// A lent list with the number that is used beside it, and no Vec: reading and running use no heap.
#[derive(Drop)]
pub(crate) struct Parser<'t, 'n> {
    pub(crate) reader: Reader<'t>,
    pub(crate) kind: Kind,
    pub(crate) nodes: &'n mut [Node],
    pub(crate) used: usize,
    pub(crate) steps: usize,
    ghost few: { steps ≤ most_steps },
    ghost tight: { used ≤ 2 * steps },
    ghost wide: { node_records ≤ length nodes.now },
}

impl Parser<'_, '_> {
    ghost use Rattle.std.specs.Prelude.{◌≡◌, ◌*◌, ◌<◌, ◌≤◌, Ok, Err};
    ghost use Rattle.automata.specs.declared.Fault.TheVariants.{TooManySteps};
    ghost use Rattle.script.specs.Lists.{most_steps};
    ghost use Rattle.tokens.specs.Streams.{left};
    ghost use Rattle.reading.specs.Steps.{step_at, script_at, block_at, if_of};
    ghost use Rattle.reading.specs.Stores.{Counted, Pushed, Drafted};

    // One step more, which begins at the place.
    fn count(&mut self, place: usize) -> Result<(), Fault>
        ensures { elim result [ Ok _ ↦ (self.old.steps < most_steps) × Counted self.old self.new | Err f ↦ (most_steps ≤ self.old.steps) × (f ≡ TooManySteps place) ] }
    {
        if self.steps >= MOST_STEPS {
            return Err(Fault::TooManySteps(place));
        }
        self.steps += 1;
        Ok(())
    }

    // One node more.
    fn push(&mut self, node: Node)
        requires { self.old.used < 2 * self.old.steps }
        ensures { Pushed self.old node self.new }
    {
        self.nodes[self.used] = node;
        self.used += 1;
    }

    // Steps joined by `;`.
    #[cycle(block_branch_script_step)]
    #[tactic(auto, using(crate::proofs::Stores::room_behind, crate::proofs::Blocks::grown_more))]
    pub(crate) fn script(&mut self, levels: u8) -> Result<(), Fault>
        ensures { Drafted 0 (script_at self.old.kind levels self.old.steps (left self.old.reader)) self.old self.new result }
    {
        self.step(levels)?;
        while self.reader.accept(Mark::Semicolon) {
            self.step(levels)?;
            self.push(Node::Sequence);
        }
        Ok(())
    }

    // One step.
    #[cycle(block_branch_script_step)]
    #[tactic(auto, using(crate::proofs::Stores::room_behind))]
    fn step(&mut self, levels: u8) -> Result<(), Fault>
        ensures { Drafted 0 (step_at self.old.kind levels self.old.steps (left self.old.reader)) self.old self.new result }
    {
        let (place, first) = first_token(&mut self.reader)?;
        self.count(place)?;
        match first {
            First::Plain(leaf) => {
                let node = plain(&mut self.reader, self.kind, levels, leaf)?;
                self.push(node);
                Ok(())
            }
            First::If => {
                let set = cond(&mut self.reader, levels)?;
                self.branch(levels, set)
            }
            First::While => {
                let set = cond(&mut self.reader, levels)?;
                self.block(levels)?;
                self.push(Node::While(set));
                Ok(())
            }
        }
    }

    // The blocks of an `if`, which is counted, after its condition.
    #[cycle(block_branch_script_step)]
    #[tactic(auto, using(crate::proofs::Stores::room_behind))]
    fn branch(&mut self, levels: u8, set: AtomSet) -> Result<(), Fault>
        ensures { Drafted 1 (if_of (block_at self.old.kind levels) self.old.steps set.bits (left self.old.reader)) self.old self.new result }
    {
        self.block(levels)?;
        if !self.reader.accept_else() {
            self.push(Node::When(set));
            return Ok(());
        }
        self.block(levels)?;
        self.push(Node::If(set));
        Ok(())
    }

    // A script in curly brackets, which open a level.
    #[cycle(block_branch_script_step)]
    #[tactic(auto, using(crate::proofs::Blocks::block_fails, crate::proofs::Blocks::block_script_fails, crate::proofs::Blocks::block_all))]
    fn block(&mut self, levels: u8) -> Result<(), Fault>
        ensures { Drafted 0 (block_at self.old.kind levels self.old.steps (left self.old.reader)) self.old self.new result }
    {
        let place = self.reader.expect(Mark::OpenBrace)?;
        let below = open_level(levels, place)?;
        self.script(below)?;
        self.reader.expect(Mark::CloseBrace)?;
        Ok(())
    }
}
