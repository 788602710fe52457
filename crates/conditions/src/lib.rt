// Conditions: the sets of atoms that they stand for.
#![tactic(auto)]

ghost use Rattle.std.specs.Prelude.{◌≡◌, ℕ, ◌≤◌, ◌+◌, Ok, Err};
ghost use Rattle.automata.specs.declared.Fault.TheVariants.{TooDeep};
ghost use Rattle.tokens.specs.Streams.{Stream, left, ahead};
ghost use Rattle.conditions.specs.Operands.{operand_of};
ghost use Rattle.conditions.specs.Outcomes.{Out, Eats};
ghost use Rattle.conditions.specs.Conditions.{Told, Reads, Shortens, Joins, joined_of, factor_at, term_of, cond_at};

use atoms::AtomSet;
use automata::Fault;
use tokens::{Mark, Reader, Token};
use words::Word;

// What an operand of a condition begins with. An enum and no closure: the grammar is stated first token first.
#[derive(Clone, Copy)]
enum Operand {
    Set(AtomSet),
    Not(usize),
    Group(usize),
}

// The first token of an operand.
fn first_operand(reader: &mut Reader) -> Result<Operand, Fault>
    ensures { elim result [ Ok x ↦ operand_of (left reader.old) ≡ Ok (x, left reader.new) | Err f ↦ operand_of (left reader.old) ≡ Err f ] }
{
    match reader.next()? {
        Token::Word {
            word: Word::Test(test),
            ..
        } => Ok(Operand::Set(test.set())),
        Token::Number { value: 0, .. } => Ok(Operand::Set(AtomSet::empty())),
        Token::Number { value: 1, .. } => Ok(Operand::Set(AtomSet::all())),
        Token::Mark {
            place,
            mark: Mark::Not,
        } => Ok(Operand::Not(place)),
        Token::Mark {
            place,
            mark: Mark::OpenParen,
        } => Ok(Operand::Group(place)),
        other => Err(Fault::Unexpected(other.place())),
    }
}

// One level more, which opens at the place; so many are left.
pub fn open_level(levels: u8, place: usize) -> Result<u8, Fault>
    ensures { elim result [ Ok d ↦ levels ≡ d + 1 | Err f ↦ (levels ≡ 0) × (f ≡ TooDeep place) ] }
{
    levels.checked_sub(1).ok_or(Fault::TooDeep(place))
}

// Parts with the mark between them: their sets joined from the left.
fn joined<'a, P: Fn(&mut Reader<'a>) -> Result<AtomSet, Fault>, J: Fn(AtomSet, AtomSet) -> AtomSet>(
    reader: &mut Reader<'a>,
    mark: Mark,
    part: P,
    join: J,
) -> Result<AtomSet, Fault>
    requires part { P.IsAlwaysCallable part }
    requires join { J.IsAlwaysCallable join }
    requires shortens { Shortens (P.post part) }
    ensures { (p : Stream → Out ℕ) (op : ℕ → ℕ → ℕ) → Eats p → Reads (P.post part) p → Joins (J.post join) op → Told (joined_of mark p op (left reader.old)) result (left reader.new) }
{
    let mut set = part(reader)?;
    while reader.accept(mark) {
        set = join(set, part(reader)?);
    }
    Ok(set)
}

// The set of atoms of a condition: terms joined by `|`. Reader and levels are no struct of their own: the reader goes on through all
// parts, and the levels fall within brackets alone.
#[cycle(cond_factor_term)]
pub fn cond(reader: &mut Reader, levels: u8) -> Result<AtomSet, Fault>
    ensures { Told (cond_at levels (left reader.old)) result (left reader.new) }
{
    joined(
        reader,
        Mark::Or,
        |r|
            ensures { Told (term_of (factor_at levels) (left r.old)) result (left r.new) }
        { term(r, levels) },
        AtomSet::union,
    )
}

// The set of atoms of a term: factors joined by `&`.
#[cycle(cond_factor_term)]
fn term(reader: &mut Reader, levels: u8) -> Result<AtomSet, Fault>
    ensures { Told (term_of (factor_at levels) (left reader.old)) result (left reader.new) }
{
    joined(
        reader,
        Mark::And,
        |r|
            ensures { Told (factor_at levels (left r.old)) result (left r.new) }
        { factor(r, levels) },
        AtomSet::intersection,
    )
}

// The set of atoms of a factor.
#[cycle(cond_factor_term)]
#[tactic(auto, using(crate::proofs::Conds::factors))]
fn factor(reader: &mut Reader, levels: u8) -> Result<AtomSet, Fault>
    ensures { Told (factor_at levels (left reader.old)) result (left reader.new) }
{
    match first_operand(reader)? {
        Operand::Set(set) => Ok(set),
        Operand::Not(place) => {
            let below = open_level(levels, place)?;
            Ok(factor(reader, below)?.complement())
        }
        Operand::Group(place) => {
            let below = open_level(levels, place)?;
            let set = cond(reader, below)?;
            reader.expect(Mark::CloseParen)?;
            Ok(set)
        }
    }
}
