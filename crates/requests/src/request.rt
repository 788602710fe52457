// What the words of a command line ask for.
ghost use Rattle.std.specs.Prelude.{IfOk};
ghost use Rattle.requests.specs.Requests.{Kinded, Atoms, Commanded, Asked};

use crate::Wrong;
use crate::atom::atom_of;
use labels::Kind;
use std::alloc::Global;

// What is done with a file.
#[derive(Drop)]
pub enum Command {
    Check,
    Run(Vec<u8>),
}

#[derive(Drop)]
pub struct Request {
    pub kind: Kind,
    pub command: Command,
    pub file: String,
}

// The kind that the words begin with by `--kind`, if they do, and the words behind it.
fn kind_option(words: &[String]) -> Result<(Option<Kind>, &[String]), Wrong>
    ensures { IfOk result (λ x. Kinded words.now x.0 x.1.now) }
{
    match words.split_first() {
        Some((option, rest)) if option.as_str() == "--kind" => {
            let (number, rest) = rest.split_first().ok_or(Wrong::Usage)?;
            let kind = number.as_str().parse::<Kind>()?;
            Ok((Some(kind), rest))
        }
        _ => Ok((None, words)),
    }
}

// The atoms that the words write.
fn atoms_of(heap: Global, words: &[String]) -> Result<Vec<u8>, Wrong>
    ensures { IfOk result (λ v. Atoms words.now v.items) }
{
    let mut atoms = Vec::new(heap);
    for word in words {
        atoms.push(atom_of(word.as_bytes()).ok_or(Wrong::Usage)?)?;
    }
    Ok(atoms)
}

// The command of a name, with the words behind its file.
fn command_of(heap: Global, name: &str, words: &[String]) -> Result<Command, Wrong>
    ensures { IfOk result (λ q. Commanded name.now words.now q) }
{
    match name {
        "run" => Ok(Command::Run(atoms_of(heap, words)?)),
        "check" if words.is_empty() => Ok(Command::Check),
        _ => Err(Wrong::Usage),
    }
}

// What the words ask for; labels are measured where no kind is given. The heap is passed on to whoever makes a list, and no part of
// what is asked.
pub fn parse_request(heap: Global, words: &[String]) -> Result<Request, Wrong>
    ensures { IfOk result (λ q. Asked words.now q) }
{
    let (before, rest) = kind_option(words)?;
    let (name, rest) = rest.split_first().ok_or(Wrong::Usage)?;
    let (after, rest) = kind_option(rest)?;
    let kind = after.or(before).unwrap_or(Kind::Measured);
    let (file, rest) = rest.split_first().ok_or(Wrong::Usage)?;
    let command = command_of(heap, name.as_str(), rest)?;
    Ok(Request {
        kind,
        command,
        file: file.clone()?,
    })
}
