// The marker: runs and checks make-up scripts.
#![tactic(auto)]

ghost use Rattle.std.specs.Prelude.{◌≡◌};
ghost use Rattle.marker.specs.Answers.{Answered, FileAnswered};
ghost use Rattle.marker.specs.Replies.{Replied, FileReplied};
ghost use Rattle.marker.specs.Files.{table_head};

use answers::{replay, states};
use labels::{Bare, Kind, Measured, Spelled};
use std::alloc::Global;
use std::process::ExitCode;
use std::{env, fs, io};

mod failure;
mod reply;

use failure::{Cause, Failure};
use reply::Reply;
use requests::{Command, Request, Wrong, parse_request};

// Whether a file is a table: whether it begins with the letters MUS.
fn is_table(file: &[u8]) -> bool
    ensures { result ≡ table_head file.now }
{
    file.starts_with(b"MUS")
}

// What the command answers on the text of a script. The kind is a value for reading and a type for the machine; heap and text are as in
// `answers`.
fn answer<L: Spelled>(
    heap: Global,
    kind: Kind,
    text: &[u8],
    command: &Command,
) -> Result<Reply, Cause>
    ensures read { Answered kind text.now result }
    ensures exact { Replied L.Label L.Spelled.said kind text.now command.now result }
{
    match command {
        Command::Check => Ok(Reply::Size(states::<L>(heap, kind, text)?)),
        Command::Run(atoms) => Ok(Reply::Run(replay::<L>(heap, kind, text, 0, atoms.as_slice())?)),
    }
}

// What the command answers on a file that was read.
fn answer_file(heap: Global, request: &Request, file: &[u8]) -> Result<Reply, Cause>
    ensures read { FileAnswered request.now.kind file.now result }
    ensures exact { FileReplied request.now file.now result }
{
    if is_table(file) {
        return Err(Cause::Table);
    }
    match request.kind {
        Kind::Bare => answer::<Bare>(heap, Kind::Bare, file, &request.command),
        Kind::Measured => answer::<Measured>(heap, Kind::Measured, file, &request.command),
    }
}

// What the program answers, or why there is no answer.
fn work(rt: &HostRuntime) -> Result<Reply, Failure> {
    let heap = rt.alloc();
    let args = env::args(rt).map_err(|_| Wrong::Usage)?;
    let words = args.skip(1).collect::<Vec<String>>(heap)?;
    let request = parse_request(heap, &words)?;
    // no `?`, since the failure takes the name that is read
    let Ok(file) = fs::read(rt, request.file.as_str()) else {
        return Err(Failure::unreadable(request.file));
    };
    answer_file(heap, &request, &file).map_err(|cause| Failure::of(request.file, cause, &file))
}

// Prints what the program answers, or to standard error why there is no answer.
fn report(rt: &HostRuntime) -> io::Result<ExitCode> {
    match work(rt) {
        Ok(reply) => {
            println!(rt; "{reply}")?;
            Ok(ExitCode::SUCCESS)
        }
        Err(failure) => {
            eprintln!(rt; "{failure}")?;
            Ok(ExitCode::FAILURE)
        }
    }
}

fn main(rt: HostRuntime) -> ExitCode {
    report(&rt).unwrap_or(ExitCode::FAILURE)
}
