//! txsim: runs a scenario from standard input and prints its report.
#![tactic(auto)]

ghost use Rattle.std.specs.Prelude.{◌≡◌};
ghost use Rattle.txsim.specs.Codes.{exit_code};

use host_io::{StdSink, StdSource};
use ignite_types::Status;
use sim_top::sim;
use std::process::ExitCode;
use std::rt::Env;
use std::{env, io};

/// The exit code of a status.
fn code(status: Status) -> u8
    ensures { result ≡ exit_code status }
{
    match status {
        Status::AllEnded => 0,
        Status::Stalled => 1,
        Status::Usage => 2,
        Status::Refused => 3,
        Status::StepLimit => 4,
        Status::Memory => 5,
        Status::ReadFault => 6,
        Status::WriteFault => 7,
    }
}

/// A word that no command line has: it stands for one that is no UTF-8.
const NO_WORD: &str = "\u{fffd}";

/// The words of the command line, without the program's name; nothing where memory ran out.
fn words(rt: &(impl Env + AllocGlobal)) -> Option<Vec<String>> {
    let mut words = Vec::new(rt.alloc());
    match env::args(rt) {
        Ok(all) => {
            for word in all.skip(1) {
                words.push(word).ok()?;
            }
        }
        Err(error) => {
            if error.kind() == io::ErrorKind::OutOfMemory {
                return None;
            }
            words
                .push(String::from_str(rt.alloc(), NO_WORD).ok()?)
                .ok()?;
        }
    }
    Some(words)
}

/// The program ends with no other number than those of `code`.
fn main(rt: HostRuntime) -> ExitCode {
    let Some(words) = words(&rt) else {
        return ExitCode::from(code(Status::Memory));
    };
    let mut source = StdSource::new(rt.stdin());
    let mut sink = StdSink::new(rt.stdout());
    let end = sim(rt.alloc(), words.as_slice(), &mut source, &mut sink);
    ExitCode::from(code(end.status))
}
