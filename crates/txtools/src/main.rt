//! txtools: audits a printed history from standard input.
#![tactic(auto)]

use host_io::{StdSink, StdSource, ToolStatus};
use std::process::ExitCode;
use std::rt::Env;
use std::{env, io};
use tools_top::tools;

/// A word that no command line has: it stands for one that is no UTF-8.
const NO_WORD: &str = "\u{fffd}";

/// The words of the command line, without the program's name; nothing where memory ran out.
fn words(rt: &(impl Env + AllocGlobal)) -> Option<Vec<String>> {
    let mut words = Vec::new(rt.alloc());
    match env::args(rt) {
        Ok(all) => {
            for word in all.skip(1) {
                words.push(word).ok()?;
            }
        }
        Err(error) => {
            if error.kind() == io::ErrorKind::OutOfMemory {
                return None;
            }
            words
                .push(String::from_str(rt.alloc(), NO_WORD).ok()?)
                .ok()?;
        }
    }
    Some(words)
}

/// The program ends with no other number than those of the statuses.
fn main(rt: HostRuntime) -> ExitCode {
    let Some(words) = words(&rt) else {
        return ExitCode::from(ToolStatus::Memory.code());
    };
    let mut source = StdSource::new(rt.stdin());
    let mut sink = StdSink::new(rt.stdout());
    let status = tools(rt.alloc(), words.as_slice(), &mut source, &mut sink);
    ExitCode::from(status.code())
}
