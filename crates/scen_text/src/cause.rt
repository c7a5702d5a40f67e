//! Why a text is no scenario.

ghost use Rattle.std.specs.Prelude.{◌≡◌, ◌++◌, codes, decimal, IfOk, Some};
ghost use Rattle.scen_text.specs.declared.cause.LineFault.TheVariants as fault;
ghost use Rattle.scen_text.specs.Causes.{what_text, cause_text, past_text, refusal_text, rule, fit};

use ignite_types::{Mem, NoMemory};
use scen_print::TextOut;
use std::alloc::Global;
use std::fmt;
use thiserror::Error;

/// What is past its limit: a number of a line that begins with this word, or a text, a moment or a count.
#[derive(Clone, Copy, Debug, PartialEq, Eq)]
pub enum What {
    Parts,
    Backups,
    Near,
    Server,
    Client,
    Cache,
    Data,
    Plan,
    Session,
    Begin,
    Sleep,
    Key,
    Value,
    Name,
    Moment,
    Commands,
    Nodes,
    Steps,
    Sessions,
    Caches,
}

/// What is wrong with a text.
#[derive(Clone, Copy, Debug, PartialEq, Eq, Error)]
pub enum Cause {
    /// It has too many bytes.
    #[error("the text is too long")]
    TooLong,
    /// A line is no UTF-8.
    #[error("the line is not UTF-8")]
    NotUtf8,
    /// The first word of a line begins no line of the text's format.
    #[error("no line of this format begins with that word")]
    UnknownWord,
    /// A line may not stand where it stands, or has a word too many, a word too few or one of another form.
    #[error("a word is missing, too many, of another form, or the line may not stand there")]
    Syntax,
    /// A number, a length or a count is past its limit.
    #[error("past the limit of {0:?}")]
    Limit(What),
    /// A step or a session names a node that no line and no join step names.
    #[error("no line names that node")]
    NoSuchNode,
    /// A command or a stop step names a cache that no line before it names.
    #[error("no line before names that cache")]
    NoSuchCache,
    /// A node, a session or a cache has a name that was given before, or a cache is stopped twice.
    #[error("that name was given before")]
    DoubleName,
    /// The first line, a cache, a server or an `end` is not there.
    #[error("the first line, a cache, a server or an end is missing")]
    Missing,
}

impl What {
    /// The word that names it.
    fn text(self) -> &'static str
        ensures { result.now ≡ what_text self }
    {
        match self {
            What::Parts => "parts",
            What::Backups => "backups",
            What::Near => "near",
            What::Server => "server",
            What::Client => "client",
            What::Cache => "cache",
            What::Data => "data",
            What::Plan => "plan",
            What::Session => "session",
            What::Begin => "begin",
            What::Sleep => "sleep",
            What::Key => "key",
            What::Value => "value",
            What::Name => "name",
            What::Moment => "moment",
            What::Commands => "commands",
            What::Nodes => "nodes",
            What::Steps => "steps",
            What::Sessions => "sessions",
            What::Caches => "caches",
        }
    }
}

impl Cause {
    /// The cause in words; a limit without the word that names it.
    fn text(self) -> &'static str
        ensures { result.now ≡ cause_text self }
    {
        match self {
            Cause::TooLong => "too long",
            Cause::NotUtf8 => "not utf-8",
            Cause::UnknownWord => "unknown word",
            Cause::Syntax => "syntax",
            Cause::Limit(_) => "limit ",
            Cause::NoSuchNode => "no such node",
            Cause::NoSuchCache => "no such cache",
            Cause::DoubleName => "double name",
            Cause::Missing => "missing",
        }
    }

    /// What is past its limit, as a word; nothing where no limit is broken.
    fn past(self) -> &'static str
        ensures { result.now ≡ past_text self }
    {
        match self {
            Cause::Limit(what) => what.text(),
            _ => "",
        }
    }
}

/// Why no scenario was read: the text is refused at a line, counted from 1, or as a whole, at line 0; or no memory was
/// left.
#[derive(Clone, Copy, Debug, PartialEq, Eq, Error)]
pub enum ReadFault {
    #[error("line {line}: {cause}")]
    Refused { line: u32, cause: Cause },
    #[error("no memory is left")]
    NoMemory,
}

/// Why a line was not taken.
#[derive(Clone, Copy, Debug, PartialEq, Eq, Error)]
pub enum LineFault {
    #[error("{0}")]
    Bad(Cause),
    #[error("no memory is left")]
    NoMemory,
}

impl From<NoMemory> for LineFault {
    ghost from_gives = { λ _ e. e ≡ fault.NoMemory };

    fn from(_: NoMemory) -> LineFault {
        LineFault::NoMemory
    }
}

impl From<Cause> for LineFault {
    ghost from_gives = { λ cause e. e ≡ fault.Bad cause };

    fn from(cause: Cause) -> LineFault {
        LineFault::Bad(cause)
    }
}

/// A rule that a line must keep, or the cause of its refusal.
pub fn rule(holds: bool, cause: Cause) -> Result<(), Cause>
    ensures { result ≡ rule holds cause }
{
    if holds { Ok(()) } else { Err(cause) }
}

/// What was read of a word, which is nothing where the word is past its limit.
pub fn fit<T: Copy>(read: Option<T>, what: What) -> Result<T, Cause>
    ensures { result ≡ fit read what }
{
    match read {
        Some(x) => Ok(x),
        None => Err(Cause::Limit(what)),
    }
}

/// The line in which a program says that it refuses its input.
pub fn refusal_line(alloc: Global, line: u32, cause: Cause) -> Mem<Vec<u8>>
    ensures { IfOk result (λ bytes. bytes.items ≡ refusal_text line cause) }
{
    let mut out = TextOut::new(alloc);
    out.text("refused line ")?;
    out.number(u64::from(line))?;
    out.text(": ")?;
    out.text(cause.text())?;
    out.text(cause.past())?;
    out.byte(b'\n')?;
    Ok(out.into_vec())
}
