//! The first words of lines.

ghost use Rattle.std.specs.Prelude.{◌≡◌};
ghost use Rattle.scen_text.specs.Keywords.{shared_keyword, command_keyword, first_keyword, second_keyword, keyword_of, step_keyword};

/// The first word of a line.
#[derive(Clone, Copy)]
pub enum Keyword {
    Scenario,
    Parts,
    Backups,
    Near,
    Cache,
    Data,
    Server,
    Client,
    Plan,
    Session,
    End,
    Begin,
    Get,
    Put,
    Remove,
    Add,
    Commit,
    Rollback,
    Sleep,
    Incr,
    Next,
    Offer,
    Poll,
}

/// The word of a step.
#[derive(Clone, Copy)]
pub enum StepKeyword {
    Join,
    Lose,
    Hold,
    Release,
    Start,
    Stop,
}

/// The first words of both formats, but for those of commands.
fn shared_keyword(word: &[u8]) -> Option<Keyword>
    ensures { result ≡ shared_keyword word.now }
{
    if word == b"scenario".as_slice() {
        return Some(Keyword::Scenario);
    }
    if word == b"server".as_slice() {
        return Some(Keyword::Server);
    }
    if word == b"client".as_slice() {
        return Some(Keyword::Client);
    }
    if word == b"plan".as_slice() {
        return Some(Keyword::Plan);
    }
    if word == b"session".as_slice() {
        return Some(Keyword::Session);
    }
    if word == b"end".as_slice() {
        return Some(Keyword::End);
    }
    None
}

/// The first words of the commands of both formats.
fn command_keyword(word: &[u8]) -> Option<Keyword>
    ensures { result ≡ command_keyword word.now }
{
    if word == b"begin".as_slice() {
        return Some(Keyword::Begin);
    }
    if word == b"get".as_slice() {
        return Some(Keyword::Get);
    }
    if word == b"put".as_slice() {
        return Some(Keyword::Put);
    }
    if word == b"remove".as_slice() {
        return Some(Keyword::Remove);
    }
    if word == b"add".as_slice() {
        return Some(Keyword::Add);
    }
    if word == b"commit".as_slice() {
        return Some(Keyword::Commit);
    }
    if word == b"rollback".as_slice() {
        return Some(Keyword::Rollback);
    }
    if word == b"sleep".as_slice() {
        return Some(Keyword::Sleep);
    }
    None
}

/// The first words of format 1 alone.
fn first_keyword(word: &[u8]) -> Option<Keyword>
    ensures { result ≡ first_keyword word.now }
{
    if word == b"parts".as_slice() {
        return Some(Keyword::Parts);
    }
    if word == b"backups".as_slice() {
        return Some(Keyword::Backups);
    }
    if word == b"near".as_slice() {
        return Some(Keyword::Near);
    }
    None
}

/// The first words of format 2 alone.
fn second_keyword(word: &[u8]) -> Option<Keyword>
    ensures { result ≡ second_keyword word.now }
{
    if word == b"cache".as_slice() {
        return Some(Keyword::Cache);
    }
    if word == b"data".as_slice() {
        return Some(Keyword::Data);
    }
    if word == b"incr".as_slice() {
        return Some(Keyword::Incr);
    }
    if word == b"next".as_slice() {
        return Some(Keyword::Next);
    }
    if word == b"offer".as_slice() {
        return Some(Keyword::Offer);
    }
    if word == b"poll".as_slice() {
        return Some(Keyword::Poll);
    }
    None
}

/// The keyword that a word is in this format.
pub fn keyword_of(format: u32, word: &[u8]) -> Option<Keyword>
    ensures { result ≡ keyword_of format word.now }
{
    if let Some(keyword) = shared_keyword(word) {
        return Some(keyword);
    }
    if let Some(keyword) = command_keyword(word) {
        return Some(keyword);
    }
    if format == 2 {
        second_keyword(word)
    } else {
        first_keyword(word)
    }
}

/// The step that a word is in this format.
pub fn step_keyword(format: u32, word: &[u8]) -> Option<StepKeyword>
    ensures { result ≡ step_keyword format word.now }
{
    if word == b"join".as_slice() {
        return Some(StepKeyword::Join);
    }
    if word == b"lose".as_slice() {
        return Some(StepKeyword::Lose);
    }
    if word == b"hold".as_slice() {
        return Some(StepKeyword::Hold);
    }
    if word == b"release".as_slice() {
        return Some(StepKeyword::Release);
    }
    if format == 2 && word == b"start".as_slice() {
        return Some(StepKeyword::Start);
    }
    if format == 2 && word == b"stop".as_slice() {
        return Some(StepKeyword::Stop);
    }
    None
}
