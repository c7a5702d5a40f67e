//! What the words of a line mean.

ghost use Rattle.std.specs.Prelude.{◌≡◌, List, ℕ, IsTrue};
ghost use Rattle.std.specs.Str.{is_utf8};
ghost use Rattle.scen_text.specs.Words.{words};
ghost use Rattle.scen_text.specs.Forms.{cache_words, key_words, mode, node_of_word, object_words, role};
ghost use Rattle.scen_text.specs.Meaning.{bare_line, begin_line, cache_line, format_of, head_line, key_integer_line, key_line, key_value_line, line_meant, meaning, meant, member_line, object_integer_line, object_line, object_value_line, session_line_meant, setting_line, sleep_line, timeout};

use crate::cause::Cause;
use crate::keyword::{Keyword, keyword_of};
use crate::line::{CacheWords, KeyWords, Line, Setting, Verb};
use crate::lines::first_word;
use crate::plan_line::plan_line;
use crate::words::{
    at_slash, four_words, integer, key, name, number, object, only_word, two_words, value,
};
use ignite_types::{Command, Member, Mode, NodeId, ShortText};

/// The number of the format.
fn format_of(word: &[u8]) -> Result<u32, Cause>
    ensures { result ≡ format_of word.now }
{
    if word == b"1".as_slice() {
        return Ok(1);
    }
    if word == b"2".as_slice() {
        return Ok(2);
    }
    Err(Cause::Syntax)
}

/// A line `scenario F`, by the words behind the first, as the functions below.
fn head_line(rest: &[u8]) -> Result<Line, Cause>
    ensures { result ≡ head_line (words rest.now) }
{
    let format = format_of(only_word(rest)?)?;
    Ok(Line::Head(format))
}

/// A line of a setting of format 1.
fn setting_line(setting: Setting, rest: &[u8]) -> Result<Line, Cause>
    ensures { result ≡ setting_line setting (words rest.now) }
{
    let n = number(only_word(rest)?)?;
    Ok(Line::Setting(setting, n))
}

/// The name and the three numbers of a cache.
pub fn cache_words(rest: &[u8]) -> Result<CacheWords, Cause>
    ensures { result ≡ cache_words (words rest.now) }
{
    let (first, second, third, fourth) = four_words(rest)?;
    let name = name(first)?;
    let parts = number(second)?;
    let backups = number(third)?;
    let near = number(fourth)?;
    Ok(CacheWords {
        name,
        parts,
        backups,
        near,
    })
}

/// A line of a cache; one of data is marked.
fn cache_line(is_data: bool, rest: &[u8]) -> Result<Line, Cause>
    ensures { result ≡ cache_line is_data (words rest.now) }
{
    let cache = cache_words(rest)?;
    Ok(Line::Cache(is_data, cache))
}

/// The node that a word names.
pub fn node(word: &[u8]) -> Result<NodeId, Cause>
    ensures { result ≡ node_of_word word.now }
{
    let n = number(word)?;
    Ok(NodeId(n))
}

/// A line `server N` or `client N`.
fn member_line(server: bool, rest: &[u8]) -> Result<Line, Cause>
    ensures { result ≡ member_line server (words rest.now) }
{
    let node = node(only_word(rest)?)?;
    Ok(Line::Member(Member { node, server }))
}

/// Whether the word is `server`; the other word is `client`.
pub fn role(word: &[u8]) -> Result<bool, Cause>
    ensures { result ≡ role word.now }
{
    if word == b"server".as_slice() {
        return Ok(true);
    }
    if word == b"client".as_slice() {
        return Ok(false);
    }
    Err(Cause::Syntax)
}

/// A line `session NAME N`.
fn session_line(rest: &[u8]) -> Result<Line, Cause>
    ensures { result ≡ session_line_meant (words rest.now) }
{
    let (first, second) = two_words(rest)?;
    let name = name(first)?;
    let node = node(second)?;
    Ok(Line::Session(name, node))
}

/// The mode that a word is.
fn mode(word: &[u8]) -> Result<Mode, Cause>
    ensures { result ≡ mode word.now }
{
    if word == b"pessimistic".as_slice() {
        return Ok(Mode::Pessimistic);
    }
    if word == b"optimistic".as_slice() {
        return Ok(Mode::Optimistic);
    }
    Err(Cause::Syntax)
}

/// The timeout behind a mode, 0 where none is written.
fn timeout(rest: &[u8]) -> Result<u64, Cause>
    ensures { result ≡ timeout (words rest.now) }
{
    let Some((word, more)) = first_word(rest) else {
        return Ok(0);
    };
    if first_word(more).is_some() {
        return Err(Cause::Syntax);
    }
    let moments = number(word)?;
    Ok(u64::from(moments))
}

/// The mode and the timeout behind `begin`.
fn begin_line(rest: &[u8]) -> Result<Line, Cause>
    ensures { result ≡ begin_line (words rest.now) }
{
    let Some((word, more)) = first_word(rest) else {
        return Ok(Line::Bare(Command::Begin(Mode::Pessimistic, 0)));
    };
    let mode = mode(word)?;
    let timeout = timeout(more)?;
    Ok(Line::Bare(Command::Begin(mode, timeout)))
}

/// A line `sleep M`.
fn sleep_line(rest: &[u8]) -> Result<Line, Cause>
    ensures { result ≡ sleep_line (words rest.now) }
{
    let moments = number(only_word(rest)?)?;
    Ok(Line::Bare(Command::Sleep(u64::from(moments))))
}

/// A line of one word, which means this.
fn bare_line(line: Line, rest: &[u8]) -> Result<Line, Cause>
    ensures { result ≡ bare_line line (words rest.now) }
{
    match first_word(rest) {
        None => Ok(line),
        Some(_) => Err(Cause::Syntax),
    }
}

/// The key that a word names, of the one cache in format 1.
fn key_words(format: u32, word: &[u8]) -> Result<KeyWords, Cause>
    ensures { result ≡ key_words format word.now }
{
    if format == 2 {
        let (before, behind) = at_slash(word)?;
        let cache = name(before)?;
        let key = key(behind)?;
        Ok(KeyWords { cache, key })
    } else {
        let key = key(word)?;
        let cache = Some(ShortText::new(b"default"));
        Ok(KeyWords { cache, key })
    }
}

/// The data object that a word names.
fn object_words(word: &[u8]) -> Result<KeyWords, Cause>
    ensures { result ≡ object_words word.now }
{
    let (before, behind) = at_slash(word)?;
    let cache = name(before)?;
    let key = object(behind)?;
    Ok(KeyWords { cache, key })
}

/// A line of a command and its key.
fn key_line(format: u32, verb: Verb, rest: &[u8]) -> Result<Line, Cause>
    ensures { result ≡ key_line format verb (words rest.now) }
{
    let key = key_words(format, only_word(rest)?)?;
    Ok(Line::Keyed(verb, key))
}

/// A line `put K V`.
fn key_value_line(format: u32, rest: &[u8]) -> Result<Line, Cause>
    ensures { result ≡ key_value_line format (words rest.now) }
{
    let (first, second) = two_words(rest)?;
    let key = key_words(format, first)?;
    let value = value(second)?;
    Ok(Line::Keyed(Verb::Put(value), key))
}

/// A line `add K I`.
fn key_integer_line(format: u32, rest: &[u8]) -> Result<Line, Cause>
    ensures { result ≡ key_integer_line format (words rest.now) }
{
    let (first, second) = two_words(rest)?;
    let key = key_words(format, first)?;
    let number = integer(second)?;
    Ok(Line::Keyed(Verb::Add(number), key))
}

/// A line of a data command and its object.
fn object_line(verb: Verb, rest: &[u8]) -> Result<Line, Cause>
    ensures { result ≡ object_line verb (words rest.now) }
{
    let key = object_words(only_word(rest)?)?;
    Ok(Line::Keyed(verb, key))
}

/// A line `offer O V`.
fn object_value_line(rest: &[u8]) -> Result<Line, Cause>
    ensures { result ≡ object_value_line (words rest.now) }
{
    let (first, second) = two_words(rest)?;
    let key = object_words(first)?;
    let value = value(second)?;
    Ok(Line::Keyed(Verb::Offer(value), key))
}

/// A line `incr O I`.
fn object_integer_line(rest: &[u8]) -> Result<Line, Cause>
    ensures { result ≡ object_integer_line (words rest.now) }
{
    let (first, second) = two_words(rest)?;
    let key = object_words(first)?;
    let number = integer(second)?;
    Ok(Line::Keyed(Verb::Incr(number), key))
}

/// What a line means by its keyword and the words behind it.
fn meant(format: u32, keyword: Keyword, rest: &[u8]) -> Result<Line, Cause>
    ensures { result ≡ meant format keyword (words rest.now) }
{
    match keyword {
        Keyword::Scenario => head_line(rest),
        Keyword::Parts => setting_line(Setting::Parts, rest),
        Keyword::Backups => setting_line(Setting::Backups, rest),
        Keyword::Near => setting_line(Setting::Near, rest),
        Keyword::Cache => cache_line(false, rest),
        Keyword::Data => cache_line(true, rest),
        Keyword::Server => member_line(true, rest),
        Keyword::Client => member_line(false, rest),
        Keyword::Plan => plan_line(format, rest),
        Keyword::Session => session_line(rest),
        Keyword::End => bare_line(Line::End, rest),
        Keyword::Begin => begin_line(rest),
        Keyword::Get => key_line(format, Verb::Get, rest),
        Keyword::Put => key_value_line(format, rest),
        Keyword::Remove => key_line(format, Verb::Remove, rest),
        Keyword::Add => key_integer_line(format, rest),
        Keyword::Commit => bare_line(Line::Bare(Command::Commit), rest),
        Keyword::Rollback => bare_line(Line::Bare(Command::Rollback), rest),
        Keyword::Sleep => sleep_line(rest),
        Keyword::Incr => object_integer_line(rest),
        Keyword::Next => object_line(Verb::Next, rest),
        Keyword::Offer => object_value_line(rest),
        Keyword::Poll => object_line(Verb::Poll, rest),
    }
}

/// What the words of a line mean.
fn meaning(format: u32, line: &[u8]) -> Result<Line, Cause>
    ensures { result ≡ meaning format (words line.now) }
{
    let Some((first, rest)) = first_word(line) else {
        return Ok(Line::Blank);
    };
    match keyword_of(format, first) {
        Some(keyword) => meant(format, keyword, rest),
        None => Err(Cause::UnknownWord),
    }
}

/// Whether the bytes are UTF-8.
fn is_utf8(bytes: &[u8]) -> bool
    ensures { result ≡ is_utf8 bytes.now }
{
    match std::str::from_utf8(bytes) {
        Ok(_) => true,
        Err(_) => false,
    }
}

/// What a line of a text of this format means.
pub fn line_of(format: u32, bytes: &[u8]) -> Result<Line, Cause>
    ensures { result ≡ line_meant format bytes.now }
{
    if !is_utf8(bytes) {
        return Err(Cause::NotUtf8);
    }
    if bytes.first() == Some(&b'#') {
        return Ok(Line::Blank);
    }
    meaning(format, bytes)
}
