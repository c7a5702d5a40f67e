//! The limits of the numbers of a scenario, and what a line makes of its words.

ghost use Rattle.std.specs.Prelude.{◌≡◌, ◌++◌, ◌∷◌, [], IfOk};
ghost use Rattle.ignite_types.specs.Good.{is_within};
ghost use Rattle.scen_text.specs.Causes.{GivesInMemory};
ghost use Rattle.scen_text.specs.Limits.{default_settings, set, setting_fits, setting_what, default_cache, cache_fits, cache_of, nodes_fit, bare_fits, bare_what, kind_of, keyed};

use crate::cause::{Cause, LineFault, What, fit, rule};
use crate::line::{CacheWords, Setting, Verb};
use ignite_types::limits::{BACKUPS, MOMENTS, NEAR_ENTRIES, NODE_NUMBERS, PARTITIONS};
use ignite_types::{Cache, Command, Item, Key, List, Mem, NodeId, Step};
use std::alloc::Global;

/// What format 1 sets of its one cache.
#[derive(Clone, Copy)]
pub struct Settings {
    pub parts: u32,
    pub backups: u32,
    pub near: u32,
}

/// What an object of a data cache is.
#[derive(Clone, Copy, PartialEq, Eq)]
pub enum Kind {
    Long,
    Sequence,
    Queue,
}

/// Whether the number is at least the first and at most the second.
fn is_within(least: u64, most: u64, n: u64) -> bool
    ensures { result ≡ is_within least most n }
{
    least <= n && n <= most
}

/// The settings where no line sets one.
pub fn default_settings() -> Settings
    ensures { result ≡ default_settings }
{
    Settings {
        parts: PARTITIONS as u32,
        backups: 0,
        near: 0,
    }
}

/// The settings behind a line that sets one.
pub fn set(settings: Settings, setting: Setting, n: u32) -> Settings
    ensures { result ≡ set settings setting n }
{
    let Settings {
        parts,
        backups,
        near,
    } = settings;
    match setting {
        Setting::Parts => Settings {
            parts: n,
            backups,
            near,
        },
        Setting::Backups => Settings {
            parts,
            backups: n,
            near,
        },
        Setting::Near => Settings {
            parts,
            backups,
            near: n,
        },
    }
}

/// Whether the number is within the setting's limits.
pub fn setting_fits(setting: Setting, n: u32) -> bool
    ensures { result ≡ setting_fits setting n }
{
    match setting {
        Setting::Parts => is_within(1, PARTITIONS, u64::from(n)),
        Setting::Backups => n <= BACKUPS,
        Setting::Near => n <= NEAR_ENTRIES,
    }
}

/// What is past its limit at a setting.
pub fn setting_what(setting: Setting) -> What
    ensures { result ≡ setting_what setting }
{
    match setting {
        Setting::Parts => What::Parts,
        Setting::Backups => What::Backups,
        Setting::Near => What::Near,
    }
}

/// The one cache of format 1.
pub fn default_cache(alloc: Global, settings: Settings) -> Mem<Cache>
    ensures { IfOk result (λ cache. cache ≡ default_cache settings) }
{
    Ok(Cache {
        name: List::from_slice(alloc, b"default")?,
        parts: settings.parts,
        backups: settings.backups,
        near: settings.near,
        first: true,
        data: false,
    })
}

/// Whether the numbers of a cache are within their limits.
fn cache_fits(words: &CacheWords) -> bool
    ensures { result ≡ cache_fits words.now }
{
    is_within(1, PARTITIONS, u64::from(words.parts))
        && words.backups <= BACKUPS
        && words.near <= NEAR_ENTRIES
}

/// The cache that these words name.
pub fn cache_of(
    alloc: Global,
    what: What,
    first: bool,
    data: bool,
    words: &CacheWords,
) -> Result<Cache, LineFault>
    ensures { GivesInMemory result (cache_of what first «data» words.now) }
{
    let name = fit(words.name, What::Name)?;
    rule(cache_fits(words), Cause::Limit(what))?;
    let name = List::from_slice(alloc, name.as_slice())?;
    Ok(Cache {
        name,
        parts: words.parts,
        backups: words.backups,
        near: words.near,
        first,
        data,
    })
}

/// Whether the number is one that a node may have.
pub fn node_fits(node: NodeId) -> bool
    ensures { result ≡ is_within 1 NODE_NUMBERS node.0 }
{
    is_within(1, NODE_NUMBERS, u64::from(node.0))
}

/// Whether the moment is one that a plan may have.
pub fn moment_fits(moment: u32) -> bool
    ensures { result ≡ is_within 1 MOMENTS moment }
{
    is_within(1, MOMENTS, u64::from(moment))
}

/// Whether the numbers of a step are those that nodes may have.
pub fn nodes_fit(step: Step) -> bool
    ensures { result ≡ nodes_fit step }
{
    match step {
        Step::Lose(node) => node_fits(node),
        Step::Hold(sender, addressee) => node_fits(sender) && node_fits(addressee),
        Step::Release(sender, addressee) => node_fits(sender) && node_fits(addressee),
        _ => true,
    }
}

/// Whether the number of a command without a key is within its limits.
pub fn bare_fits(command: &Command) -> bool
    ensures { result ≡ bare_fits command.now }
{
    match command {
        Command::Begin(_, timeout) => *timeout <= MOMENTS,
        Command::Sleep(moments) => is_within(1, MOMENTS, *moments),
        _ => true,
    }
}

/// What is past its limit at a command without a key.
pub fn bare_what(command: &Command) -> What
    ensures { result ≡ bare_what command.now }
{
    match command {
        Command::Sleep(_) => What::Sleep,
        _ => What::Begin,
    }
}

/// What a data command makes of its object.
pub fn kind_of(verb: &Verb) -> Option<Kind>
    ensures { result ≡ kind_of verb.now }
{
    match verb {
        Verb::Incr(_) => Some(Kind::Long),
        Verb::Next => Some(Kind::Sequence),
        Verb::Offer(_) => Some(Kind::Queue),
        Verb::Poll => Some(Kind::Queue),
        _ => None,
    }
}

/// The command on this key.
pub fn keyed(verb: &Verb, key: &Key) -> Result<Item, Cause>
    ensures { result ≡ keyed verb.now key.now }
{
    match verb {
        Verb::Get => Ok(Item::Plain(Command::Get(*key))),
        Verb::Put(value) => Ok(Item::Plain(Command::Put(*key, fit(*value, What::Value)?))),
        Verb::Remove => Ok(Item::Plain(Command::Remove(*key))),
        Verb::Add(number) => Ok(Item::Plain(Command::Add(*key, *number))),
        Verb::Incr(number) => Ok(Item::Incr(*key, *number)),
        Verb::Next => Ok(Item::Next(*key)),
        Verb::Offer(value) => Ok(Item::Offer(*key, fit(*value, What::Value)?)),
        Verb::Poll => Ok(Item::Poll(*key)),
    }
}
