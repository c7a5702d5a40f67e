//! The texts of names, versions and answers.

ghost use Rattle.std.specs.Prelude.{◌≡◌, ◌-◌, ◌∷◌, ◌++◌, decimal, slice_get, OnOk};
ghost use Rattle.scen_print.specs.Items.{key_text};
ghost use Rattle.report_text.specs.Answers.{answer_text, cache_name, fail_text, fault_text, item_told_text, nodes_text, session_name, top_text, tx_text, version_text};

use ignite_types::{Answer, CacheVersion, Fail, Fault, Key, Mem, NodeId, Scenario, TopVer, TxId};
use part_model::Told;
use scen_print::{TextOut, write_key};

/// Writes one byte and a number.
fn write_marked(out: &mut TextOut, mark: u8, number: u64) -> Mem<()>
    ensures { OnOk result (out.new ≡ out.old ++ (mark ∷ decimal number)) }
{
    out.byte(mark)?;
    out.number(number)
}

/// Writes a word and a node's number.
pub fn write_node(out: &mut TextOut, word: &str, node: NodeId) -> Mem<()>
    ensures { OnOk result (out.new ≡ out.old ++ (word.now ++ decimal node.0)) }
{
    out.text(word)?;
    out.number(u64::from(node.0))
}

/// Writes the name of the session of this number.
pub fn write_session_name(out: &mut TextOut, scenario: &Scenario, number: u32) -> Mem<()>
    ensures { OnOk result (out.new ≡ out.old ++ session_name (slice_get scenario.now.sessions (number - 1))) }
{
    if let Some(session) = scenario.sessions.get((number as usize).saturating_sub(1)) {
        out.bytes(session.name.as_slice())?;
    }
    Ok(())
}

/// Writes the name of the cache of this number.
fn write_cache_name(out: &mut TextOut, scenario: &Scenario, number: u32) -> Mem<()>
    ensures { OnOk result (out.new ≡ out.old ++ cache_name (slice_get scenario.now.caches number)) }
{
    if let Some(cache) = scenario.caches.get(number as usize) {
        out.bytes(cache.name.as_slice())?;
    }
    Ok(())
}

/// Writes a transaction's name: its session's name, `#` and its number.
pub fn write_tx(out: &mut TextOut, scenario: &Scenario, tx: &TxId) -> Mem<()>
    ensures { OnOk result (out.new ≡ out.old ++ tx_text scenario.now tx.now) }
{
    write_session_name(out, scenario, tx.session)?;
    write_marked(out, b'#', tx.number)
}

/// Writes a topology version.
pub fn write_top(out: &mut TextOut, top: &TopVer) -> Mem<()>
    ensures { OnOk result (out.new ≡ out.old ++ top_text top.now) }
{
    out.number(top.major)?;
    write_marked(out, b'.', top.minor)
}

/// Writes a word and a topology version.
pub fn write_word_top(out: &mut TextOut, word: &str, top: &TopVer) -> Mem<()>
    ensures { OnOk result (out.new ≡ out.old ++ (word.now ++ top_text top.now)) }
{
    out.text(word)?;
    write_top(out, top)
}

/// Writes a word and a transaction's name.
pub fn write_word_tx(out: &mut TextOut, scenario: &Scenario, word: &str, tx: &TxId) -> Mem<()>
    ensures { OnOk result (out.new ≡ out.old ++ (word.now ++ tx_text scenario.now tx.now)) }
{
    out.text(word)?;
    write_tx(out, scenario, tx)
}

/// Writes a word and the numbers of two nodes.
pub fn write_nodes(out: &mut TextOut, word: &str, a: NodeId, b: NodeId) -> Mem<()>
    ensures { OnOk result (out.new ≡ out.old ++ nodes_text word.now a b) }
{
    write_node(out, word, a)?;
    write_marked(out, b' ', u64::from(b.0))
}

/// Writes an entry's version.
pub fn write_version(out: &mut TextOut, ver: &CacheVersion) -> Mem<()>
    ensures { OnOk result (out.new ≡ out.old ++ version_text ver.now) }
{
    write_top(out, &ver.top)?;
    write_marked(out, b':', ver.order)?;
    write_marked(out, b':', u64::from(ver.node.0))
}

/// Writes a word and a key.
pub fn write_word_key(out: &mut TextOut, scenario: &Scenario, word: &str, key: &Key) -> Mem<()>
    ensures { OnOk result (out.new ≡ out.old ++ (word.now ++ key_text scenario.now key.now)) }
{
    out.text(word)?;
    write_key(out, scenario, key)
}

/// Writes a word and an entry's version.
fn write_word_version(out: &mut TextOut, word: &str, ver: &CacheVersion) -> Mem<()>
    ensures { OnOk result (out.new ≡ out.old ++ (word.now ++ version_text ver.now)) }
{
    out.text(word)?;
    write_version(out, ver)
}

/// Writes why an optimistic prepare failed.
fn write_fail(out: &mut TextOut, scenario: &Scenario, fail: &Fail) -> Mem<()>
    ensures { OnOk result (out.new ≡ out.old ++ fail_text scenario.now fail.now) }
{
    match fail {
        Fail::Changed { key, had, has } => {
            write_word_key(out, scenario, "changed ", key)?;
            write_word_version(out, " had ", had)?;
            write_word_version(out, " has ", has)
        }
        Fail::Candidate { key, holder } => {
            write_word_key(out, scenario, "locked ", key)?;
            write_word_tx(out, scenario, " by ", holder)
        }
    }
}

/// Writes why a transaction was rolled back.
fn write_fault(out: &mut TextOut, scenario: &Scenario, fault: &Fault) -> Mem<()>
    ensures { OnOk result (out.new ≡ out.old ++ fault_text scenario.now fault.now) }
{
    match fault {
        Fault::Check(fail) => write_fail(out, scenario, fail),
        Fault::Timeout => out.text("timeout"),
        Fault::Deadlock => out.text("timeout deadlock"),
        Fault::Cut(node) => write_node(out, "timeout cut ", *node),
        Fault::NodeLost(node) => write_node(out, "node lost ", *node),
    }
}

/// Writes an answer.
pub fn write_answer(out: &mut TextOut, scenario: &Scenario, answer: &Answer) -> Mem<()>
    ensures { OnOk result (out.new ≡ out.old ++ answer_text scenario.now answer.now) }
{
    match answer {
        Answer::Done => out.text("ok"),
        Answer::Found(value) => {
            out.text("value ")?;
            out.bytes(value.bytes())
        }
        Answer::Absent => out.text("none"),
        Answer::Committed => out.text("committed"),
        Answer::RolledBack => out.text("rolled back"),
        Answer::Failed(fault) => write_fault(out, scenario, fault),
        Answer::TooManyKeys => out.text("too many keys"),
        Answer::NotNumber => out.text("not a number"),
        Answer::Overflow => out.text("overflow"),
        Answer::NoTransaction => out.text("no transaction"),
        Answer::TransactionOpen => out.text("transaction open"),
        Answer::Skipped => out.text("skipped"),
        Answer::NoCache(cache) => {
            out.text("no cache ")?;
            write_cache_name(out, scenario, *cache)
        }
    }
}

/// Writes what an item of a script is answered.
pub fn write_told(out: &mut TextOut, scenario: &Scenario, told: &Told) -> Mem<()>
    ensures { OnOk result (out.new ≡ out.old ++ item_told_text scenario.now told.now) }
{
    match told {
        Told::Plain(answer) => write_answer(out, scenario, answer),
        Told::Empty => out.text("empty"),
    }
}
