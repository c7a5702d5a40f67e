//! How a run ended.

ghost use Rattle.std.specs.Prelude.{◌≡◌, ◌++◌, OnOk};
ghost use Rattle.std.specs.Option.{option_copied};
ghost use Rattle.report_text.specs.Endings as endings;

use crate::answers::{write_nodes, write_word_top, write_word_tx};
use crate::plans::write_wait;
use ignite_types::{End, Mem, NodeId, Scenario, Session, TopVer, TxId};
use scen_print::TextOut;
use tx_model::{Outlook, Standing};

/// Writes the highest version, as a line.
pub fn write_top_line(out: &mut TextOut, top: &TopVer) -> Mem<()>
    ensures { OnOk result (out.new ≡ out.old ++ endings.top_line top.now) }
{
    write_word_top(out, "top ", top)?;
    out.byte(b'\n')
}

/// Writes which version is waited for, and what holds it up.
fn write_unopened(out: &mut TextOut, scenario: &Scenario, top: &TopVer, tx: &TxId) -> Mem<()>
    ensures { OnOk result (out.new ≡ out.old ++ endings.unopened_text scenario.now top.now tx.now) }
{
    write_word_top(out, "waits for version ", top)?;
    write_word_tx(out, scenario, " held by ", tx)
}

/// Writes which link is waited for.
fn write_held(out: &mut TextOut, from: NodeId, to: NodeId) -> Mem<()>
    ensures { OnOk result (out.new ≡ out.old ++ endings.held_text from to) }
{
    write_nodes(out, "waits for link ", from, to)
}

/// Writes what a session waits for.
fn write_waiting_for(out: &mut TextOut, scenario: &Scenario, stands: &Standing) -> Mem<()>
    ensures { OnOk result (out.new ≡ out.old ++ endings.waits_text scenario.now stands.now) }
{
    match stands {
        Standing::Queued(node, wait) => write_wait(out, scenario, *node, wait),
        Standing::Unopened(top, tx) => write_unopened(out, scenario, top, tx),
        Standing::Held(from, to) => write_held(out, *from, *to),
        _ => out.text("waits"),
    }
}

/// Writes the line of a session that has not ended.
fn write_open(
    out: &mut TextOut,
    scenario: &Scenario,
    session: &Session,
    stands: &Standing,
) -> Mem<()>
    ensures { OnOk result (out.new ≡ out.old ++ endings.open_line scenario.now session.now stands.now) }
{
    out.text("stalled ")?;
    out.bytes(session.name.as_slice())?;
    out.text(": ")?;
    write_waiting_for(out, scenario, stands)?;
    out.byte(b'\n')
}

/// Whether the session has not ended, and was not lost.
fn is_open(stands: &Standing) -> bool
    ensures { result ≡ endings.has_not_ended stands.now }
{
    match stands {
        Standing::Ended => false,
        Standing::Lost(_) => false,
        _ => true,
    }
}

/// Writes what a session waits for, if it has not ended.
fn write_stalled(
    out: &mut TextOut,
    scenario: &Scenario,
    session: &Session,
    stands: Option<&Standing>,
) -> Mem<()>
    ensures { OnOk result (out.new ≡ out.old ++ endings.stalled_line scenario.now session.now (option_copied stands.entry)) }
{
    match stands {
        Some(stands) => {
            if is_open(stands) {
                write_open(out, scenario, session, stands)
            } else {
                Ok(())
            }
        }
        None => Ok(()),
    }
}

/// Writes what the sessions that have not ended wait for.
fn write_stalled_lines(out: &mut TextOut, scenario: &Scenario, shown: &Outlook) -> Mem<()>
    ensures { OnOk result (out.new ≡ out.old ++ endings.stalled_lines scenario.now shown.now.standings 0 scenario.now.sessions) }
{
    for (place, session) in scenario.sessions.as_slice().iter().enumerate() {
        write_stalled(out, scenario, session, shown.standings.get(place))?;
    }
    Ok(())
}

/// Writes what the sessions of a stalled run wait for.
pub fn write_stalled_part(
    out: &mut TextOut,
    scenario: &Scenario,
    shown: &Outlook,
    end: End,
) -> Mem<()>
    ensures { OnOk result (out.new ≡ out.old ++ endings.stalled_part scenario.now shown.now.standings end) }
{
    match end {
        End::Stalled => write_stalled_lines(out, scenario, shown),
        _ => Ok(()),
    }
}

/// The status of a run that ended so.
pub fn end_status(end: End) -> u64
    ensures { result ≡ endings.end_status end }
{
    match end {
        End::AllEnded => 0,
        End::Stalled => 1,
        End::StepLimit => 4,
        End::Memory => 5,
    }
}
