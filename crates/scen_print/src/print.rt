//! Printing a scenario as its canonical text.

ghost use Rattle.std.specs.Prelude.{◌≡◌, ◌∷◌, ◌++◌, [], decimal, flat_map, slice_get, OnOk, IfOk};
ghost use Rattle.scen_print.specs.Printing.{shape_text, setting_text, settings_text, first_text, cache_line_text, head_text, role_text, member_text, link_text, started_text, stopped_text, step_text, planned_text, item_line_text, session_text, scenario_text};

use crate::items::write_item;
use crate::text_out::TextOut;
use ignite_types::{Cache, Item, Mem, Member, NodeId, PlanStep, Scenario, Session, Step};
use std::alloc::Global;

/// Writes a space and a number.
fn write_more(out: &mut TextOut, number: u32) -> Mem<()>
    ensures { OnOk result (out.new ≡ out.old ++ (32 ∷ decimal number)) }
{
    out.byte(b' ')?;
    out.number(u64::from(number))
}

/// Writes a cache's name and its numbers.
fn write_shape(out: &mut TextOut, cache: &Cache) -> Mem<()>
    ensures { OnOk result (out.new ≡ out.old ++ shape_text cache.now) }
{
    out.bytes(cache.name.as_slice())?;
    write_more(out, cache.parts)?;
    write_more(out, cache.backups)?;
    write_more(out, cache.near)
}

/// Writes the line of a setting of format 1.
fn write_setting(out: &mut TextOut, word: &str, number: u32) -> Mem<()>
    ensures { OnOk result (out.new ≡ out.old ++ setting_text word.now number) }
{
    out.text(word)?;
    out.number(u64::from(number))?;
    out.byte(b'\n')
}

/// Writes the three settings of format 1.
fn write_settings(out: &mut TextOut, cache: &Cache) -> Mem<()>
    ensures { OnOk result (out.new ≡ out.old ++ settings_text cache.now) }
{
    write_setting(out, "parts ", cache.parts)?;
    write_setting(out, "backups ", cache.backups)?;
    write_setting(out, "near ", cache.near)
}

/// Writes the line of a cache that runs from the start; a started one has none.
fn write_cache(out: &mut TextOut, cache: &Cache) -> Mem<()>
    ensures { OnOk result (out.new ≡ out.old ++ cache_line_text cache.now) }
{
    if !cache.first {
        return Ok(());
    }
    if cache.data {
        out.text("data ")?;
    } else {
        out.text("cache ")?;
    }
    write_shape(out, cache)?;
    out.byte(b'\n')
}

/// Writes the lines of the caches.
fn write_caches(out: &mut TextOut, caches: &[Cache]) -> Mem<()>
    ensures { OnOk result (out.new ≡ out.old ++ flat_map cache_line_text caches.now) }
{
    for cache in caches {
        write_cache(out, cache)?;
    }
    Ok(())
}

/// Writes the settings of the one cache of format 1.
fn write_first(out: &mut TextOut, caches: &[Cache]) -> Mem<()>
    ensures { OnOk result (out.new ≡ out.old ++ first_text caches.now) }
{
    match caches {
        [cache, ..] => write_settings(out, cache),
        [] => Ok(()),
    }
}

/// Writes the first line of format 1 and those of the settings.
fn write_first_head(out: &mut TextOut, line: &str, caches: &[Cache]) -> Mem<()>
    ensures { OnOk result (out.new ≡ out.old ++ (line.now ++ first_text caches.now)) }
{
    out.text(line)?;
    write_first(out, caches)
}

/// Writes the first line of format 2 and those of the caches.
fn write_second_head(out: &mut TextOut, line: &str, caches: &[Cache]) -> Mem<()>
    ensures { OnOk result (out.new ≡ out.old ++ (line.now ++ flat_map cache_line_text caches.now)) }
{
    out.text(line)?;
    write_caches(out, caches)
}

/// Writes the lines before those of the nodes.
fn write_head(out: &mut TextOut, scenario: &Scenario) -> Mem<()>
    ensures { OnOk result (out.new ≡ out.old ++ head_text scenario.now) }
{
    if scenario.format == 2 {
        write_second_head(out, "scenario 2\n", scenario.caches.as_slice())
    } else {
        write_first_head(out, "scenario 1\n", scenario.caches.as_slice())
    }
}

/// What a node is.
fn role_text(server: bool) -> &'static str
    ensures { result.now ≡ role_text server }
{
    if server { "server" } else { "client" }
}

/// Writes the line of a node.
fn write_member(out: &mut TextOut, member: &Member) -> Mem<()>
    ensures { OnOk result (out.new ≡ out.old ++ member_text member.now) }
{
    out.text(role_text(member.server))?;
    write_more(out, member.node.0)?;
    out.byte(b'\n')
}

/// Writes the lines of the nodes.
fn write_nodes(out: &mut TextOut, nodes: &[Member]) -> Mem<()>
    ensures { OnOk result (out.new ≡ out.old ++ flat_map member_text nodes.now) }
{
    for member in nodes {
        write_member(out, member)?;
    }
    Ok(())
}

/// Writes two nodes behind a word.
fn write_link(out: &mut TextOut, word: &str, sender: NodeId, addressee: NodeId) -> Mem<()>
    ensures { OnOk result (out.new ≡ out.old ++ link_text word.now sender addressee) }
{
    out.text(word)?;
    write_more(out, sender.0)?;
    write_more(out, addressee.0)
}

/// Writes a step that starts the cache of this number.
fn write_start(out: &mut TextOut, scenario: &Scenario, number: u32) -> Mem<()>
    ensures { OnOk result (out.new ≡ out.old ++ started_text (slice_get scenario.now.caches number)) }
{
    out.text("start ")?;
    if let Some(cache) = scenario.caches.get(number as usize) {
        write_shape(out, cache)?;
    }
    Ok(())
}

/// Writes a step that stops the cache of this number.
fn write_stop(out: &mut TextOut, scenario: &Scenario, number: u32) -> Mem<()>
    ensures { OnOk result (out.new ≡ out.old ++ stopped_text (slice_get scenario.now.caches number)) }
{
    out.text("stop ")?;
    if let Some(cache) = scenario.caches.get(number as usize) {
        out.bytes(cache.name.as_slice())?;
    }
    Ok(())
}

/// Writes a step in its canonical form.
pub fn write_step(out: &mut TextOut, scenario: &Scenario, step: &Step) -> Mem<()>
    ensures { OnOk result (out.new ≡ out.old ++ step_text scenario.now step.now) }
{
    match step {
        Step::Join(member) => {
            out.text("join")?;
            write_more(out, member.node.0)?;
            out.byte(b' ')?;
            out.text(role_text(member.server))
        }
        Step::Lose(node) => {
            out.text("lose")?;
            write_more(out, node.0)
        }
        Step::Hold(sender, addressee) => write_link(out, "hold", *sender, *addressee),
        Step::Release(sender, addressee) => write_link(out, "release", *sender, *addressee),
        Step::Start(number) => write_start(out, scenario, *number),
        Step::Stop(number) => write_stop(out, scenario, *number),
    }
}

/// Writes a plan line.
fn write_planned(out: &mut TextOut, scenario: &Scenario, planned: &PlanStep) -> Mem<()>
    ensures { OnOk result (out.new ≡ out.old ++ planned_text scenario.now planned.now) }
{
    out.text("plan ")?;
    out.number(planned.moment)?;
    out.byte(b' ')?;
    write_step(out, scenario, &planned.step)?;
    out.byte(b'\n')
}

/// Writes the plan lines.
fn write_plan(out: &mut TextOut, scenario: &Scenario, plan: &[PlanStep]) -> Mem<()>
    ensures { OnOk result (out.new ≡ out.old ++ flat_map (planned_text scenario.now) plan.now) }
{
    for planned in plan {
        write_planned(out, scenario, planned)?;
    }
    Ok(())
}

/// Writes the line of a command.
fn write_line(out: &mut TextOut, scenario: &Scenario, item: &Item) -> Mem<()>
    ensures { OnOk result (out.new ≡ out.old ++ item_line_text scenario.now item.now) }
{
    write_item(out, scenario, item)?;
    out.byte(b'\n')
}

/// Writes the lines of commands.
fn write_commands(out: &mut TextOut, scenario: &Scenario, commands: &[Item]) -> Mem<()>
    ensures { OnOk result (out.new ≡ out.old ++ flat_map (item_line_text scenario.now) commands.now) }
{
    for item in commands {
        write_line(out, scenario, item)?;
    }
    Ok(())
}

/// Writes the lines of a session.
fn write_session(out: &mut TextOut, scenario: &Scenario, session: &Session) -> Mem<()>
    ensures { OnOk result (out.new ≡ out.old ++ session_text scenario.now session.now) }
{
    out.text("session ")?;
    out.bytes(session.name.as_slice())?;
    write_more(out, session.node.0)?;
    out.byte(b'\n')?;
    write_commands(out, scenario, session.commands.as_slice())?;
    out.text("end\n")
}

/// Writes the lines of the sessions.
fn write_sessions(out: &mut TextOut, scenario: &Scenario, sessions: &[Session]) -> Mem<()>
    ensures { OnOk result (out.new ≡ out.old ++ flat_map (session_text scenario.now) sessions.now) }
{
    for session in sessions {
        write_session(out, scenario, session)?;
    }
    Ok(())
}

/// The canonical text of a scenario: each default is written, one space stands between words, and no line is blank or
/// a remark.
pub fn print_scenario(alloc: Global, scenario: &Scenario) -> Mem<Vec<u8>>
    ensures { IfOk result (λ bytes. bytes.items ≡ scenario_text scenario.now) }
{
    let mut out = TextOut::new(alloc);
    write_head(&mut out, scenario)?;
    write_nodes(&mut out, scenario.nodes.as_slice())?;
    write_plan(&mut out, scenario, scenario.plan.as_slice())?;
    write_sessions(&mut out, scenario, scenario.sessions.as_slice())?;
    Ok(out.into_vec())
}
