//! The texts of a scenario's keys and commands.

ghost use Rattle.std.specs.Prelude.{◌≡◌, ◌∷◌, ◌++◌, decimal, OnOk};
ghost use Rattle.std.specs.Fmt.{signed_decimal};
ghost use Rattle.scen_print.specs.Items.{mode_text, key_text, command_text, item_text};

use crate::text_out::TextOut;
use ignite_types::{Command, Item, Key, Mem, Mode, Scenario, Value};

/// The mode as a word.
fn mode_text(mode: Mode) -> &'static str
    ensures { result.now ≡ mode_text mode }
{
    match mode {
        Mode::Pessimistic => "pessimistic",
        Mode::Optimistic => "optimistic",
    }
}

/// Writes a key: in format 2 behind its cache's name and a slash.
pub fn write_key(out: &mut TextOut, scenario: &Scenario, key: &Key) -> Mem<()>
    ensures { OnOk result (out.new ≡ out.old ++ key_text scenario.now key.now) }
{
    if scenario.format == 2 {
        if let Some(cache) = scenario.caches.get(key.cache() as usize) {
            out.bytes(cache.name.as_slice())?;
            out.byte(b'/')?;
        }
    }
    out.bytes(key.bytes())
}

/// Writes a word and a key.
fn write_on(out: &mut TextOut, scenario: &Scenario, word: &str, key: &Key) -> Mem<()>
    ensures { OnOk result (out.new ≡ out.old ++ (word.now ++ key_text scenario.now key.now)) }
{
    out.text(word)?;
    write_key(out, scenario, key)
}

/// Writes a space and a value.
fn write_value(out: &mut TextOut, value: &Value) -> Mem<()>
    ensures { OnOk result (out.new ≡ out.old ++ (32 ∷ value.now)) }
{
    out.byte(b' ')?;
    out.bytes(value.bytes())
}

/// Writes a space and a number.
fn write_integer(out: &mut TextOut, number: i64) -> Mem<()>
    ensures { OnOk result (out.new ≡ out.old ++ (32 ∷ signed_decimal number)) }
{
    out.byte(b' ')?;
    out.integer(number)
}

/// Writes a word, a space and a number.
fn write_number(out: &mut TextOut, word: &str, number: u64) -> Mem<()>
    ensures { OnOk result (out.new ≡ out.old ++ (word.now ++ 32 ∷ decimal number)) }
{
    out.text(word)?;
    out.byte(b' ')?;
    out.number(number)
}

/// Writes a plain command as a line of a scenario has it, without the line's end; the close of a session is `close`.
fn write_command(out: &mut TextOut, scenario: &Scenario, command: &Command) -> Mem<()>
    ensures { OnOk result (out.new ≡ out.old ++ command_text scenario.now command.now) }
{
    match command {
        Command::Begin(mode, timeout) => {
            out.text("begin ")?;
            write_number(out, mode_text(*mode), *timeout)
        }
        Command::Get(key) => write_on(out, scenario, "get ", key),
        Command::Put(key, value) => {
            write_on(out, scenario, "put ", key)?;
            write_value(out, value)
        }
        Command::Remove(key) => write_on(out, scenario, "remove ", key),
        Command::Add(key, number) => {
            write_on(out, scenario, "add ", key)?;
            write_integer(out, *number)
        }
        Command::Commit => out.text("commit"),
        Command::Rollback => out.text("rollback"),
        Command::Sleep(moments) => write_number(out, "sleep", *moments),
        Command::Close => out.text("close"),
    }
}

/// Writes an item of a script in its canonical form.
pub fn write_item(out: &mut TextOut, scenario: &Scenario, item: &Item) -> Mem<()>
    ensures { OnOk result (out.new ≡ out.old ++ item_text scenario.now item.now) }
{
    match item {
        Item::Plain(command) => write_command(out, scenario, command),
        Item::Incr(key, number) => {
            write_on(out, scenario, "incr ", key)?;
            write_integer(out, *number)
        }
        Item::Next(key) => write_on(out, scenario, "next ", key),
        Item::Offer(key, value) => {
            write_on(out, scenario, "offer ", key)?;
            write_value(out, value)
        }
        Item::Poll(key) => write_on(out, scenario, "poll ", key),
    }
}
