//! Generated transactions.

ghost use Rattle.std.specs.Prelude.{◌≡◌, ◌∷◌, [], ◌++◌, ◌<◌, ◌≤◌, IfOk, OnOk};
ghost use Rattle.sched_seed.specs.Transactions.{after_script, after_words, begin_of, moved_amount, numbered, numbered_key, other_than, script, transaction, words_of};

use ignite_types::{Command, Item, Key, List, Mem, Mode, ShortText};
use itoa::Buffer;
use rand_core::utils::NextWord;
use rand_pcg::Lcg64Xsh32;
use std::alloc::Global;

/// How many keys the transactions use.
const KEYS: u32 = 16;

/// The words that a transaction is made from.
#[derive(Clone, Copy)]
struct Words {
    mode: u32,
    from: u32,
    to: u32,
    amount: u32,
}

/// Takes the next four words.
fn draw(generator: &mut Lcg64Xsh32) -> Words
    ensures words { result ≡ words_of generator.old }
    ensures rest { generator.new ≡ after_words generator.old }
{
    let mode = generator.next_word();
    let from = generator.next_word();
    let to = generator.next_word();
    let amount = generator.next_word();
    Words {
        mode,
        from,
        to,
        amount,
    }
}

/// A letter with a number in decimal.
pub(crate) fn numbered(alloc: Global, letter: u8, number: u32) -> Mem<List<u8>>
    ensures { IfOk result (λ text. text ≡ numbered letter number) }
{
    let mut digits = Buffer::new();
    let mut text = Vec::from_slice(alloc, &[letter])?;
    text.extend_from_slice(digits.format(number).as_bytes())?;
    Ok(List::from_vec(text))
}

/// The key of a number.
fn key_of(alloc: Global, number: u32) -> Mem<Key>
    ensures { IfOk result (λ key. key ≡ numbered_key number) }
{
    let bytes = numbered(alloc, b'k', number)?;
    let text = ShortText::new(bytes.as_slice());
    Ok(Key { cache: 0, text })
}

fn begin_of(mode: u32) -> Command
    ensures { result ≡ begin_of mode }
{
    if mode % 2 == 0 {
        Command::Begin(Mode::Pessimistic, 50)
    } else {
        Command::Begin(Mode::Optimistic, 0)
    }
}

/// The number of a second key, or that of the key after the first where both are one.
fn other_than(from: u32, to: u32) -> u32
    requires first { from < KEYS }
    requires second { to < KEYS }
    ensures other { result ≡ other_than from to }
    ensures within { result < KEYS }
{
    if to == from { (from + 1) % KEYS } else { to }
}

/// Adds the commands that take an amount from one key and add it to another.
fn push_moves(alloc: Global, commands: &mut List<Item>, from: u32, to: u32, amount: u32) -> Mem<()>
    ensures { OnOk result (commands.new ≡ commands.old ++ moved_amount from to amount) }
{
    let amount = i64::from(amount);
    let taken = Command::Add(key_of(alloc, from)?, -amount);
    commands.push(Item::Plain(taken))?;
    let added = Command::Add(key_of(alloc, to)?, amount);
    commands.push(Item::Plain(added))
}

/// Adds the commands of one transaction.
fn push_transaction(alloc: Global, commands: &mut List<Item>, words: Words) -> Mem<()>
    ensures { OnOk result (commands.new ≡ commands.old ++ transaction words) }
{
    let from = words.from % KEYS;
    let to = other_than(from, words.to % KEYS);
    commands.push(Item::Plain(begin_of(words.mode)))?;
    push_moves(alloc, commands, from, to, words.amount % 100 + 1)?;
    commands.push(Item::Plain(Command::Commit))?;
    commands.push(Item::Plain(Command::Sleep(1)))
}

/// The commands of so many transactions.
pub(crate) fn script(alloc: Global, txs: u32, generator: &mut Lcg64Xsh32) -> Mem<List<Item>>
    ensures commands { IfOk result (λ commands. commands ≡ script txs generator.old) }
    ensures rest { OnOk result (generator.new ≡ after_script txs generator.old) }
{
    let mut commands = List::new(alloc);
    for _ in 0..txs {
        let words = draw(generator);
        push_transaction(alloc, &mut commands, words)?;
    }
    Ok(commands)
}
