use crate::{Cause, ReadFault, read_scenario, refusal_line};
use ignite_types::{Command, Item, Key, Value};
use scen_print::{TextOut, print_scenario, write_item};
use std::alloc::Global;
use std::test::Fail;

/// The line that refuses a text.
fn refusal(alloc: Global, text: &[u8]) -> Result<Vec<u8>, Fail> {
    match read_scenario(alloc, text) {
        Ok(_) => Err("it was read")?,
        Err(ReadFault::Refused { line, cause }) => Ok(refusal_line(alloc, line, cause)?),
        Err(ReadFault::NoMemory) => Err("no memory")?,
    }
}

/// The canonical text of a scenario's text.
fn printed(alloc: Global, text: &[u8]) -> Result<Vec<u8>, Fail> {
    let scenario = read_scenario(alloc, text)?;
    Ok(print_scenario(alloc, &scenario)?)
}

#[test]
fn refuses_lines(rt: HostRuntime) -> Result<(), Fail> {
    let table: [(&[u8], &[u8]); 9] = [
        (b"", b"refused line 1: missing\n"),
        (b"scenario 1\n\xff\n", b"refused line 2: not utf-8\n"),
        (
            b"scenario 1\nserver 1\nserver 1\n",
            b"refused line 3: double name\n",
        ),
        (
            b"scenario 1\nserver 100\n",
            b"refused line 2: limit server\n",
        ),
        (
            b"scenario 1\nnear 10001\nserver 1\n",
            b"refused line 2: limit near\n",
        ),
        (
            b"scenario 1\nserver 1\nsession A 5\n",
            b"refused line 3: no such node\n",
        ),
        (
            b"scenario 1\nserver 1\nplan 5 lose 1\nplan 4 lose 1\n",
            b"refused line 4: limit moment\n",
        ),
        (b"scenario 2\nserver 1\n", b"refused line 3: missing\n"),
        (b"scenario 3\nfly 1\n", b"refused line 1: syntax\n"),
    ];
    for (text, said) in table {
        assert_eq!(rt; refusal(rt.alloc(), text)?.as_slice(), said);
    }
    Ok(())
}

#[test]
fn refuses_commands(rt: HostRuntime) -> Result<(), Fail> {
    let table: [(&[u8], &[u8]); 6] = [
        (
            b"scenario 1\nserver 1\nsession A 1\nget aaaaaaaaaabbbbbbbbbbccccccccccddd\n",
            b"refused line 4: limit key\n",
        ),
        (
            b"scenario 1\nserver 1\nsession A 1\nadd a 007\n",
            b"refused line 4: syntax\n",
        ),
        (
            b"scenario 1\nserver 1\nsession A 1\nadd a -0\n",
            b"refused line 4: syntax\n",
        ),
        (
            b"scenario 1\nserver 1\nsession A 1\nput a",
            b"refused line 4: syntax\n",
        ),
        (
            b"scenario 1\nserver 1\nsession A 1\nput a 1\n",
            b"refused line 5: missing\n",
        ),
        (
            b"scenario 1\nserver 1\nsession A 1\nput a 1\nget a\nend\nfly\n",
            b"refused line 7: unknown word\n",
        ),
    ];
    for (text, said) in table {
        assert_eq!(rt; refusal(rt.alloc(), text)?.as_slice(), said);
    }
    Ok(())
}

#[test]
fn refuses_caches(rt: HostRuntime) -> Result<(), Fail> {
    let table: [(&[u8], &[u8]); 5] = [
        (
            b"scenario 2\ncache c 1 0 0\ndata d 1 0 0\nserver 1\nsession A 1\nput d/n 1\n",
            b"refused line 6: syntax\n",
        ),
        (
            b"scenario 2\ncache c 1 0 0\nserver 1\nsession A 1\nget x/a\n",
            b"refused line 5: no such cache\n",
        ),
        (
            b"scenario 2\ncache c 1 0 0\nserver 1\nplan 5 stop c\n",
            b"refused line 4: syntax\n",
        ),
        (
            b"scenario 2\ncache c 1 0 0\ncache e 1024 0 0\n",
            b"refused line 3: limit caches\n",
        ),
        (
            b"scenario 2\ncache c 1 0 0\ncache c 0 0 0\n",
            b"refused line 3: limit cache\n",
        ),
    ];
    for (text, said) in table {
        assert_eq!(rt; refusal(rt.alloc(), text)?.as_slice(), said);
    }
    Ok(())
}

#[test]
fn refuses_long_texts(rt: HostRuntime) -> Result<(), Fail> {
    let mut spaces = vec![in rt.alloc(); b' '; 1_048_576]?;
    assert_eq!(rt;
        refusal(rt.alloc(), &spaces)?.as_slice(),
        b"refused line 2: missing\n".as_slice()
    );
    spaces.push(b' ')?;
    assert_eq!(rt;
        refusal(rt.alloc(), &spaces)?.as_slice(),
        b"refused line 0: too long\n".as_slice()
    );
    Ok(())
}

#[test]
fn refuses_many_commands(rt: HostRuntime) -> Result<(), Fail> {
    let mut text = Vec::new(rt.alloc());
    text.extend_from_slice(b"scenario 1\nserver 1\nsession A 1\n".as_slice())?;
    for _ in 0..1001 {
        text.extend_from_slice(b"get a\n".as_slice())?;
    }
    assert_eq!(rt;
        refusal(rt.alloc(), &text)?.as_slice(),
        b"refused line 1004: limit commands\n".as_slice()
    );
    Ok(())
}

/// A remark, blanks, carriage returns, leading zeros, nothing that may be left out, and no last line feed.
const LOOSE: &[u8] =
    b"# a run\r\n\r\n scenario   1\r\nserver 0000001\r\n  client 2\nplan 5 hold 01 3\nplan 5 join 3 server\nsession A 01 \n begin\n put  a 1\nadd a -5\ncommit\nbegin optimistic\nrollback\nsleep 2\r\nend";

const FIRST: &[u8] =
    b"scenario 1\nparts 1024\nbackups 0\nnear 0\nserver 1\nclient 2\nplan 5 hold 1 3\nplan 5 join 3 server\nsession A 1\nbegin pessimistic 0\nput a 1\nadd a -5\ncommit\nbegin optimistic 0\nrollback\nsleep 2\nend\n";

const SECOND: &[u8] =
    b"scenario 2\ncache c 64 1 16\ndata d 1 0 0\nserver 1\nplan 9 start e 2 0 0\nplan 9 stop e\nplan 10 lose 1\nsession A 1\nincr d/n 5\nnext d/s\noffer d/q x:y\npoll d/q\nget e/k.1\nremove c/a\nend\nsession B 1\nend\n";

#[test]
fn prints_what_it_read(rt: HostRuntime) -> Result<(), Fail> {
    assert_eq!(rt; printed(rt.alloc(), LOOSE)?.as_slice(), FIRST);
    assert_eq!(rt; printed(rt.alloc(), FIRST)?.as_slice(), FIRST);
    assert_eq!(rt; printed(rt.alloc(), SECOND)?.as_slice(), SECOND);
    Ok(())
}

/// An item as a text of this scenario has it.
fn item_text(alloc: Global, text: &[u8], item: &Item) -> Result<Vec<u8>, Fail> {
    let scenario = read_scenario(alloc, text)?;
    let mut out = TextOut::new(alloc);
    write_item(&mut out, &scenario, item)?;
    Ok(out.into_vec())
}

#[test]
fn prints_items(rt: HostRuntime) -> Result<(), Fail> {
    let put = Item::Plain(Command::Put(Key::read(b"k1")?, Value::read(b"a:b")?));
    let offer = Item::Offer(Key::read(b"k1")?, Value::read(b"a:b")?);
    assert_eq!(rt;
        item_text(rt.alloc(), FIRST, &put)?.as_slice(),
        b"put k1 a:b".as_slice()
    );
    assert_eq!(rt;
        item_text(rt.alloc(), SECOND, &put)?.as_slice(),
        b"put c/k1 a:b".as_slice()
    );
    assert_eq!(rt;
        item_text(rt.alloc(), SECOND, &offer)?.as_slice(),
        b"offer c/k1 a:b".as_slice()
    );
    Ok(())
}
