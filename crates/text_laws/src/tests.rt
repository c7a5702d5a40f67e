use crate::read_printed;
use scen_text::read_scenario;
use std::test::Fail;

#[test]
fn reads_what_it_printed(rt: HostRuntime) -> Result<(), Fail> {
    let text =
        b"scenario 2\ncache c 4 0 0\ndata d 4 0 0\nserver 1\nplan 5 join 2 client\nsession A 2\nnext d/s\nadd c/k -5\nend\n".as_slice();
    let scenario = read_scenario(rt.alloc(), text)?;
    let again = read_printed(rt.alloc(), &scenario)?;
    assert!(rt; again == Some(scenario));
    Ok(())
}
