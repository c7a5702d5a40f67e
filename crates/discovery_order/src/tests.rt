use crate::{Directory, JoinFault, LeftFault};
use ignite_types::{List, Mem, Member, NoLoss, NodeId, Scenario, TopVer};
use std::alloc::Global;
use std::test::Fail;

const fn member(node: u32) -> Member {
    Member {
        node: NodeId(node),
        server: true,
    }
}

/// The directory of one server.
fn one_server(alloc: Global) -> Mem<Directory> {
    let scenario = Scenario {
        format: 1,
        caches: List::new(alloc),
        nodes: List::from_slice(alloc, &[member(1)])?,
        plan: List::new(alloc),
        sessions: List::new(alloc),
    };
    Directory::new(alloc, &scenario)
}

#[test]
fn a_number_joins_once(rt: HostRuntime) -> Result<(), Fail> {
    let alloc = rt.alloc();
    let mut directory = one_server(alloc)?;
    let joined = directory.join(alloc, member(3));
    assert!(rt; matches!(joined, Ok(TopVer { major: 2, minor: 0 })));
    let again = directory.join(alloc, member(3));
    assert!(rt; matches!(again, Err(JoinFault::AlreadyIn)));
    let gone = directory.leave(alloc, NodeId(8), None);
    assert!(rt; matches!(gone, Err(LeftFault::Refused(NoLoss::NotIn))));
    let minor = directory.append_minor(alloc)?;
    assert!(rt; matches!(minor, TopVer { major: 2, minor: 1 }));
    Ok(())
}

#[test]
fn losses_are_refused_in_order(rt: HostRuntime) -> Result<(), Fail> {
    let alloc = rt.alloc();
    let mut directory = one_server(alloc)?;
    let unknown = directory.leave(alloc, NodeId(8), None);
    assert!(rt; matches!(unknown, Err(LeftFault::Refused(NoLoss::NotIn))));
    let last = directory.leave(alloc, NodeId(1), None);
    assert!(rt; matches!(last, Err(LeftFault::Refused(NoLoss::LeavesPartition(0)))));
    Ok(())
}

#[test]
fn minor_changes_count_on(rt: HostRuntime) -> Result<(), Fail> {
    let alloc = rt.alloc();
    let mut directory = one_server(alloc)?;
    assert!(rt; directory.append_minor(alloc)?.minor == 1);
    assert!(rt; directory.append_start(alloc, 1)?.minor == 2);
    assert!(rt; directory.append_stop(alloc, 1)?.minor == 3);
    assert!(rt; directory.copy(alloc)?.members() == [member(1)].as_slice());
    Ok(())
}
