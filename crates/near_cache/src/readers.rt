//! The nodes to which a primary sends the updates of its keys.

ghost use Rattle.std.specs.Prelude.{◌≡◌, [], IfOk, OnErr, OnOk};
ghost use Rattle.part_model.specs.NearEntries.{readers_of, with_reader, without_reader};

use hash_table::{EntryChange, HashTable};
use ignite_types::{Key, Mem, NodeId};
use ordered_set::Set;
use std::alloc::Global;
use std::marker::Model;

/// A node that was lost, and is no reader any more.
#[derive(Clone, Copy)]
struct Lost {
    node: NodeId,
}

impl EntryChange<Key, Set<NodeId>> for Lost {
    ghost use Rattle.std.specs.Prelude.{List};
    ghost use Rattle.ignite_types.specs.Names.{node_cmp};
    ghost use Rattle.ordered_set.specs.Members.{without_member};

    ghost changed = { λ lost e. without_member node_cmp e.1 lost.node };

    fn change(&self, _key: &Key, readers: &mut Set<NodeId>) {
        readers.remove(&self.node);
    }
}

/// For each key the nodes with a near entry of it, ascending. `add` and `of` take constant time on average in the number of
/// keys, and linear time in that of a key's readers.
#[derive(Debug, Drop)]
pub struct Readers {
    alloc: Global,
    nodes: HashTable<Key, Set<NodeId>>,
}

impl Model for Readers {
    ghost use Rattle.part_model.specs.NearEntries.{Readers as ByKey};

    ghost Value = { ByKey };

    ghost view = { λ readers. readers.nodes };
}

impl Readers {
    /// No readers; it takes no memory.
    pub fn new(alloc: Global) -> Readers
        ensures { result ≡ [] }
    {
        Readers {
            alloc,
            nodes: HashTable::new(alloc),
        }
    }

    /// The node gets the key's updates from now on. Where there is no memory, nothing changes.
    pub fn add(&mut self, key: Key, node: NodeId) -> Mem<()>
        ensures ok { OnOk result (self.new ≡ with_reader self.old key node) }
        ensures err { OnErr result (self.new ≡ self.old) }
    {
        if !self.nodes.contains(&key) {
            let mut readers = Set::new(self.alloc);
            readers.insert(node)?;
            return self.nodes.set(key, readers);
        }
        let mut readers = self.nodes.replace(key, Set::new(self.alloc));
        let added = readers.insert(node);
        let _none = self.nodes.replace(key, readers);
        added
    }

    /// The nodes that get the key's updates, ascending.
    pub fn of(&self, key: &Key) -> &[NodeId]
        ensures { result.now ≡ readers_of self.now key.now }
    {
        match self.nodes.get(key) {
            Some(readers) => readers.as_slice(),
            None => &[],
        }
    }

    /// The node, which was lost, gets no updates any more. It takes no memory, and linear time in the number of keys.
    pub fn drop_node(&mut self, node: NodeId)
        ensures { self.new ≡ without_reader self.old node }
    {
        // the length is asked for its clause that the keys ascend
        let _count = self.nodes.len();
        self.nodes.change_each(&Lost { node });
    }

    /// Takes all readers out; it takes no memory.
    pub fn clear(&mut self)
        ensures { self.new ≡ [] }
    {
        self.nodes.clear();
    }

    /// The same readers once more: one sort of the keys, and a look-up of each.
    pub fn copy(&self) -> Mem<Readers>
        ensures { IfOk result (λ copy. copy ≡ self.now) }
    {
        let alloc = self.alloc;
        // the length is asked for its clause that the keys ascend
        let _count = self.nodes.len();
        let keys = self.nodes.keys()?;
        let mut nodes = HashTable::new(alloc);
        for key in keys.as_slice() {
            match self.nodes.get(key) {
                Some(readers) => nodes.set(*key, readers.copy(alloc)?)?,
                None => unreachable!(),
            }
        }
        Ok(Readers { alloc, nodes })
    }
}

#[cfg(test)]
mod tests {
    use super::*;
    use std::test::Fail;

    #[derive(Clone, Copy, Debug)]
    enum Act {
        Add(&'static [u8; 1], u32),
        Drop(u32),
    }

    fn apply(readers: &mut Readers, act: Act) -> Result<(), Fail> {
        match act {
            Act::Add(key, node) => readers.add(Key::read(key)?, NodeId(node))?,
            Act::Drop(node) => readers.drop_node(NodeId(node)),
        }
        Ok(())
    }

    /// Each row: an act, the number of readers of `a` and of `b` from then on, and the first of `a`.
    #[test]
    fn tells_each_key_its_readers(rt: HostRuntime) -> Result<(), Fail> {
        let rows = [
            (Act::Add(b"a", 9), 1, 0, Some(9)),
            (Act::Add(b"a", 9), 1, 0, Some(9)),
            (Act::Add(b"a", 3), 2, 0, Some(3)),
            (Act::Add(b"b", 3), 2, 1, Some(3)),
            (Act::Drop(3), 1, 0, Some(9)),
            (Act::Drop(9), 0, 0, None),
        ];
        let (a, b) = (Key::read(b"a")?, Key::read(b"b")?);
        let mut readers = Readers::new(rt.alloc());
        for (act, first, second, node) in rows {
            apply(&mut readers, act)?;
            let copy = readers.copy()?;
            assert_eq!(rt; copy.of(&a).len(), first, "{act:?}");
            assert_eq!(rt; copy.of(&b).len(), second, "{act:?}");
            assert_eq!(rt;
                copy.of(&a).first().copied(),
                node.map(|node| NodeId(node)),
                "{act:?}"
            );
        }
        readers.add(b, NodeId(1))?;
        readers.clear();
        assert!(rt; readers.of(&b).is_empty());
        Ok(())
    }
}
