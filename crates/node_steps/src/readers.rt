//! Readers: for each key the nodes to which updates of it go.

ghost use Rattle.std.specs.Prelude.{◌≡◌, [], OnOk};
ghost use Rattle.act_rows.specs.Locks.{with_reader_if};
ghost use Rattle.part_model.specs.NearEntries.{readers_of, without_reader};

use crate::node::Node;
use ignite_types::{Key, Mem, NodeId};

impl Node {
    /// The sender becomes a reader of the key, where it keeps what it is told.
    pub fn keep_reader(&mut self, from: NodeId, near: bool, key: &Key) -> Mem<()>
        ensures { OnOk result (self.new ≡ with_reader_if self.old from near key.now) }
    {
        if near {
            self.readers.add(*key, from)
        } else {
            Ok(())
        }
    }

    /// The readers of a key, ascending.
    pub fn readers_of(&self, key: &Key) -> &[NodeId]
        ensures { result.now ≡ readers_of self.now.readers key.now }
    {
        self.readers.of(key)
    }

    /// A node that was lost is no reader of any key; it takes no memory.
    pub fn forget_reader(&mut self, node: NodeId)
        ensures { self.new ≡ record self.old { readers = without_reader self.old.readers node } }
    {
        self.readers.drop_node(node);
    }

    /// No key has a reader any more; it takes no memory.
    pub fn clear_readers(&mut self)
        ensures { self.new ≡ record self.old { readers = [] } }
    {
        self.readers.clear();
    }
}
