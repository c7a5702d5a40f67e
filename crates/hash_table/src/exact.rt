//! Keys that a hash table takes.

ghost use Rattle.ignite_types.proofs.NameLaws.{exact_keys, exact_nodes, exact_tops, exact_txs};
ghost use Rattle.std.proofs.lemmas.Map.Lookups.{CmpEqualImpliesEq, exact_unsigned};

use ignite_types::{Key, NodeId, TopVer, TxId};
use std::hash::Hash;

/// A key that is the same as each one that compares equal to it.
pub trait ExactKey: Ord + Hash + Copy {
    // Keys that compare equal are the same.
    ghost exact: { CmpEqualImpliesEq Self.cmp };
}

impl ExactKey for u32 {
    ghost exact = { exact_unsigned };
}

impl ExactKey for u64 {
    ghost exact = { exact_unsigned };
}

impl ExactKey for NodeId {
    ghost exact = { exact_nodes };
}

impl ExactKey for TopVer {
    ghost exact = { exact_tops };
}

impl ExactKey for TxId {
    ghost exact = { exact_txs };
}

impl ExactKey for Key {
    ghost exact = { exact_keys };
}
