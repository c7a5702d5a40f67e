//! Texts of any length.

ghost use Rattle.std.specs.Prelude.{◌≡◌, ◌↔◌, [], nat_eq, Some, refl, IsTrue, IfOk};
ghost use Rattle.std.specs.Ordering.{nat_cmp};
ghost use Rattle.std.specs.Cmp.{partial_equiv_from_equiv};
ghost use Rattle.std.specs.Cmp.Rules.{comparing, hashing};
ghost use Rattle.std.specs.Hash as fed;
ghost use Rattle.std.proofs.Common.{rules};
ghost use Rattle.std.specs.Cmp.Lexicographic.{pointwise, slice_cmp, nat_list_eq_equiv, nat_list_cmp_total, texts_po, texts_ties};

use ignite_types::Mem;
use std::alloc::Global;
use std::cmp::Ordering;
use std::hash::{Hash, Hasher};
use std::marker::Model;

/// A text of any length, seen by contracts as the list of its bytes. Compared byte by byte.
#[derive(Debug, Drop)]
pub struct LongText {
    bytes: Vec<u8>,
}

impl Model for LongText {
    ghost use Rattle.std.specs.Prelude.{ℕ, List};
    ghost use Rattle.std.specs.Coded.{coded_list, coded_ℕ};

    ghost Value = { List ℕ };

    ghost coded = { coded_list coded_ℕ };

    ghost view = { λ text. text.bytes.items };
}

impl LongText {
    /// A text with these bytes.
    pub fn new(alloc: Global, bytes: &[u8]) -> Mem<LongText>
        ensures { IfOk result (λ text. text ≡ bytes.now) }
    {
        let bytes = Vec::from_slice(alloc, bytes)?;
        Ok(LongText { bytes })
    }

    /// The same text again.
    pub fn copy(&self, alloc: Global) -> Mem<LongText>
        ensures { IfOk result (λ text. text ≡ self.now) }
    {
        LongText::new(alloc, self.as_slice())
    }

    pub fn as_slice(&self) -> &[u8]
        ensures { result.now ≡ self.now }
    {
        self.bytes.as_slice()
    }

    pub fn is_empty(&self) -> bool
        ensures { IsTrue result ↔ (self.now ≡ []) }
    {
        self.bytes.is_empty()
    }
}

impl PartialEq for LongText {
    ghost eq = { pointwise nat_eq };

    ghost laws = { partial_equiv_from_equiv nat_list_eq_equiv };

    fn eq(&self, other: &LongText) -> bool {
        self.as_slice() == other.as_slice()
    }
}

impl Eq for LongText {
    ghost laws = { nat_list_eq_equiv };
}

impl PartialOrd for LongText {
    ghost partial_cmp = { λ a b. Some (slice_cmp nat_cmp a b) };

    ghost laws = { texts_po };

    fn partial_cmp(&self, other: &LongText) -> Option<Ordering> {
        Some(self.cmp(other))
    }
}

impl Ord for LongText {
    ghost cmp = { slice_cmp nat_cmp };

    ghost total = { nat_list_cmp_total };

    ghost matches_partial_cmp = { λ a b. refl };

    ghost matches_eq = { texts_ties };

    fn cmp(&self, other: &LongText) -> Ordering {
        self.as_slice().cmp(other.as_slice())
    }
}

impl Hash for LongText {
    ghost hash_input = { λ text. fed.slice fed.u8 text };

    ghost respects_eq = { Prim.search (hashing, rules) };

    fn hash<H: Hasher>(&self, state: &mut H) {
        self.as_slice().hash(state);
    }
}
