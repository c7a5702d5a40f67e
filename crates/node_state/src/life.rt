//! Whether a node takes part.

/// Whether a declared node has joined, and whether it was lost. The state of a lost node stays as it was.
#[derive(Clone, Copy, Debug, PartialEq, Eq)]
pub enum Life {
    Absent,
    Alive,
    Gone,
}
