//! The one error of a single read or write.

ghost use Rattle.std.specs.Prelude.{Some, codes};

use std::fmt;

/// A read or a write failed. The object that failed has counted a fault.
#[derive(Clone, Copy, Debug, PartialEq, Eq)]
pub struct Failed;

impl fmt::Display for Failed {
    ghost output = { λ _. Some (codes "a read or a write failed") };

    fn fmt<W: fmt::Write>(&self, f: &mut fmt::Formatter<W>) -> fmt::Result {
        write!(f, "a read or a write failed")
    }
}

impl std::error::Error for Failed {}
