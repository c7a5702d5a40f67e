//! What a table is written for.
ghost use Rattle.std.specs.Prelude.{ℕ, List};

/// Parts that have a state each, and events that change some of them.
///
/// The four meanings exist in proofs alone. An event's relation is given the values of the parts that the event touches, and no
/// others, so it can neither read nor change another part.
pub trait Machine: Drop {
    /// What a part holds.
    type State: Drop + Send;

    /// What happens to parts.
    type Event: Drop + Send;

    /// How many parts there are. They are numbered from 0.
    ghost count: { Self → ℕ };

    /// The opening value of each part.
    ghost opening: { Self → ℕ → Self.State };

    /// The parts that an event touches, ascending.
    ghost touches: { Self → Self.Event → List ℕ };

    /// Whether an event may turn the old values of the parts that it touches into the new ones, both in the parts' order.
    ghost relates: { Self → Self.Event → List Self.State → List Self.State → Type 0 };
}
