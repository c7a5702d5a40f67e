//! The numbers of a world's parts.

ghost use Rattle.std.specs.Prelude.{◌≡◌, ◌*◌, suc};
ghost use Rattle.world_parts.specs.Laws.{HistoriesAreRuns, IsNumberOfInbox, IsNumberOfNode, TouchesAreNumbers, WorldsComeBack};
ghost use Rattle.world_parts.specs.Parts.{inbox_part, node_part};

/// The number of the directory.
pub const DIRECTORY: u32 = 0;

/// The number of the declared node at this place, counted from 0.
pub fn node_part(place: u16) -> u32
    ensures number { result ≡ node_part place }
    ensures value { IsNumberOfNode place result }
{
    2 * (place as u32) + 1
}

/// The number of its inbox.
pub fn inbox_part(place: u16) -> u32
    ensures number { result ≡ inbox_part place }
    ensures value { IsNumberOfInbox place result }
{
    2 * (place as u32) + 2
}

/// How many parts the world of a scenario with so many declared nodes has.
///
/// The parts that a group touches are some of these, in ascending order. A world of a run is the one that its parts make. The
/// groups of each history of a table of these parts are a run of the machine, and their journal is legal.
pub fn part_count(nodes: u16) -> u32
    ensures number { result ≡ suc (2 * nodes) }
    ensures touched { TouchesAreNumbers nodes result }
    ensures worlds { WorldsComeBack nodes }
    ensures histories { HistoriesAreRuns nodes }
{
    2 * (nodes as u32) + 1
}
