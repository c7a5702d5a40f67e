//! How far a text was read.

ghost use Rattle.std.specs.Prelude.{◌≡◌};
ghost use Rattle.scen_text.specs.Places.{in_script, is_outside, is_outside_session, is_start_place, may_follow, place_after, place_of_setting, rank, stands_once};

use crate::line::Setting;
use ignite_types::{Command, Item};

/// How far a text was read: the kind of the last line that means something.
#[derive(Clone, Copy)]
pub enum Place {
    /// There is none.
    Start,
    /// The line of the format.
    Head,
    Parts,
    Backups,
    Near,
    Caches,
    Data,
    Nodes,
    Plan,
    /// The `end` of a session.
    Sessions,
    /// A line of a session, with no open block.
    Script,
    /// A line of a session, behind a `begin` and before the next `commit` or `rollback`.
    Block,
}

impl Place {
    /// Its rank in the order of the lines.
    fn rank(self) -> u32
        ensures { result ≡ rank self }
    {
        match self {
            Place::Start => 0,
            Place::Head => 1,
            Place::Parts => 2,
            Place::Backups => 3,
            Place::Near => 4,
            Place::Caches => 5,
            Place::Data => 6,
            Place::Nodes => 7,
            Place::Plan => 8,
            Place::Sessions => 9,
            Place::Script => 10,
            Place::Block => 10,
        }
    }

    /// Whether a line of the kind `next` may follow.
    pub fn stands(self, next: Place) -> bool
        ensures { result ≡ may_follow self next }
    {
        1 <= self.rank() && self.rank() <= next.rank()
    }

    /// Whether a line of the kind `next`, which stands once, may follow.
    pub fn stands_once(self, next: Place) -> bool
        ensures { result ≡ stands_once self next }
    {
        1 <= self.rank() && self.rank() < next.rank()
    }

    /// Whether a command may follow.
    pub fn in_script(self) -> bool
        ensures { result ≡ in_script self }
    {
        match self {
            Place::Script | Place::Block => true,
            _ => false,
        }
    }

    /// Whether a data command may follow.
    pub fn is_outside(self) -> bool
        ensures { result ≡ is_outside self }
    {
        match self {
            Place::Script => true,
            _ => false,
        }
    }

    /// Whether nothing stands before.
    pub fn is_start(self) -> bool
        ensures { result ≡ is_start_place self }
    {
        match self {
            Place::Start => true,
            _ => false,
        }
    }

    /// Whether a text may end here: behind its first line and in no session.
    pub fn is_whole(self) -> bool
        ensures { result ≡ is_outside_session self }
    {
        match self {
            Place::Start | Place::Script | Place::Block => false,
            _ => true,
        }
    }

    /// The place behind a command: a `begin` opens a block, and a `commit` or a `rollback` closes it.
    pub fn after(self, item: &Item) -> Place
        ensures { result ≡ place_after self item.now }
    {
        match item {
            Item::Plain(Command::Begin(..)) => Place::Block,
            Item::Plain(Command::Commit) => Place::Script,
            Item::Plain(Command::Rollback) => Place::Script,
            _ => self,
        }
    }
}

/// The kind of a setting's line.
pub fn place_of(setting: Setting) -> Place
    ensures { result ≡ place_of_setting setting }
{
    match setting {
        Setting::Parts => Place::Parts,
        Setting::Backups => Place::Backups,
        Setting::Near => Place::Near,
    }
}
