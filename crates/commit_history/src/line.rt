//! What is known of one session.

ghost use Rattle.std.specs.Prelude.{◌≡◌};
ghost use Rattle.commit_history.specs.Lines.{line_after, line_after_call, new_line, tx_of_line, walk_at_line};

use ignite_types::{Command, NodeId, TxId};
use tx_model::{Walk, access_key};

/// A session: its node, how many transactions it has started, whether its block is open or skipped, and its command that is
/// not answered yet.
#[derive(Clone, Copy, Debug)]
pub struct Line {
    pub node: NodeId,
    pub started: u64,
    pub block: bool,
    pub skipping: bool,
    pub called: Option<Command>,
}

impl Line {
    /// A session before its first command.
    pub fn new(node: NodeId) -> Line
        ensures { result ≡ new_line node }
    {
        Line {
            node,
            started: 0,
            block: false,
            skipping: false,
            called: None,
        }
    }

    /// The transaction that it started last.
    pub fn current(&self, session: u32) -> TxId
        ensures { result ≡ tx_of_line self.now session }
    {
        TxId {
            node: self.node,
            session,
            number: self.started,
        }
    }

    /// It calls a command: an access outside a block is a transaction of its own, unless it is skipped.
    pub fn call(&mut self, command: &Command)
        ensures { self.new ≡ line_after_call self.old command.now }
    {
        if access_key(command).is_some() && !self.block && !self.skipping {
            self.started = self.started.saturating_add(1);
        }
        self.called = Some(*command);
    }

    /// Tells the walk of its transaction how it stands.
    pub fn join(&self, walk: &mut Walk)
        ensures { walk.new ≡ walk_at_line self.now walk.old }
    {
        walk.started = self.started;
        walk.block = self.block;
        walk.skipping = self.skipping;
        walk.called = self.called;
    }

    /// It stands as the walk of its transaction says.
    pub fn follow(&mut self, walk: &Walk)
        ensures { self.new ≡ line_after self.old walk.now }
    {
        self.started = walk.started;
        self.block = walk.block;
        self.skipping = walk.skipping;
        self.called = walk.called;
    }
}
