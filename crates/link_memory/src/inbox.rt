//! A node's inbox.

ghost use Rattle.std.specs.Prelude.{◌≡◌, ◌++◌, false, [], ◌∷◌, drop, slice_get, OnOk, OnErr, IfOk, MatchOption};
ghost use Rattle.std.specs.Option.{option_copied};
ghost use Rattle.part_model.specs.Links.{inbox_after_pop, inbox_after_push, inbox_shut, is_held, new_inbox, oldest_in, with_hold, without_messages_of, without_messages_of_each};
ghost use Rattle.part_model.specs.Tables.{keys_in};
ghost use Rattle.link_memory.specs.Taking.{TakesLink, TakesNoLink};

use ignite_types::{Mem, Message, NoMemory, NodeId};
use ordered_table::Table;
use plain_copies::Duplicate;
use std::alloc::Global;
use std::collections::VecDeque;
use std::marker::Model;

/// A link from one sender: its messages, the oldest first, and whether it is held.
#[derive(Debug, Drop)]
pub struct Link {
    held: bool,
    messages: VecDeque<Message>,
}

impl Model for Link {
    ghost use Rattle.part_model.specs.Links.{Link as LinkValue};

    ghost Value = { LinkValue };

    ghost view = { λ link. record { held = link.held; messages = link.messages.items } };
}

/// A node's inbox, with a link for each sender. A closed inbox drops what is pushed.
#[derive(Debug, Drop)]
pub struct Inbox {
    alloc: Global,
    closed: bool,
    links: Table<NodeId, Link>,
}

impl Model for Inbox {
    ghost use Rattle.part_model.specs.Links.{Inbox as InboxValue};

    ghost Value = { InboxValue };

    ghost view = { λ inbox. record { closed = inbox.closed; links = inbox.links } };
}

fn vacant_link(alloc: Global) -> Link
    ensures { result ≡ record { held = false; messages = [] } }
{
    Link {
        held: false,
        messages: VecDeque::new(alloc),
    }
}

impl Link {
    fn push(&mut self, message: Message) -> Mem<()>
        ensures ok { OnOk result (self.new ≡ record self.old { messages = self.old.messages ++ message ∷ [] }) }
        ensures err { OnErr result (self.new ≡ self.old) }
    {
        self.messages.push_back(message)?;
        Ok(())
    }

    /// Takes the oldest message out.
    fn pop(&mut self) -> Option<Message>
        ensures oldest { result ≡ slice_get self.old.messages 0 }
        ensures rest { self.new ≡ record self.old { messages = drop 1 self.old.messages } }
    {
        self.messages.pop_front()
    }

    fn oldest(&self) -> Option<&Message>
        ensures { option_copied result ≡ slice_get self.now.messages 0 }
    {
        self.messages.front()
    }

    fn is_held(&self) -> bool
        ensures { result ≡ self.now.held }
    {
        self.held
    }

    fn hold(&mut self, held: bool)
        ensures { self.new ≡ record self.old { held = held } }
    {
        self.held = held;
    }

    fn clear(&mut self, alloc: Global)
        ensures { self.new ≡ record self.old { messages = [] } }
    {
        self.messages = VecDeque::new(alloc);
    }
}

impl Link {
    /// The same link once more.
    fn copy(&self, alloc: Global) -> Mem<Link>
        ensures { IfOk result (λ copy. copy ≡ self.now) }
    {
        let mut messages = VecDeque::with_capacity(alloc, self.messages.len())?;
        for message in &self.messages {
            messages.push_back(message.copy(alloc)?)?;
        }
        Ok(Link {
            held: self.held,
            messages,
        })
    }
}

/// The same links once more.
fn copied(alloc: Global, links: &Table<NodeId, Link>) -> Mem<Table<NodeId, Link>>
    ensures { IfOk result (λ copy. copy ≡ links.now) }
{
    let mut copy = Table::new(alloc);
    for (sender, link) in links.as_slice() {
        copy.set(*sender, link.copy(alloc)?)?;
    }
    Ok(copy)
}

impl Inbox {
    /// The inbox with an empty link for each of these senders.
    pub fn new(alloc: Global, senders: &[NodeId]) -> Mem<Inbox>
        ensures { IfOk result (λ inbox. inbox ≡ new_inbox senders.now) }
    {
        let mut links = Table::new(alloc);
        for sender in senders {
            links.set(*sender, vacant_link(alloc))?;
        }
        Ok(Inbox {
            alloc,
            closed: false,
            links,
        })
    }

    /// Takes a sender's link, to be put back changed; a vacant one stands in its place.
    fn take_link(&mut self, from: NodeId) -> Option<Link>
        ensures { MatchOption result (TakesNoLink self.old self.new from) (TakesLink self.old self.new from) }
    {
        if self.links.get(&from).is_some() {
            Some(self.links.replace(from, vacant_link(self.alloc)))
        } else {
            None
        }
    }

    /// Appends a message to its sender's; a closed inbox drops it.
    #[tactic(auto, using(crate::proofs::LinkLaws::node_put_put, crate::proofs::LinkLaws::node_put_there, crate::proofs::LinkLaws::node_put_back))]
    pub fn push(&mut self, from: NodeId, message: Message) -> Mem<()>
        ensures ok { OnOk result (self.new ≡ inbox_after_push self.old from message) }
        ensures err { OnErr result (self.new ≡ self.old) }
    {
        if self.closed {
            return Ok(());
        }
        match self.take_link(from) {
            Some(mut link) => match link.push(message) {
                Ok(()) => {
                    let _vacant = self.links.replace(from, link);
                    Ok(())
                }
                Err(NoMemory) => {
                    let _vacant = self.links.replace(from, link);
                    Err(NoMemory)
                }
            },
            None => Ok(()),
        }
    }

    /// The oldest message of a sender.
    pub fn oldest(&self, from: NodeId) -> Option<&Message>
        ensures { option_copied result ≡ oldest_in self.now from }
    {
        match self.links.get(&from) {
            Some(link) => link.oldest(),
            None => None,
        }
    }

    /// Takes the oldest message of a sender out. With none there, nothing changes.
    #[tactic(auto, using(crate::proofs::LinkLaws::node_put_put, crate::proofs::LinkLaws::node_put_there))]
    pub fn pop(&mut self, from: NodeId) -> Option<Message>
        ensures message { result ≡ oldest_in self.old from }
        ensures rest { self.new ≡ inbox_after_pop self.old from }
    {
        match self.take_link(from) {
            Some(mut link) => {
                let message = link.pop();
                let _vacant = self.links.replace(from, link);
                message
            }
            None => None,
        }
    }

    /// Whether the link from a sender is held.
    pub fn is_held(&self, from: NodeId) -> bool
        ensures { result ≡ is_held self.now from }
    {
        match self.links.get(&from) {
            Some(link) => link.is_held(),
            None => false,
        }
    }

    /// Holds the link from a sender, or lets it go on.
    #[tactic(auto, using(crate::proofs::LinkLaws::node_put_put, crate::proofs::LinkLaws::node_put_there))]
    pub fn hold(&mut self, from: NodeId, held: bool)
        ensures { self.new ≡ with_hold self.old from held }
    {
        if let Some(mut link) = self.take_link(from) {
            link.hold(held);
            let _vacant = self.links.replace(from, link);
        }
    }

    /// Empties the link from a sender, which was lost.
    #[tactic(auto, using(crate::proofs::LinkLaws::node_put_put, crate::proofs::LinkLaws::node_put_there))]
    pub fn drop_node(&mut self, from: NodeId)
        ensures { self.new ≡ without_messages_of self.old from }
    {
        if let Some(mut link) = self.take_link(from) {
            link.clear(self.alloc);
            let _vacant = self.links.replace(from, link);
        }
    }

    /// Empties the link of each sender.
    fn empty_each(&mut self)
        ensures { self.new ≡ without_messages_of_each self.old (keys_in self.old.links) }
    {
        for place in 0..self.links.len() {
            let sender = self.links.as_slice()[place].0;
            self.drop_node(sender);
        }
    }

    /// Empties and closes the inbox; nothing else closes one.
    pub fn shut(&mut self)
        ensures { self.new ≡ inbox_shut self.old }
    {
        self.empty_each();
        self.closed = true;
    }

    /// The same inbox once more.
    pub fn copy(&self) -> Mem<Inbox>
        ensures { IfOk result (λ copy. copy ≡ self.now) }
    {
        Ok(Inbox {
            alloc: self.alloc,
            closed: self.closed,
            links: copied(self.alloc, &self.links)?,
        })
    }
}
