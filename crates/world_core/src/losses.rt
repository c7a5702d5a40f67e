//! The loss of a node.

ghost use Rattle.std.specs.Prelude.{◌≡◌, [], ◌∷◌, Option, None, OnOk, OnErr, IfOk, if◌then◌else◌};
ghost use Rattle.std.specs.Option.{option_copied};
ghost use Rattle.part_model.specs.Directory.{refusal_of_loss};
ghost use Rattle.part_model.specs.NextMap.{is_higher, newer_map};
ghost use Rattle.tx_model.specs.World.{best_map_from, best_map_without, inbox_on, inboxes_emptied, loss_outcome, outlives, place_of, with_inbox_shut, without_links, world_after_loss};
ghost use Rattle.world_core.specs.Run.{KeepsPast};

use crate::parts::{Part, lose_each};
use crate::world::World;
use ignite_types::{List, Mem, NoLoss, NodeId, PartMap, Rec, TopVer, TopoEvent};
use link_memory::Inbox;

/// Whether the first version is the higher one.
fn is_higher(a: TopVer, b: TopVer) -> bool
    ensures { result ≡ is_higher a b }
{
    b < a
}

/// The map of higher version; of two of one version the first.
fn newer<'a>(best: Option<&'a PartMap>, next: Option<&'a PartMap>) -> Option<&'a PartMap>
    ensures { option_copied result ≡ newer_map (option_copied best.entry) (option_copied next.entry) }
{
    match (best, next) {
        (None, _) => next,
        (Some(_), None) => best,
        (Some(old), Some(new)) => {
            if is_higher(new.top, old.top) {
                next
            } else {
                best
            }
        }
    }
}

/// The highest map installed at a survivor of the loss of this node.
fn best_without(parts: &[Part], id: NodeId) -> Option<&PartMap>
    ensures { option_copied result ≡ best_map_from id None parts.now }
{
    let mut best = None;
    for part in parts {
        if part.outlives(id) {
            best = newer(best, part.node.installed());
        }
    }
    best
}

/// The links from a lost node are emptied.
fn empty_each(inboxes: &mut Vec<Inbox>, id: NodeId)
    ensures { inboxes.new.items ≡ inboxes_emptied id inboxes.old.items }
{
    for inbox in inboxes.iter_mut() {
        inbox.drop_node(id);
    }
}

impl World {
    /// The inbox at this place is emptied and closed.
    fn shut_at(&mut self, place: Option<usize>)
        ensures { self.new ≡ record self.old { now = with_inbox_shut self.old.now place (inbox_on self.old.now place) } }
    {
        let Some(place) = place else {
            return;
        };
        if self.inboxes.len() <= place {
            return;
        }
        let inbox = &mut self.inboxes[place];
        inbox.shut();
    }

    /// The links of a lost node are emptied in both directions, and its inbox is closed.
    fn unlink(&mut self, id: NodeId, place: Option<usize>)
        ensures { self.new ≡ record self.old { now = without_links self.old.now id place } }
    {
        empty_each(&mut self.inboxes, id);
        self.shut_at(place);
    }

    fn lose(&mut self, id: NodeId)
        ensures { self.new ≡ record self.old { now = world_after_loss self.old.now id (place_of self.old.now id) } }
    {
        let place = self.place_of(id);
        self.unlink(id, place);
        lose_each(&mut self.parts, id);
    }

    /// Why the loss of a node is refused, if it is.
    pub(crate) fn loss_refused(&self, id: NodeId) -> Option<NoLoss>
        ensures { result ≡ refusal_of_loss self.now.now.directory id (best_map_without self.now.now id) }
    {
        let best = best_without(self.parts.as_slice(), id);
        self.directory.loss_refused(id, best)
    }

    /// A node is lost, where its loss is not refused.
    pub(crate) fn loses(&mut self, id: NodeId, refused: Option<NoLoss>) -> Mem<List<Rec>>
        ensures world { OnOk result
            (self.new ≡ record self.old { now = (loss_outcome self.old.now id self.old.now.directory refused).world }) }
        ensures recs { IfOk result (λ recs. recs ≡ (loss_outcome self.old.now id self.old.now.directory refused).recs) }
        ensures err { OnErr result (KeepsPast self.old self.new) }
    {
        if refused.is_some() {
            let none = self.no_records();
            return self.pass(refused, none);
        }
        self.lose(id);
        self.directory.append(self.alloc, &TopoEvent::Left(id))?;
        let mut recs = List::with_capacity(self.alloc, 1)?;
        recs.push(Rec::Lost { node: id })?;
        self.pass(None, recs)
    }
}
