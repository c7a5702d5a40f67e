//! What every act of a node leaves alone, whatever it does else.
#![tactic(auto)]

ghost use Rattle.act_rows.specs.Acts.{answer_act, call_act, expire_act, minor_act};
ghost use Rattle.frame_laws.specs.Acting.{Plain, Sees, Takes};

/// Each act of a node counts, keeps the node's number and its clock, and puts messages behind those in the outbox. It notes
/// what rows note; a message that is taken is noted first, and a topology event that is seen is noted once. What is sent, the
/// plan, the clock, losses and want of memory are noted by no act but the event itself.
pub fn acts_extend()
    ensures message { (s : _) (from : _) (m : _) → Takes s from m }
    ensures event { (s : _) (event : _) → Sees s event }
    ensures expiry { (s : _) (tx : _) → Plain s (expire_act s tx) }
    ensures call { (s : _) (session : _) → Plain s (call_act s session) }
    ensures answer { (s : _) (session : _) → Plain s (answer_act s session) }
    ensures minor { (s : _) → Plain s (minor_act s) }
{}
