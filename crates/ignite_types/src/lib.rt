//! The plain types that all of Hajmuten speaks of: names, versions, keys, values, scenarios, messages and records.
#![tactic(auto)]

mod answer;
mod journal;
pub mod limits;
mod list;
mod memory;
mod message;
mod names;
mod placement;
mod scenario;
mod short_text;
mod text;

pub use answer::{Answer, Fail, Fault};
pub use journal::{Effect, End, Event, Group, Journal, NoLoss, Rec, Status, TopoEvent};
pub use list::List;
pub use memory::{Mem, NoMemory};
pub use message::{
    Edge, Found, HeldShare, Message, Orphan, Out, Single, Stored, Wait, Waiters, Wanted,
};
pub use names::{CacheVersion, NodeId, TopVer, TxId};
pub use placement::{PartMap, Row, Share, ShareState};
pub use scenario::{Cache, Command, Item, Member, Mode, PlanStep, Scenario, Session, Step};
pub use short_text::ShortText;
pub use text::{Key, TextFault, Value};
