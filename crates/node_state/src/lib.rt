//! The state of a node as plain data: what its sessions, its near side, its primary, the exchange and the recovery keep
//! between two acts. The whole state is a record of definitions, `specs/Node.antt`; what it holds is made of the types here.
#![tactic(auto)]

mod life;
mod near;
mod primary;
mod session;
mod topology;

pub use life::Life;
pub use near::{Getting, Read, Search, TxEntry, TxState};
pub use primary::{BackupName, BackupShare, NearWait, OwnShare, Store};
pub use session::SessionState;
pub use topology::{BackupWait, Claim, Exchange, FinishWait, Report, Round};
