//! First laws of whole runs: what no event of the world changes, and that the clocks of all live nodes agree.
#![tactic(auto)]

ghost use Rattle.run_laws.specs.Staying.{ClocksAgree, Runs};

/// After any events, possible or not, from any world: the declared nodes are the same in the same order, each has its inbox,
/// sessions are on the same nodes, the plan is the same, and topology events stand behind those that were there.
pub fn parts_stay()
    ensures { (w : _) (gs : _) → Runs w gs }
{}

/// After any events from the opening world of any scenario the clock of each live node is the directory's.
pub fn clocks_agree()
    ensures { (scenario : _) (gs : _) → ClocksAgree scenario gs }
{}
