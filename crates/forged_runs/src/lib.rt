//! Forged journals: runs of the machine in which a few records were changed, and the statement that refuses each of them. `specs/`
//! has the forgeries, `proofs/` the refusals, each by computation.
#![tactic(auto)]
