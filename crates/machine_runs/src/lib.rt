//! Runs of the machine, each computed by the definitions alone: `specs/` has words for scenarios and a driver, `proofs/` the runs.
#![tactic(auto)]
