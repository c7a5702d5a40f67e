//! What a run's journal shows, as statements that can be computed: definitions alone.
#![tactic(auto)]
