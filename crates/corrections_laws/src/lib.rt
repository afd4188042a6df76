#![tactic(auto)]

// Nothing to run: the crate is for its specs and proofs.
