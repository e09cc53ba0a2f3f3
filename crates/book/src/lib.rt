// The book: the reference model that the monitor is held to. It has no function of its own; specs/ and proofs/ are the crate.
#![tactic(auto)]
