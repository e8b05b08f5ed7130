// For each n a list of events after which a closing round is as long as it can be: specs and proofs alone.
#![tactic(auto)]
