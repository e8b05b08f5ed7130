// What a schedule with resets prints: specs and proofs alone.
#![tactic(auto)]
