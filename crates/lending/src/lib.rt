// No code: the laws by which a method lends all arrays of a struct at once, and has them back.
#![tactic(auto)]
