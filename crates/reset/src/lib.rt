// The world with terminals: its events, the limit on lists with a reset, and what holds after every such list.
#![tactic(auto)]
