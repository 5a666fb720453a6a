// No code: the laws of a sheet after a correction of one latitude row, by which `promises` shows demand 3.
#![tactic(auto)]
