// No code: the figures that the Survey printed, in one list, and the proof that the definitions give them.
#![tactic(auto)]
