// No code: the theorems that belong to no one function. Its specs/ hold what they say, its proofs/ show it.
#![tactic(auto)]
