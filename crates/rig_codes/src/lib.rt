// No code: what the bench rig answers stands in specs/ and proofs/.
#![tactic(auto)]
