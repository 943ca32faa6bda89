// No code: what a task's history of closed jobs makes of its record stands in specs/ and proofs/.
#![tactic(auto)]
