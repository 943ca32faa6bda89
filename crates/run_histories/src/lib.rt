// No code: runs of events and the jobs that they close stand in specs/ and proofs/.
#![tactic(auto)]
