// No code: what the log bytes of the C function keep stands in specs/ and is proved in proofs/.
#![tactic(auto)]
