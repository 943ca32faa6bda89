// No code: what the listing of an input says, line by line, stands in specs/, and what is shown of it in proofs/.
#![tactic(auto)]
