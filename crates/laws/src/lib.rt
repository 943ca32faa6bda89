// No code: what every proof of this repository cites stands in specs/ and proofs/.
#![tactic(auto)]
