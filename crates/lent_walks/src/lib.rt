// No code: the steps of a proof by hand stand in proofs/. Rattle itself proves the functions that lend a record or a row, so no function's proof cites them.
#![tactic(auto)]
