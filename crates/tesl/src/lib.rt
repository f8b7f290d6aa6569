// What TESL means here: the definitions are in specs/, and proofs/ shows that fitting is TESL's, formula by formula. It has no function.
#![tactic(auto)]
