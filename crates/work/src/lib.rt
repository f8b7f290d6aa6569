// One instant's work on the remainders held: specs/ has what it makes of them, proofs/ that this is theory's step. It has no function.
#![tactic(auto)]
