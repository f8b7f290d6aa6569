// The mathematics over tesl: specs/ has the step function, proofs/ the theorems. It has no function.
#![tactic(auto)]
