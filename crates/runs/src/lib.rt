// No code: takings one after the other are defined in specs/ and their laws are in proofs/.
#![tactic(auto)]
