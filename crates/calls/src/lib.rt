// No code: the definitions are in specs/ and the laws in proofs/. Start at specs/Cache.antt.
#![tactic(auto)]
