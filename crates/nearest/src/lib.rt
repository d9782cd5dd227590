// The f32 nearest to a root: definitions in specs/, what is proved of them in proofs/. There is no code.

#![tactic(auto)]
