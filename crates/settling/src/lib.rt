// Demand 3 is a theorem about `backend::render` and `render_record::render_record`: specs/Settling.antt says it, proofs/Settled.antt proves it. No code is needed for it.

#![tactic(auto)]
