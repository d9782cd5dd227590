// Document 01's proved cases, one table: specs/Cases.antt lists them, proofs/Hold.antt proves that all hold. Request 5's points, where the editions part: specs/Editions.antt and
// proofs/Apart.antt. No code is needed for it.

#![tactic(auto)]
