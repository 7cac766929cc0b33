// What the manuals say of a word, and every difference between them and the source, is in specs/, the proofs are in
// proofs/; there is no code here. Depends on `classes` for the definition that is compared with the manuals.

#![tactic(auto)]
