// No code: when two words share a reading, and which word a reading gets. The definitions and theorems are in specs/,
// the proofs in proofs/. Depends on `word`, `reading` and `classes`.

#![tactic(auto)]
