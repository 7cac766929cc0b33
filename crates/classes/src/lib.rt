// The definition of what a word means is in specs/, its laws are in proofs/; there is no code here.
// Stands on `word` for fields and numbers and on `reading` for readings and mnemonic kinds.

#![tactic(auto)]
