// No code: the laws of tests, lists and walks that every other crate cites, and the definitions that they speak of. It
// names no crate.

#![tactic(auto)]
