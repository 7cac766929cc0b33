// No code: that the contract of every public function of the libraries fixes its answer and all that it leaves in what
// was lent. The statements are in specs/, one for each function, the proofs in proofs/. Depends on all libraries.

#![tactic(auto)]
