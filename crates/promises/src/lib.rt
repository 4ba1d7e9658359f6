// That no second answer meets the contract of a public function of the crates below, function by function: the theorems stand in proofs/. There is no code.
#![tactic(auto)]
