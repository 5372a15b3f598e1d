// For every public function: any two ends of a call that meet its contract are equal (proofs/). There is no code here.

#![tactic(auto)]
