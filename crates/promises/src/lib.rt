// The theorems about the whole reader that a user reads first, in specs/ and proofs/; no code. That every call is answered, whatever it is
// given (demand 1), needs no theorem: no public function of the readers has a `requires`.
#![tactic(auto)]
