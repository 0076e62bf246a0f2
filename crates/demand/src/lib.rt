// Demand 3 over lists of calls in which captured traces stand too, and over lists of C calls. No code: definitions in specs/, theorems
// in proofs/. It stands above the C calls so that their must-fail edits do not prove it again.
#![tactic(auto)]
