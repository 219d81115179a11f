#![tactic(auto)]

// The three demands, stated in specs/ and proved in proofs/: laws alone.
