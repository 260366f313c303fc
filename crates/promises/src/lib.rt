// The demands, about the calls themselves. There is no code here: specs/ states them, sentence by sentence, and proofs/ cites what proves each.
#![tactic(auto)]
