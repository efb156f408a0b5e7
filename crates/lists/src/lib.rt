// Complete lists of decisions, for any machine: definitions only, in specs/, and their laws, in proofs/.

#![tactic(auto)]
