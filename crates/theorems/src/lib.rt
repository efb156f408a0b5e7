// What follows from document 01's definitions: runs end, every complete list is met once, no count meets its type's end, all that is read is there. Laws only, in proofs/, their words in specs/.

#![tactic(auto)]
