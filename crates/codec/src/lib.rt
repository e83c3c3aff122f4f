// The codec as a whole has no code of its own: proofs/ has the laws that join its reading and its writing side, specs/ what they speak of.
#![tactic(auto)]
