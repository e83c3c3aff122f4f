// The engine as document 01 defines it has no code of its own: specs/ has the definition, proofs/ what is true of it.
#![tactic(auto)]
