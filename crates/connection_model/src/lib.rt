// A connection as document 01 defines it has no code of its own: specs/ has the definition and the account, proofs/ what is true of them.
#![tactic(auto)]
