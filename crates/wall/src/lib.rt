// The starred wall cases of document 01 have no code of their own: specs/Wall.antt has them as one table, and the theorem that it is right.
#![tactic(auto)]
