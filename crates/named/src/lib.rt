// The named runs K1 to K10 (RULES 13): no code, a table of files and answers in specs/Table and one law over it in proofs/Named.
#![tactic(auto)]
