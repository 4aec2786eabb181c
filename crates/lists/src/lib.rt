// General facts on lists, tests, counted loops, histories and sorting, which the other crates cite. There is no code here.
#![tactic(auto)]
