// What a context multicast channel promises (000 §4), and what follows from it. There is no code here.
#![tactic(auto)]
