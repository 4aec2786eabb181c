// The channel of 000 §6 on lists: its state, its steps, the order T, and that it keeps the promise of 000 §4. There is no code here.
#![tactic(auto)]
