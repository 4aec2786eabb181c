// What is claimed of the store as a whole: the published algorithm, the ledger, the serial order, the limits. There is no code here.
#![tactic(auto)]
