// Theory only: runs, chains and counts by column over the numbers below a bound.
#![tactic(auto)]
