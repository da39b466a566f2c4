// Theory only: plans made from a plan, and what stays the same in them.
#![tactic(auto)]
