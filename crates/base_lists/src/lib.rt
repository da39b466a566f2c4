// Theory only: laws on tests, lists and counts that the kit's libraries do not have.
#![tactic(auto)]
