// Theory only: R79, the small plans and frontiers T1 to T13, judged by the definitions.
#![tactic(auto)]
