// The proved cases: jobs, plans and answers as data, and their law.
#![tactic(auto)]
