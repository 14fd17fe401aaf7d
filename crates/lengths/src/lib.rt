// How long a reading can be: definitions and laws.
#![tactic(auto)]
