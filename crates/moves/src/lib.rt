// No code: the definitions of a trial and its moves (specs/), and what every list of moves gives (proofs/). Crate `trial` has the code.
#![tactic(auto)]
