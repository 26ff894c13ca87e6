// What holds over every run of calls: mutual exclusion, the two figures, and freedom from deadlock (specification,
// section 6). No code: definitions are in specs/, theorems in proofs/. `register_runs` and `demands` use the theorems.
#![tactic(auto)]
