// What holds after every run of reads, writes and direct calls on a register block (specification, section 10). No
// code: definitions are in specs/, theorems in proofs/. `demands` uses the theorems.
#![tactic(auto)]
