// What holds of every list of calls that a program in C or Rust makes on memory that it owns (specification, section
// 11). No code: definitions are in specs/, theorems in proofs/. `demands` uses the theorems.
#![tactic(auto)]
