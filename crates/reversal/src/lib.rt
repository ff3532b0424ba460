// Theorems only: specs/ says that each of the five moves can be taken back with its ratio turned over, and proofs/ shows it. Assumes nothing.
#![tactic(auto)]
