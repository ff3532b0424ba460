// Theorems only: specs/ shows which trees are accepted, and the laws of such a tree. Assumes nothing.
#![tactic(auto)]
