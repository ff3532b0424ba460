// Theorems only: specs/ says request S-5, a bigger allowance, of every call that has one, and shows it. Assumes nothing.
#![tactic(auto)]
