// Theorems only: specs/ says what a tree move's call comes from, and proofs/ shows it, for all seven moves at once. The code is in heights, slide, exchanges
// and wilson. Assumes nothing.
#![tactic(auto)]
