// Definitions only: specs/ has what each move chooses, when it declines, what it makes and with which ratio. Assumes nothing.
#![tactic(auto)]
