// A whole event log, and that reading it by pieces comes to the same. Definitions and theorems alone: specs/.
#![tactic(auto)]
