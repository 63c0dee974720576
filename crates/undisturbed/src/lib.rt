// Demand 3 as a theorem about crate rules' step: exchanges do not disturb each other. All of it is in specs/; there is
// nothing to run here, and crate weave shows the same of the compiled port.
#![tactic(auto)]
