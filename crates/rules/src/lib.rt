// Definitions of what a port does, and theorems about them, all in specs/. Crates slave, master and port cite them;
// there is nothing to run here.
#![tactic(auto)]
