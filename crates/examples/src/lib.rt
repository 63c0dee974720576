// Document 01's marked examples, and theorems that the definitions of crates rules, replaying and lines give what is
// said there, all in specs/; there is nothing to run here.
#![tactic(auto)]
