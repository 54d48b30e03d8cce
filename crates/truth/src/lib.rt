// What is known of tests that are true or false: see specs/. There is no code here.
#![tactic(auto)]
