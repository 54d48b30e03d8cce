// What a reader can rely on, as theorems over the promises of the crates below: see specs/. There is no code here.
#![tactic(auto)]
