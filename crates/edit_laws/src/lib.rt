// What edits of a sheet come to, as theorems over the promises of `edit` and `checker`: see specs/. There is no code here.
#![tactic(auto)]
