// What reading and writing sheets as text keep, as theorems over the promises of `sheet_csv`: see specs/. There is no code here.
#![tactic(auto)]
