// A list that rises in its keys, as a map from keys to things: see specs/. There is no code here.
#![tactic(auto)]
