// H.265 as definitions, a file of specs/ for each clause; no code. A library has at least one function.
#![tactic(auto)]

fn nothing() {}
