// Definitions and laws with no subject of their own. The crate is its specs/; a library has at least one function.
#![tactic(auto)]

fn nothing() {}
