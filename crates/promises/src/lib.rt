// What the owner asked for, on pages that a stranger can read: the three demands, the table of numbers, one answer for each call. Its pages
// are in specs/. No code; a library has at least one function.
#![tactic(auto)]

fn nothing() {}
