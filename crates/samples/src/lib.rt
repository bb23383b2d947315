// The arithmetic of one sample: a predicted one (taps), a smoothed reference (filters), a residual (deltas). Each is total, so that a
// wrong number in one is found in seconds. Rests on the domain's tests and the figures of a depth.
#![tactic(auto)]

pub mod deltas;
pub mod filters;
pub mod taps;
