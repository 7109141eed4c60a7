// What f32 and f64 patterns say, carried as u32 and u64 integers: their fields, and their magnitude in steps of a
// format, to the nearest, ties to even. One body for both, over the precision p and the width of the exponent field
// (IEEE 754, 3.4). Inner functions of `from_float` and `to_float`.
#![tactic(auto)]

mod bits;
pub mod pattern;
pub mod rounding;
