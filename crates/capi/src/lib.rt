// The C interface: each function calls one public function of the library and copies its answer (include/tamqoret.h).
// C has a name for each sign, so each function that stands once for every raw is exported twice.
#![tactic(auto)]

mod answer;
pub mod c_arith;
pub mod c_bytes;
pub mod c_convert;
pub mod c_filter;
pub mod c_fitting;
pub mod c_from_float;
pub mod c_further;
pub mod c_log10;
pub mod c_read;
pub mod c_settle;
pub mod c_to_float;
pub mod c_whole;
pub mod c_write;
