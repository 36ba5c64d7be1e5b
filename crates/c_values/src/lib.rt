//! The values of the C interface: its structs, codes and statuses, and the conversions between these and
//! the values of the layer. The crate `deodarsieve` has the functions for C.
#![tactic(auto)]

pub mod codes;
pub mod layout;
pub mod levels;
pub mod outcomes;
pub mod slices;
pub mod status;
pub mod stress;
pub mod values;
