//! What the program `sdpshow` does, over any reader and any two writers.
//!
//! - `fault`: Why a run of the program fails.
//! - `negotiation_lines`: The lines of `sdpshow negotiate`.
//! - `row_lines`: The lines of `sdpshow rows`.
//! - `run`: The program over any reader and any two writers.
#![tactic(auto)]

pub mod fault;
mod negotiation_lines;
mod row_lines;
pub mod run;
