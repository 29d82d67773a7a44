//! What `./bench` calls from C: one task of the libraries over a whole text, once and as often again as it asks for.
//!
//! - `answers`: Answers to offers, each in an exchange of its own.
//! - `calls`: What C calls: each takes a text, does its task, and does it as often again as `more` says.
//! - `task`: A task that is timed, over a text.
//! - `tasks`: What is done with a description.
#![tactic(auto)]

mod answers;
mod calls;
mod task;
mod tasks;
