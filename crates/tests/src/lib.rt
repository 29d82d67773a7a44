//! Tests that are code: of what no line of `cases/` says. Each file has one subject:
//!
//! - values: `candidates`, `transport` (credentials, fingerprints, roles), `names`, `profiles`;
//! - rows and rounds: `rounds`, `fourteen_rows`; `negotiation`, rounds with a whole text;
//! - descriptions: `attributes`, `sections`, `descriptions`, `read_back`;
//! - what callers do: `answers`, `offers`;
//! - the program: `program_runs`, `program_faults`.
//!
//! `rows`, `texts` and `program` have what several of them need. All is read for the tests alone: where the crate is proved
//! without them, there is nothing to prove.
//!
//! - `answers`: Answers of locked rows, put into one section and into several.
//! - `attributes`: Attributes that print no line, though a description holds them.
//! - `candidates`: Candidates (RFC 8839, section 5.1): made of their parts, and as browsers trickle them.
//! - `descriptions`: Descriptions, and offers and answers (RFC 3264) of them: what they hold and print.
//! - `fourteen_rows`: Fourteen rows, of three types each, against remote rows that demand each payload type in turn.
//! - `names`: Texts, names and extensions: how they compare, and what a text shows of itself.
//! - `negotiation`: Rounds with whole texts, one and another after it.
//! - `offers`: Offers: the rows that a section of one offers, and one that is made of values.
//! - `profiles`: Profiles, tiers and levels: their order, made of their parts, and asked alone.
//! - `program`: The program `sdpshow` over memory, and what a run of it comes to.
//! - `program_faults`: Runs of the program where input or output fails.
//! - `program_runs`: Runs of the program, by its arguments and what it reads.
//! - `read_back`: What is printed and read again: whether it is the same, and what a text would lose.
//! - `rounds`: Rounds that no text writes: a locked row that stands twice, hundreds of rows.
//! - `rows`: Rows that tests make and ask, and how a configuration finds one.
//! - `sections`: Sections, and what stands in them, before anything is said: what no text makes.
//! - `texts`: Texts that several files read, the description that a text begins with, and what values print.
//! - `transport`: Credentials, fingerprints and roles: copied, compared and printed as no line says them.
#![tactic(auto)]

#[cfg(test)]
mod answers;
#[cfg(test)]
mod attributes;
#[cfg(test)]
mod candidates;
#[cfg(test)]
mod descriptions;
#[cfg(test)]
mod fourteen_rows;
#[cfg(test)]
mod names;
#[cfg(test)]
mod negotiation;
#[cfg(test)]
mod offers;
#[cfg(test)]
mod profiles;
#[cfg(test)]
mod program;
#[cfg(test)]
mod program_faults;
#[cfg(test)]
mod program_runs;
#[cfg(test)]
mod read_back;
#[cfg(test)]
mod rounds;
#[cfg(test)]
mod rows;
#[cfg(test)]
mod sections;
#[cfg(test)]
mod texts;
#[cfg(test)]
mod transport;
