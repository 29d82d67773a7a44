//! What C calls, after the tests of capi/zaxmonth.c. Each takes handles that own something where it asks for that, and answers a
//! status (`zax_status`).
//!
//! - `candidate_calls`: Calls of candidates.
//! - `config_calls`: Calls that make, change and free configurations.
//! - `exchange_calls`: Calls of exchanges: one side is made, and it answers offers.
//! - `finding_calls`: The call of findings.
//! - `line_texts`: What calls write of the lines of a section.
//! - `offer_calls`: Calls of exchanges in which this side offers.
//! - `round_calls`: Calls that negotiate, and that answer with what is agreed.
//! - `row_calls`: Calls of rows, and what is written of a row.
//! - `said`: What a call answers.
//! - `section_calls`: Calls of sections.
//! - `section_lists`: Calls that write what a section lists.
//! - `section_texts`: Calls that write a text of a section.
//! - `session_calls`: Calls of descriptions.
//! - `source_texts`: What calls write of the sources of a section.
//! - `told`: What a call of an exchange tells where it is refused.
//! - `transport_calls`: Calls of the transport that a description speaks of.
#![tactic(auto)]

mod candidate_calls;
mod config_calls;
mod exchange_calls;
mod finding_calls;
mod line_texts;
mod offer_calls;
mod round_calls;
mod row_calls;
mod said;
mod section_calls;
mod section_lists;
mod section_texts;
mod session_calls;
mod source_texts;
mod told;
mod transport_calls;
