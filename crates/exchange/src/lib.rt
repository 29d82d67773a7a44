//! Offers and answers whole: one call from an offer to an answer that browsers take.
//!
//! - `answer`: Answers with their versions.
//!   - `accepted`: Sections that accept.
//!   - `accepted_offer`: Answers of this side to offers.
//!   - `answered_section`: The sections of an answer.
//!   - `answered_session`: What an answer says of the session as a whole.
//!   - `bundle`: The names that the group of an answer lists.
//!   - `bundled`: What the sections of a bundle share, looked for once.
//!   - `choice`: What a section is answered with.
//!   - `in_bundle`: Sections that share the transport of a bundle.
//!   - `in_force`: What is in force at a section: what it says itself, else what the session says for all sections.
//!   - `layers`: The layers of a stream that is received in several.
//!   - `offered`: Offers that are read whole, and their rounds.
//!   - `offered_feedback`: The feedback that a section offers for each payload type, by one pass over its lines.
//!   - `offered_lines`: Lines that an answer says only where its offer does.
//!   - `rejected_section`: The section that rejects an offered one.
//!   - `rows`: The rows that answer a section.
//!   - `turned_layers`: Layers of an answer beside those of its offer.
//! - `offer`: Offers with their versions.
//!   - `accepted_answer`: Answers to offers of this side.
//!   - `added`: What is added to a session, and where an offer places it.
//!   - `fits`: Whether an answer fits the offer of this side.
//!   - `fits_section`: The rules that a section of an answer keeps beside the one that is offered in its place.
//!   - `fresh_names`: The names of what is added to a session.
//!   - `made_offer`: The offer that this side makes.
//!   - `names`: Names of sections in the order of their bytes.
//!   - `offer_extensions`: The header extensions of a section that an offer adds.
//!   - `offer_places`: The places of an offer.
//!   - `offer_section`: The sections of an offer.
//!   - `own_names`: Whether each section of a description has a name of its own (RFC 5888, section 4).
//!   - `pending`: Offers that wait for their answers.
//!   - `rule`: The rules of answers to offers of this side, and of later offers.
//! - `section`: Sections of descriptions, and what is asked of each.
//!   - `places`: The places of sections over several exchanges.
//!   - `reached`: Sections that say how their transport is reached, or for which the session says so.
//!   - `repeated_lines`: The lines that an answer says only where the offer does.
//!   - `restart`: Whether a description restarts ICE.
//!   - `round_names`: Which outcome of a text's rounds is of which section.
//!   - `stopped`: Which sections of an offer are stopped.
//!   - `trickled`: Candidates as they are trickled.
//! - `state`: Where an exchange stands, and both its sides.
//!   - `copied_over`: Descriptions that were read back, made equal to those that were said.
//!   - `exchange`: Exchanges of offers and answers.
//!   - `exchange_error`: Why a call of an exchange is refused.
//!   - `line_by_line`: Descriptions each of whose lines is read as what it says.
//!   - `line_told`: Attributes that tell by what they hold that their lines are read as what they say.
//!   - `own_side`: What this side says of itself.
//!   - `read_back`: A description whose text is read again.
//!   - `signaling_state`: Where an exchange of offers and answers stands.
#![tactic(auto)]

mod answer;
mod offer;
mod section;
mod state;

pub use answer::Answer;
pub use answer::bundle::answered_bundle;
pub use answer::in_force::{creds_at, fingerprint_at, setup_at};
pub use answer::layers::answered_layers;
pub use answer::rejected_section::rejected;
pub use answer::rows::rows_for;
pub use offer::Offer;
pub use offer::rule::Rule;
pub use section::repeated_lines::repeated;
pub use section::restart::is_ice_restart;
pub use section::round_names::negotiated_names;
pub use section::stopped::{is_bundle_only, is_stopped, name_of};
pub use section::trickled::trickled_candidate;
pub use state::exchange::Exchange;
pub use state::exchange_error::ExchangeError;
pub use state::own_side::{DataChannels, OwnSide, SectionDirection};
pub use state::read_back::is_read_back;
pub use state::signaling_state::SignalingState;
