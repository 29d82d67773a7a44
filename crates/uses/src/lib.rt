//! What callers do with the layer, in small functions. Each has a contract that follows from the public
//! clauses of the libraries alone: there is no file of proofs here but the invariant of the loop over the calls of a session.
//!
//! - `answer`: An offer that is answered.
//! - `both_sides`: The codecs that both sides have.
//! - `call_error`: A program's own error, in which those of the layer join.
//! - `later_round`: A later round: an offer that is sent again.
//! - `offered`: What an offer holds.
//! - `own_section`: A section of one's own, made of nothing but values.
//! - `session`: A session as a list of calls.
//! - `stored`: A text that is checked before it is stored.
#![tactic(auto)]

mod answer;
mod both_sides;
mod call_error;
mod later_round;
mod offered;
mod own_section;
mod session;
mod stored;

pub use answer::answer_section;
pub use both_sides::agreed_codecs;
pub use call_error::CallError;
pub use later_round::negotiate_again;
pub use offered::offered_rows;
pub use own_section::{own_frame, own_offer, own_sdp};
pub use session::{Step, run};
pub use stored::{ReadText, checked};
