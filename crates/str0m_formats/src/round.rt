//! Rounds, in which payload types are negotiated.

pub(crate) mod beginning;
pub(crate) mod choices;
pub(crate) mod claim_mask;
pub(crate) mod claimed;
pub(crate) mod claims;
pub(crate) mod first_pass;
pub(crate) mod match_score;
pub(crate) mod narrowing;
pub(crate) mod negotiation_error;
pub(crate) mod rounds;
pub(crate) mod settling;
