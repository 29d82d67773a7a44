//! Offers that wait for their answers.

use crate::offer::added::AddedUnderMid;
use str0m_signal::{Items, Sdp};

/// An offer of this side that waits for its answer.
#[derive(Debug, Drop)]
pub(crate) struct Pending {
    pub(crate) sdp: Sdp,
    /// What it places of what was added, from the first on.
    pub(crate) placed: Items<AddedUnderMid>,
}
