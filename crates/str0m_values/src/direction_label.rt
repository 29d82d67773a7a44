//! The words of directions, as attributes of a section say them (RFC 8866, section 6.7).

/// This side sends and receives (RFC 8866, section 6.7.2).
pub const SEND_RECV: &str = "sendrecv";
/// This side sends alone (RFC 8866, section 6.7.3).
pub const SEND_ONLY: &str = "sendonly";
/// This side receives alone (RFC 8866, section 6.7.1).
pub const RECV_ONLY: &str = "recvonly";
/// This side neither sends nor receives (RFC 8866, section 6.7.4).
pub const INACTIVE: &str = "inactive";
