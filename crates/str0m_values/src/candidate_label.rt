//! What stands in front of each part of a candidate, with the spaces around it (RFC 8839, section 5.1).

/// The foundation, at the front.
pub const CANDIDATE: &str = "candidate:";
/// The kind.
pub const TYPE: &str = " typ ";
/// The related address.
pub const RELATED_ADDRESS: &str = " raddr ";
/// The port of the related address.
pub const RELATED_PORT: &str = " rport ";
/// Which side opens the connection (RFC 6544, section 4.5).
pub const TCP_TYPE: &str = " tcptype ";
/// The user fragment that the candidate belongs to (RFC 8838, section 13).
pub const UFRAG: &str = " ufrag ";
/// How often ICE was restarted, as browsers say it.
pub const GENERATION: &str = " generation ";
/// The network interface, as browsers say it.
pub const NETWORK_ID: &str = " network-id ";
/// What the network interface costs, as browsers say it.
pub const NETWORK_COST: &str = " network-cost ";
