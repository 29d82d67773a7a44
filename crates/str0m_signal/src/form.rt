//! The forms of attribute lines, and how each is read.

pub(crate) mod candidate_line;
pub(crate) mod ext_map;
pub(crate) mod fingerprint;
pub(crate) mod fmtp;
pub(crate) mod groups;
pub(crate) mod media_attribute;
pub(crate) mod rid;
pub(crate) mod rtp_map;
pub(crate) mod session_attribute;
pub(crate) mod simulcast;
pub(crate) mod sources;
