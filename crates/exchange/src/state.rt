//! Where an exchange stands, and both its sides.

pub(crate) mod copied_over;
pub(crate) mod exchange;
pub(crate) mod exchange_error;
pub(crate) mod line_by_line;
pub(crate) mod line_told;
pub(crate) mod own_side;
pub(crate) mod read_back;
pub(crate) mod signaling_state;
