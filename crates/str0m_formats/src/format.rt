//! Formats: keys, parameters, and the lines of `a=fmtp`.

pub(crate) mod format_key;
pub(crate) mod format_line;
pub(crate) mod format_param;
pub(crate) mod format_params;
pub(crate) mod merged_pairs;
pub(crate) mod pairs;
pub(crate) mod param_text;
