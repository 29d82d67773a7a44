//! Rows and configurations of them.

pub(crate) mod codec_config;
pub(crate) mod default_row;
pub(crate) mod default_rows;
pub(crate) mod kind_rows;
pub(crate) mod payload_params;
pub(crate) mod plain_row;
pub(crate) mod red_distances;
