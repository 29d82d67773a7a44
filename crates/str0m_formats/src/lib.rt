//! Codecs and the parameters of formats; rows, configurations, and the rounds in which payload types
//! are negotiated.
//!
//! - `codec`: Codecs.
//!   - `codec_spec`: Codecs with their clock rates, channels and formats.
//! - `format`: Formats: keys, parameters, and the lines of `a=fmtp`.
//!   - `format_key`: The keys of format parameters, and their texts.
//!   - `format_line`: Formats that are read of a line, or of the values of fmtp lines.
//!   - `format_param`: The parameters of formats, and how they are read.
//!   - `format_params`: Formats: the parameters of a codec, each in a field.
//!   - `merged_pairs`: Pairs with each key once.
//!   - `pairs`: Pairs of keys and values that are read together.
//!   - `param_text`: How parameters of formats print.
//! - `round`: Rounds, in which payload types are negotiated.
//!   - `beginning`: What stands before a round: whether it may begin, and what is claimed then.
//!   - `choices`: Which row is chosen among several.
//!   - `claim_mask`: A table of claimed payload types in one number.
//!   - `claimed`: Tables of claimed payload types.
//!   - `claims`: What a round has claimed: which remote row a row then goes with, and which types it may take.
//!   - `first_pass`: The first pass of a round: each row that is matched is locked.
//!   - `match_score`: How well two specs fit.
//!   - `narrowing`: What the row that a row is matched with changes in its format.
//!   - `negotiation_error`: Why a round of negotiation is refused.
//!   - `rounds`: Rounds of negotiation, one and many.
//!   - `settling`: The second pass of a round: a row that is still open gives up each type that a locked row has.
//! - `row`: Rows and configurations of them.
//!   - `codec_config`: The codecs that one side can send and receive.
//!   - `default_row`: The default rows of each codec, one by one.
//!   - `default_rows`: The default rows of codecs, which are taken in and out together.
//!   - `kind_rows`: The rows of a kind of media.
//!   - `payload_params`: Rows: a codec with the payload types that it is sent under.
//!   - `plain_row`: Plain rows: those that the lines of a section say whole.
//!   - `red_distances`: How far back the redundant levels of RED reach (RFC 2198, section 3).
#![tactic(auto)]

mod codec;
mod format;
mod round;
mod row;

pub use codec::Codec;
pub use codec::codec_spec::CodecSpec;
pub use format::format_param::FormatParam;
pub use format::format_params::FormatParams;
pub use round::claim_mask::ClaimMask;
pub use round::claimed::Claimed;
pub use round::negotiation_error::NegotiationError;
pub use round::rounds::Round;
pub use row::codec_config::CodecConfig;
pub use row::kind_rows::KindRows;
pub use row::payload_params::PayloadParams;
