//! The parameters of formats, and how they are read.
ghost use Rattle.std.specs.Prelude.{◌≡◌, false, IfOk, codes, option_map, bytes_eq};
ghost use Rattle.str0m_formats.specs.Prelude.{IsNum, IsTheOnly, num, when};
ghost use Rattle.str0m_formats.specs.declared.format.format_param.FormatParam.{FormatParam};
ghost use Rattle.str0m_formats.specs.declared.format.format_param.FormatParam.TheVariants.{AmrWbUnsupported};
ghost use Rattle.str0m_formats.specs.format.FormatParam.{IsMode, IsModeSet, IsParsedParam, IsEventRange, IsBareParam, IsPrintedParam, pair_texts, entry, entry_text, is_flag, kind, number};
ghost use Rattle.str0m_formats.specs.format.FormatParamReading.{param_number_read, param_hex_read, modes_read, param_value_read, param_of, bare_param};
ghost use Rattle.str0m_formats.specs.format.Pairs.{ArePairsRead};
ghost use Rattle.str0m_formats.specs.format.ParamText.{keyed_text};

use crate::format::format_key::FormatKey;
use crate::format::pairs::params;
use crate::format::param_text::Value;
use std::alloc::{AllocError, Global};
use str0m_values::cuts::{hex_u32, num_u8, num_u32};
use str0m_values::{H265ProfileTierLevel, H266ProfileTierLevel, Pt};

/// One parameter of a format, as the values of an `a=fmtp` line give them (RFC 8866, section 6.15).
#[derive(Clone, Copy, Debug, PartialEq, Eq)]
pub enum FormatParam {
    /// The least packet time in milliseconds (`minptime`; an early draft of RFC 7587).
    MinPTime(u8),
    /// Whether the receiver prefers stereo (`stereo`; RFC 7587, section 6.1).
    Stereo(bool),
    /// Whether the sender is likely to send stereo (`sprop-stereo`; RFC 7587, section 6.1).
    SpropStereo(bool),
    /// Whether the decoder can use in-band FEC (`useinbandfec`; RFC 7587, section 6.1).
    UseInbandFec(bool),
    /// Whether silence may be left out (`usedtx`; RFC 7587, section 6.1).
    UseDtx(bool),
    /// Whether the levels of the two directions may differ (`level-asymmetry-allowed`; RFC 6184,
    /// section 8.1).
    LevelAsymmetryAllowed(bool),
    /// How H264 is put into packets (`packetization-mode`; RFC 6184, section 8.1).
    PacketizationMode(u8),
    /// The profile and level of H264, three bytes (`profile-level-id`; RFC 6184, section 8.1).
    ProfileLevelId(u32),
    /// The profile of VP9, H265 or H266 (`profile-id`; RFC 9628, section 6; RFC 7798, section 7.1;
    /// RFC 9328, section 7.2).
    ProfileId(u32),
    /// The profile of AV1 (`profile`).
    Profile(u8),
    /// The level of AV1 (`level-idx`).
    LevelIdx(u8),
    /// The tier of AV1 (`tier`).
    Tier(u8),
    /// The profile, tier and level of H265 (`profile-id`, `tier-flag`, `level-id`; RFC 7798, section
    /// 7.1).
    H265ProfileTierLevel(H265ProfileTierLevel),
    /// The profile, tier and level of H266 (`profile-id`, `tier-flag`, `level-id`; RFC 9328, section
    /// 7.2).
    H266ProfileTierLevel(H266ProfileTierLevel),
    /// How far NAL units may be out of decoding order, 0 to 32767 (`sprop-max-don-diff`; RFC 7798,
    /// section 7.1).
    SpropMaxDonDiff(u16),
    /// The highest telephone event, from 0 on (RFC 4733, section 2.4).
    TelephoneEvents(u8),
    /// A range from 0 on, of which the codec says what it is.
    BareRange(u8),
    /// A list of payload types, by its first (RFC 2198, section 5).
    BarePtList(Pt),
    /// Whether AMR-WB is aligned to bytes (`octet-align`; RFC 4867, section 8.2).
    OctetAlign(bool),
    /// The modes of AMR-WB, bit N for mode N (`mode-set`; RFC 4867, section 8.2).
    ModeSet(u16),
    /// What asks for features of AMR-WB that aren't there: `crc=1`, `robust-sorting=1`,
    /// `mode-change-period=2` or any `interleaving` (RFC 4867, section 8.2).
    AmrWbUnsupported,
    /// The payload type that is retransmitted (`apt`; RFC 4588, section 8.1).
    Apt(Pt),
    /// The payload type of redundant audio (RFC 2198, section 5).
    Red(Pt),
    /// A key that isn't known, or a value that its key doesn't take.
    Unknown,
}

fn is_key_text(text: &str, other: &str) -> bool
    ensures { result ≡ bytes_eq text.now other.now }
{
    text == other
}

fn is_param_flag_one(value: &str) -> bool
    ensures { result ≡ bytes_eq value.now (codes "1") }
{
    is_key_text(value, "1")
}

#[tactic(auto, using(crate::proofs::format::FormatParamReadingLaws::param_hex_is))]
fn param_hex_number(text: &str) -> Option<u32>
    ensures { result ≡ param_number_read 16 4294967295 text.now }
{
    hex_u32(text)
}

/// The number in hexadecimal, or in decimal where it is none in hexadecimal.
#[tactic(auto, unfolding(crate::specs::format::FormatParamReading::param_hex_read))]
fn param_hex_else_decimal(text: &str) -> Option<u32>
    ensures { result ≡ param_hex_read text.now }
{
    match param_hex_number(text) {
        Some(n) => Some(n),
        None => num_u32(text),
    }
}

/// The number in decimal, where it is at most 32767.
fn distance(text: &str) -> Option<u16>
    ensures { result ≡ num 32767 text.now }
{
    match text.parse::<u16>() {
        Ok(n) if n <= 32767 => Some(n),
        _ => None,
    }
}

fn mode(piece: &str) -> Option<u8>
    ensures { IsTheOnly (IsMode piece.now) result }
{
    num_u8(piece.trim(), 8)
}

#[tactic(auto, unfolding(crate::specs::format::FormatParam::IsModeSet))]
fn mode_mask(text: &str) -> Option<u16>
    ensures { IsTheOnly (IsModeSet text.now) result }
{
    let mut mask = 0u16;
    for piece in text.split(',') {
        mask |= 1 << mode(piece)?;
    }
    Some(mask)
}

/// The modes that are parted by commas, as a mask.
#[tactic(auto, using(crate::proofs::format::FormatParamModes::modes_are))]
fn modes(text: &str) -> Option<u16>
    ensures { result ≡ modes_read text.now }
{
    mode_mask(text)
}

impl FormatKey {
    /// The parameter of a value after the key.
    #[inline]
    fn param(self, value: &str) -> Option<FormatParam>
        ensures { result ≡ param_value_read self value.now }
    {
        match self {
            FormatKey::Stereo => Some(FormatParam::Stereo(is_param_flag_one(value))),
            FormatKey::SpropStereo => Some(FormatParam::SpropStereo(is_param_flag_one(value))),
            FormatKey::UseInbandFec => Some(FormatParam::UseInbandFec(is_param_flag_one(value))),
            FormatKey::UseDtx => Some(FormatParam::UseDtx(is_param_flag_one(value))),
            FormatKey::LevelAsymmetryAllowed => {
                Some(FormatParam::LevelAsymmetryAllowed(is_param_flag_one(value)))
            }
            FormatKey::OctetAlign => Some(FormatParam::OctetAlign(is_param_flag_one(value))),
            _ => self.param_but_flag(value),
        }
    }

    /// The parameter of a value after a key that takes no flag.
    #[inline]
    fn param_but_flag(self, value: &str) -> Option<FormatParam>
        requires { is_flag (kind self) ≡ false }
        ensures { result ≡ param_value_read self value.now }
    {
        match self {
            FormatKey::ProfileLevelId => {
                param_hex_else_decimal(value).map(FormatParam::ProfileLevelId)
            }
            FormatKey::ProfileId => num_u32(value).map(FormatParam::ProfileId),
            FormatKey::SpropMaxDonDiff => distance(value).map(FormatParam::SpropMaxDonDiff),
            FormatKey::ModeSet => modes(value).map(FormatParam::ModeSet),
            FormatKey::Crc => unsupported_param(is_param_flag_one(value)),
            FormatKey::RobustSorting => unsupported_param(is_param_flag_one(value)),
            FormatKey::ModeChangePeriod => unsupported_param(is_key_text(value, "2")),
            FormatKey::Interleaving => Some(FormatParam::AmrWbUnsupported),
            _ => self.byte_param(value),
        }
    }

    /// The parameter of a value after a key that takes a number up to 255.
    #[inline]
    fn byte_param(self, value: &str) -> Option<FormatParam>
        requires { kind self ≡ number 255 }
        ensures { result ≡ param_value_read self value.now }
    {
        let n = num_u8(value, 255)?;
        match self {
            FormatKey::MinPTime => Some(FormatParam::MinPTime(n)),
            FormatKey::PacketizationMode => Some(FormatParam::PacketizationMode(n)),
            FormatKey::Profile => Some(FormatParam::Profile(n)),
            FormatKey::LevelIdx => Some(FormatParam::LevelIdx(n)),
            FormatKey::Tier => Some(FormatParam::Tier(n)),
            FormatKey::Apt => Some(FormatParam::Apt(Pt::new_with_value(n))),
            _ => unreachable!(),
        }
    }
}

impl FormatParam {
    /// The key and the value of a parameter; none where it has no key.
    pub(crate) fn entry(self) -> Option<(FormatKey, Value)>
        ensures { keyed_text result ≡ entry_text (entry self) }
    {
        let (key, value) = match self {
            FormatParam::MinPTime(n) => (FormatKey::MinPTime, Value::Number(u32::from(n))),
            FormatParam::Stereo(b) => (FormatKey::Stereo, Value::Flag(b)),
            FormatParam::SpropStereo(b) => (FormatKey::SpropStereo, Value::Flag(b)),
            FormatParam::UseInbandFec(b) => (FormatKey::UseInbandFec, Value::Flag(b)),
            FormatParam::UseDtx(b) => (FormatKey::UseDtx, Value::Flag(b)),
            FormatParam::LevelAsymmetryAllowed(b) => (
                FormatKey::LevelAsymmetryAllowed,
                Value::Flag(b),
            ),
            FormatParam::PacketizationMode(n) => {
                (FormatKey::PacketizationMode, Value::Number(u32::from(n)))
            }
            FormatParam::ProfileLevelId(n) => (FormatKey::ProfileLevelId, Value::SixDigits(n)),
            FormatParam::ProfileId(n) => (FormatKey::ProfileId, Value::Number(n)),
            FormatParam::Profile(n) => (FormatKey::Profile, Value::Number(u32::from(n))),
            FormatParam::LevelIdx(n) => (FormatKey::LevelIdx, Value::Number(u32::from(n))),
            FormatParam::Tier(n) => (FormatKey::Tier, Value::Number(u32::from(n))),
            FormatParam::SpropMaxDonDiff(n) => {
                (FormatKey::SpropMaxDonDiff, Value::Number(u32::from(n)))
            }
            FormatParam::OctetAlign(b) => (FormatKey::OctetAlign, Value::Flag(b)),
            FormatParam::ModeSet(mask) => (FormatKey::ModeSet, Value::Modes(mask)),
            FormatParam::Apt(pt) => (FormatKey::Apt, Value::Number(u32::from(pt.value()))),
            _ => return None,
        };
        Some((key, value))
    }
}

fn unsupported_param(is_asked: bool) -> Option<FormatParam>
    ensures { result ≡ option_map (λ x. AmrWbUnsupported) (when is_asked (tt {0})) }
{
    if is_asked {
        Some(FormatParam::AmrWbUnsupported)
    } else {
        None
    }
}

/// The parameter of a key and its value.
#[tactic(auto, unfolding(crate::specs::format::FormatParamReading::param_of))]
pub(crate) fn param(key: &str, value: &str) -> FormatParam
    ensures { result ≡ param_of (key.now, value.now) }
{
    match FormatKey::named(key) {
        Some(key) => key.param(value).unwrap_or(FormatParam::Unknown),
        None => FormatParam::Unknown,
    }
}

#[tactic(auto, using(crate::proofs::format::FormatParamLaws::parsed_param))]
fn parsed_param(key: &str, value: &str) -> FormatParam
    ensures { IsParsedParam (key.now, value.now) result }
{
    param(key, value)
}

fn param_byte_number(text: &str) -> Option<u8>
    ensures { IsTheOnly (IsNum 255 text.now) result }
{
    num_u8(text, 255)
}

/// The highest event of the range `0-X`, in digits alone.
fn last_event(value: &str) -> Option<u8>
    ensures { IsTheOnly (IsEventRange value.now) result }
{
    match value.strip_prefix("0-") {
        Some(end) if !end.starts_with('+') => param_byte_number(end),
        _ => None,
    }
}

fn events(last: Option<u8>) -> FormatParam
    ensures { result ≡ bare_param last }
{
    match last {
        Some(max) => FormatParam::TelephoneEvents(max),
        None => FormatParam::Unknown,
    }
}

impl FormatParam {
    /// Reads a key, without regard to the case of ASCII letters, and its value (RFC 8866, section
    /// 6.15). Numbers read as std reads them; a flag is true exactly for `1`. What doesn't read is
    /// `Unknown`.
    pub fn parse(key: &str, value: &str) -> FormatParam
        ensures parsed { IsParsedParam (key.now, value.now) result }

        // What a parameter prints reads as that parameter.
        ensures printed { (param : FormatParam) → IsPrintedParam param (key.now, value.now) → result ≡ param }
    {
        parsed_param(key, value)
    }

    /// Reads a value without a key: `0-X`, with X in digits and at most 255, is a range of
    /// telephone events (RFC 4733, section 2.4). What doesn't read is `Unknown`.
    #[tactic(auto, using(crate::proofs::format::FormatParamLaws::bare_param_of))]
    pub fn parse_telephone_events(value: &str) -> FormatParam
        ensures { IsBareParam value.now result }
    {
        events(last_event(value))
    }

    /// Reads keys and their values. Where a key is `tier-flag` or `level-id`, which only H265 and
    /// H266 have, keys are taken once each, in the order of their first appearance, with their last
    /// values; the profile, tier and level of H265, else of H266, that they name comes first (RFC
    /// 7798, section 7.1; RFC 9328, section 7.2), and their three keys are passed over. Otherwise each
    /// pair is read on its own, in order. The only error is that memory was refused.
    #[tactic(auto, using(crate::proofs::format::PairsLaws::are_pairs_read))]
    pub fn parse_pairs(
        alloc: Global,
        pairs: &[(&str, &str)],
    ) -> Result<Vec<FormatParam>, AllocError>
        ensures { IfOk result (λ params. ArePairsRead (pair_texts pairs.now) params.items) }
    {
        params(alloc, pairs)
    }
}
