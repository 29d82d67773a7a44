//! Configurations by the calls that make them, parted by `, `, as `defaults, disable opus`.

use crate::answer::Answer;
use crate::lists::listed_word;
use crate::row_texts::{codec_of, row_byte_of, row_of, row_type_of, row_type_or_dash, rows_of};
use std::alloc::AllocError;
use str0m_formats::{Codec, CodecConfig};

/// Enables or disables audio that can have RED; none of what can have none.
fn enable_audio(
    config: &mut CodecConfig,
    codec: Codec,
    is_on: bool,
    use_red: bool,
) -> Option<Result<(), AllocError>> {
    match codec {
        Codec::Opus => Some(config.enable_opus(is_on, use_red)),
        Codec::PCMU => Some(config.enable_pcmu(is_on, use_red)),
        Codec::PCMA => Some(config.enable_pcma(is_on, use_red)),
        Codec::G722 => Some(config.enable_g722(is_on, use_red)),
        _ => None,
    }
}

/// Enables or disables what can have no RED; none of what can have one.
fn enable_other_codec(
    config: &mut CodecConfig,
    codec: Codec,
    is_on: bool,
) -> Option<Result<(), AllocError>> {
    match codec {
        Codec::CN => Some(config.enable_comfort_noise(is_on)),
        Codec::AmrWb => Some(config.enable_amr_wb(is_on)),
        Codec::Vp8 => Some(config.enable_vp8(is_on)),
        Codec::H264 => Some(config.enable_h264(is_on)),
        Codec::H265 => Some(config.enable_h265(is_on)),
        Codec::H266 => Some(config.enable_h266(is_on)),
        Codec::Vp9 => Some(config.enable_vp9(is_on)),
        Codec::Av1 => Some(config.enable_av1(is_on)),
        _ => None,
    }
}

/// `enable CODEC`, `enable CODEC red` or `enable CODEC plain`: with RED, or without it where it could have one.
fn enable_codec(
    answer: &mut Answer,
    config: &mut CodecConfig,
    text: &str,
    is_on: bool,
) -> Result<(), AllocError> {
    let (name, red) = listed_word(text);
    let codec = codec_of(answer, name);
    let enabled = match red {
        "red" => enable_audio(config, codec, is_on, true),
        "plain" => enable_audio(config, codec, is_on, false),
        "" => enable_other_codec(config, codec, is_on),
        _ => None,
    };
    if enabled.is_none() {
        answer.no_such("call");
    }
    enabled.unwrap_or(Ok(()))
}

/// `add ROW`: a row without RED.
fn configure_row(
    answer: &mut Answer,
    config: &mut CodecConfig,
    text: &str,
) -> Result<(), AllocError> {
    let row = row_of(answer, text);
    let spec = row.spec();
    config.add_config(
        row.pt(),
        row.resend(),
        spec.codec,
        spec.clock_rate,
        spec.channels,
        spec.format,
    )
}

/// `h264 TYPE RTX MODE ID`: the mode is 0 or 1, the profile and level are hexadecimal.
fn configure_h264(
    answer: &mut Answer,
    config: &mut CodecConfig,
    text: &str,
) -> Result<(), AllocError> {
    let (pt, rest) = listed_word(text);
    let (resend, rest) = listed_word(rest);
    let (mode, id) = listed_word(rest);
    let id = u32::from_str_radix(id, 16);
    if id.is_err() || !matches!(mode, "0" | "1") {
        answer.no_such("call");
    }
    let (pt, resend) = (row_type_of(answer, pt), row_type_or_dash(answer, resend));
    config.add_h264(pt, resend, mode == "1", id.unwrap_or(0))
}

/// `h265 TYPE RTX PROFILE TIER LEVEL`, and so of H266.
fn configure_triple(
    answer: &mut Answer,
    config: &mut CodecConfig,
    text: &str,
    is_h266: bool,
) -> Result<(), AllocError> {
    let (pt, rest) = listed_word(text);
    let (resend, rest) = listed_word(rest);
    let (profile, rest) = listed_word(rest);
    let (tier, level) = listed_word(rest);
    let (pt, resend) = (row_type_of(answer, pt), row_type_or_dash(answer, resend));
    let profile = row_byte_of(answer, profile, "call");
    let tier = row_byte_of(answer, tier, "call");
    let level = row_byte_of(answer, level, "call");
    if is_h266 {
        config.add_h266(pt, resend, profile, tier, level)
    } else {
        config.add_h265(pt, resend, profile, tier, level)
    }
}

fn set_configuration_defaults(
    answer: &mut Answer,
    config: &mut CodecConfig,
) -> Result<(), AllocError> {
    *config = CodecConfig::new_with_defaults(answer.alloc())?;
    Ok(())
}

fn call(answer: &mut Answer, config: &mut CodecConfig, text: &str) -> Result<(), AllocError> {
    let (name, rest) = listed_word(text);
    match name {
        "defaults" => set_configuration_defaults(answer, config),
        "enable" => enable_codec(answer, config, rest, true),
        "disable" => enable_codec(answer, config, rest, false),
        "add" => configure_row(answer, config, rest),
        "h264" => configure_h264(answer, config, rest),
        "h265" => configure_triple(answer, config, rest, false),
        "h266" => configure_triple(answer, config, rest, true),
        _ => {
            clear_configuration(answer, config, name);
            Ok(())
        }
    }
}

/// The call that wants no memory.
fn clear_configuration(answer: &mut Answer, config: &mut CodecConfig, name: &str) {
    match name {
        "clear" => config.clear(),
        _ => answer.no_such("call"),
    }
}

/// Whether two configurations have the same rows, locked in the same places, and distances.
pub fn is_same_configuration(one: &CodecConfig, other: &CodecConfig) -> bool {
    let is_locked_alike = one
        .params()
        .iter()
        .zip(other.params())
        .all(|(a, b)| a.locked() == b.locked());
    is_locked_alike
        && one.params() == other.params()
        && one.red_distances() == other.red_distances()
}

/// A copy of the configuration.
pub(crate) fn copy_of_configuration(answer: &mut Answer, config: &CodecConfig) -> CodecConfig {
    let none = CodecConfig::empty(answer.alloc());
    answer.kept(config.clone(), none)
}

/// The configuration that the calls make of an empty one.
pub(crate) fn made_configuration(answer: &mut Answer, calls: &str) -> CodecConfig {
    let mut config = CodecConfig::empty(answer.alloc());
    for one in calls.split(", ") {
        call_unless_refused(answer, &mut config, one);
    }
    config
}

fn call_unless_refused(answer: &mut Answer, config: &mut CodecConfig, text: &str) {
    let before = copy_of_configuration(answer, config);
    if !answer.is_refused() && call(answer, config, text).is_err() {
        answer.refuse_if(is_same_configuration(config, &before));
    }
}

/// The configuration of these rows, or after `calls` of those calls.
pub(crate) fn config_of(answer: &mut Answer, text: &str) -> CodecConfig {
    match text.strip_prefix("calls ") {
        Some(calls) => made_configuration(answer, calls),
        None => {
            let rows = rows_of(answer, text);
            CodecConfig::new_from_payload_params(answer.alloc(), rows)
        }
    }
}

/// The configuration that a case names by rows or calls; it answers `no such configuration` where it names none.
pub fn configuration(answer: &mut Answer, text: &str) -> CodecConfig {
    let mut calls = Answer::new(answer.alloc());
    let config = config_of(&mut calls, text);
    if calls.is_settled() {
        answer.no_such("configuration");
    }
    if calls.is_refused() {
        answer.refuse();
    }
    config
}
