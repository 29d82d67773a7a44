//! The codecs that the options name.

use clap::ArgMatches;
use std::alloc::{AllocError, Global};
use str0m_signal::CodecConfig;

/// Adds the default rows of a codec.
fn enable_named_codec(config: &mut CodecConfig, name: &str) -> Result<(), AllocError> {
    match name {
        "opus" => config.enable_opus(true, false),
        "pcmu" => config.enable_pcmu(true, false),
        "pcma" => config.enable_pcma(true, false),
        "g722" => config.enable_g722(true, false),
        "cn" => config.enable_comfort_noise(true),
        "amr-wb" => config.enable_amr_wb(true),
        "vp8" => config.enable_vp8(true),
        "vp9" => config.enable_vp9(true),
        "av1" => config.enable_av1(true),
        "h264" => config.enable_h264(true),
        "h265" => config.enable_h265(true),
        "h266" => config.enable_h266(true),
        _ => Ok(()),
    }
}

/// The configuration of the codecs that are named, in order; the default one where none is.
pub(crate) fn configured_codecs(
    alloc: Global,
    matches: &ArgMatches<'_>,
) -> Result<CodecConfig, AllocError> {
    let Some(names) = matches.get_strs("codec") else {
        return CodecConfig::new_with_defaults(alloc);
    };
    let mut config = CodecConfig::empty(alloc);
    for name in names {
        enable_named_codec(&mut config, name)?;
    }
    Ok(config)
}
