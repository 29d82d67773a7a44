//! Calls that make, change and free configurations.

ghost use Rattle.c_calls.specs.Common.{OfHandle};
ghost use Rattle.c_calls.specs.ConfigCalls.{HasNoDefaultRows, IsRowAdded, IsEnabledInConfig, IsNoConfigRow, default_rows_of};
ghost use Rattle.c_calls.specs.Prelude.{IsFormatOfLine, IsRoomFull, row_codec_numbered, enabled_rows, usual_rows};
ghost use Rattle.c_calls.specs.Told.{done, no_memory, no_utf8, wrong_argument};
ghost use Rattle.std.specs.Prelude.{◌≡◌, ◌≢◌, ◌↔◌, ◌⊎◌, [], IfErr, IfNone, IfOk, IfSome, None, OnErr, OnOk, Some, IsUtf8};

use crate::said::{DONE, NO_MEMORY, NO_UTF8, WRONG_ARGUMENT};
use c_parts::config_handle::ConfigHandle;
use c_parts::row::{row_codec_numbered, row_number_unless};
use std::alloc::{AllocError, Global};
use std::str;
use str0m_signal::{Codec, CodecConfig, FormatParams, Frequency, Pt};

fn give_config(alloc: Global, handle: &mut ConfigHandle, config: CodecConfig) -> u32
    requires { handle.old.inner ≡ None }
    ensures made { result ≡ done → OfHandle handle.new.inner (λ given. given ≡ config) }
    ensures empty { result ≢ done → handle.new.inner ≡ None }
    ensures refused { result ≢ done → result ≡ no_memory }
{
    match Box::new(alloc, config) {
        Ok(owned) => {
            handle.put(owned);
            DONE
        }
        Err(_) => NO_MEMORY,
    }
}

/// Gives an empty handle the configuration with the default rows.
#[unsafe(no_mangle)]
pub extern "C" fn zaxp_config_defaults(alloc: Global, handle: &mut ConfigHandle) -> u32
    requires { handle.old.inner ≡ None }
    ensures made { result ≡ done → OfHandle handle.new.inner (λ config. config.params.items ≡ usual_rows) }
    ensures empty { result ≢ done → handle.new.inner ≡ None }
    ensures refused { result ≢ done → result ≡ no_memory }
{
    match CodecConfig::new_with_defaults(alloc) {
        Ok(config) => give_config(alloc, handle, config),
        Err(_) => NO_MEMORY,
    }
}

/// Gives an empty handle a configuration without rows.
#[unsafe(no_mangle)]
pub extern "C" fn zaxp_config_empty(alloc: Global, handle: &mut ConfigHandle) -> u32
    requires { handle.old.inner ≡ None }
    ensures made { result ≡ done → OfHandle handle.new.inner (λ config. config.params.items ≡ []) }
    ensures empty { result ≢ done → handle.new.inner ≡ None }
    ensures refused { result ≢ done → result ≡ no_memory }
{
    give_config(alloc, handle, CodecConfig::empty(alloc))
}

/// Takes out the rows of a codec and, where it is enabled, puts its default rows last; `None` where it has none.
fn enable_config(
    config: &mut CodecConfig,
    codec: Codec,
    enabled: bool,
    use_red: bool,
) -> Option<Result<(), AllocError>>
    ensures ok { IfSome result (λ tried. OnOk tried (config.new.params.items ≡ enabled_rows codec enabled use_red config.old.params.items)) }
    ensures err { IfSome result (λ tried. OnErr tried (config.new ≡ config.old)) }
    ensures some { IfSome result (λ _. default_rows_of codec ≢ []) }
    ensures distances { config.new.red_distances ≡ config.old.red_distances }
    ensures none { IfNone result ((config.new ≡ config.old) × (default_rows_of codec ≡ [])) }
{
    Some(match codec {
        Codec::Opus => config.enable_opus(enabled, use_red),
        Codec::PCMU => config.enable_pcmu(enabled, use_red),
        Codec::PCMA => config.enable_pcma(enabled, use_red),
        Codec::G722 => config.enable_g722(enabled, use_red),
        Codec::CN => config.enable_comfort_noise(enabled),
        Codec::AmrWb => config.enable_amr_wb(enabled),
        Codec::Vp8 => config.enable_vp8(enabled),
        Codec::H264 => config.enable_h264(enabled),
        Codec::H265 => config.enable_h265(enabled),
        Codec::H266 => config.enable_h266(enabled),
        Codec::Vp9 => config.enable_vp9(enabled),
        Codec::Av1 => config.enable_av1(enabled),
        _ => return None,
    })
}

fn enable_config_at(config: &mut CodecConfig, number: u8, enabled: bool, use_red: bool) -> u32
    ensures done { result ≡ done → IsEnabledInConfig number enabled use_red config.old config.new }
    ensures same { result ≢ done → config.new ≡ config.old }
    ensures wrong { (result ≡ wrong_argument) ↔ HasNoDefaultRows number }
{
    let Some(codec) = row_codec_numbered(number) else {
        return WRONG_ARGUMENT;
    };
    match enable_config(config, codec, enabled, use_red) {
        Some(Ok(())) => DONE,
        Some(Err(_)) => NO_MEMORY,
        None => WRONG_ARGUMENT,
    }
}

/// Takes out the rows of a codec and, where it is enabled, puts its default rows last, with RED where `use_red` asks for it.
#[unsafe(no_mangle)]
pub extern "C" fn zaxp_config_enable(
    alloc: Global,
    handle: &mut ConfigHandle,
    codec: u8,
    enabled: bool,
    use_red: bool,
) -> u32
    requires { IsRoomFull handle.old.inner }
    ensures done { result ≡ done → OfHandle handle.old.inner (λ before. OfHandle handle.new.inner (IsEnabledInConfig codec enabled use_red before)) }
    ensures same { result ≢ done → handle.new.inner ≡ handle.old.inner }
    ensures wrong { (result ≡ wrong_argument) ↔ HasNoDefaultRows codec }
{
    let mut config = handle.take(alloc);
    let code = enable_config_at(&mut config, codec, enabled, use_red);
    handle.put(config);
    code
}

/// The codec and the clock rate of a row; `None` where there is none of either.
fn config_row_kind(codec: u8, clock_rate: u32) -> Option<(Codec, Frequency)>
    ensures some { IfSome result (λ kind. (row_codec_numbered codec ≡ Some kind.0) × (kind.1 ≡ clock_rate) × (IsNoConfigRow codec clock_rate → ⊥)) }
    ensures none { IfNone result (IsNoConfigRow codec clock_rate) }
{
    let codec = row_codec_numbered(codec)?;
    let clock_rate = Frequency::new(clock_rate)?;
    Some((codec, clock_rate))
}

/// The format that an fmtp line says, or the status of a text that isn't UTF-8 or for which memory is refused.
fn config_row_format(alloc: Global, line: &[u8]) -> Result<FormatParams, u32>
    ensures ok { IfOk result (IsFormatOfLine line.now) }
    ensures err { IfErr result (λ code. ((code ≡ no_utf8) × (IsUtf8 line.now → ⊥)) ⊎ (code ≡ no_memory)) }
{
    match str::from_utf8(line) {
        Ok(line) => FormatParams::parse_line(alloc, line).map_err(|_| NO_MEMORY),
        Err(_) => Err(NO_UTF8),
    }
}

/// Adds a row at the end: with the feedback of a new row, without RED, not locked.
#[unsafe(no_mangle)]
pub extern "C" fn zaxp_config_add(
    alloc: Global,
    handle: &mut ConfigHandle,
    pt: u8,
    rtx: u8,
    codec: u8,
    clock_rate: u32,
    channels: u8,
    format: &[u8],
) -> u32
    requires { IsRoomFull handle.old.inner }
    ensures done { result ≡ done → OfHandle handle.old.inner (λ before. OfHandle handle.new.inner (IsRowAdded pt rtx (codec, clock_rate, channels) format.now before)) }
    ensures same { result ≢ done → handle.new.inner ≡ handle.old.inner }
    ensures wrong { (result ≡ wrong_argument) ↔ IsNoConfigRow codec clock_rate }
    ensures no_text { result ≡ no_utf8 → IsUtf8 format.now → ⊥ }
{
    let Some((codec, clock_rate)) = config_row_kind(codec, clock_rate) else {
        return WRONG_ARGUMENT;
    };
    let format = match config_row_format(alloc, format) {
        Ok(format) => format,
        Err(code) => return code,
    };
    let mut config = handle.take(alloc);
    let (pt, resend) = (Pt::from(pt), row_number_unless(255, rtx).map(Pt::from));
    let added = config.add_config(
        pt,
        resend,
        codec,
        clock_rate,
        row_number_unless(0, channels),
        format,
    );
    handle.put(config);
    match added {
        Ok(()) => DONE,
        Err(_) => NO_MEMORY,
    }
}

/// Frees the configuration; the handle is empty then.
#[unsafe(no_mangle)]
pub extern "C" fn zaxp_config_free(alloc: Global, handle: &mut ConfigHandle)
    requires { IsRoomFull handle.old.inner }
    ensures { handle.new.inner ≡ None }
{
    drop(handle.take(alloc));
}
