//! Rounds that no text writes: a locked row that stands twice, hundreds of rows. Expected values were worked out by hand
//! from the rules of docs/ROUNDS.md.

use crate::rows::{ROW_DIRECTIONS, locked_row_count, row_of, row_of_opus};
use std::alloc::{AllocError, Global};
use std::test::Fail;
use str0m_formats::{Codec, CodecConfig, CodecSpec, FormatParams, PayloadParams};
use str0m_values::{Direction, Frequency, Pt};

/// VP8 at 110 with its RTX at 111.
fn vp8_for_round() -> PayloadParams {
    let types = (110, Some(111), None);
    row_of(Codec::Vp8, Frequency::NINETY_KHZ, None, types)
}

/// H264 at 96 with its RTX at 97, in packetization mode 1.
fn h264_for_round() -> PayloadParams {
    let spec = CodecSpec {
        codec: Codec::H264,
        clock_rate: Frequency::NINETY_KHZ,
        channels: None,
        format: FormatParams {
            packetization_mode: Some(1),
            ..FormatParams::default()
        },
    };
    PayloadParams::new(Pt::from(96), Some(Pt::from(97)), spec)
}

/// Whether two configurations have the same rows, locked in the same places.
fn is_same_after_rounds(one: &CodecConfig, other: &CodecConfig) -> bool {
    let mut pairs = one.params().iter().zip(other.params());
    one.params() == other.params() && pairs.all(|(a, b)| a.locked() == b.locked())
}

/// What a round answers: `ok`, or the text of its cause. A round with the other table of claims has to come to the same.
fn round(
    alloc: Global,
    config: &mut CodecConfig,
    remote: &[PayloadParams],
    direction: Direction,
) -> Result<String, AllocError> {
    let mut other = config.clone()?;
    let in_table = other.update_params_in::<[bool; 128]>(remote, direction);
    let outcome = config.update_params(remote, direction);
    if outcome != in_table || !is_same_after_rounds(config, &other) {
        return "two tables of claims differ".to_string(alloc);
    }
    match outcome {
        Ok(()) => "ok".to_string(alloc),
        Err(cause) => cause.to_string(alloc),
    }
}

/// A configuration in which a row of H264 that a round has locked stands twice.
fn doubled_rows_for_round(alloc: Global) -> Result<CodecConfig, AllocError> {
    let rows = Vec::from_slice(alloc, &[h264_for_round(), vp8_for_round()])?;
    let mut config = CodecConfig::new_from_payload_params(alloc, rows);
    let _ = round(alloc, &mut config, &[h264_for_round()], Direction::RecvOnly)?;
    let locked = config.params().first().copied();
    match (locked, config.last_mut()) {
        (Some(locked), Some(last)) => *last = locked,
        _ => {}
    }
    Ok(config)
}

/// Whether the row is locked at 96 with its RTX at 97 and without RED.
fn is_as_round_locked(row: &PayloadParams) -> bool {
    row.locked()
        && row.pt() == Pt::from(96)
        && row.resend() == Some(Pt::from(97))
        && row.red().is_none()
}

/// Whether these are two rows that are as they were locked.
fn are_as_round_locked(rows: &[PayloadParams]) -> bool {
    rows.len() == 2 && rows.iter().all(|row| is_as_round_locked(row))
}

/// Whether the round is refused for the type, and all stays as it was locked.
fn is_round_refused(
    alloc: Global,
    config: &mut CodecConfig,
    direction: Direction,
) -> Result<bool, AllocError> {
    let found = round(alloc, config, &[], direction)?;
    Ok(found.as_str() == "payload type 96 is claimed twice" && are_as_round_locked(config.params()))
}

#[test]
fn a_locked_type_that_stands_twice_refuses_every_round(rt: HostRuntime) -> Result<(), Fail> {
    let mut config = doubled_rows_for_round(rt.alloc())?;
    for direction in &ROW_DIRECTIONS {
        let is_round_refused = is_round_refused(rt.alloc(), &mut config, *direction)?;
        assert!(rt; is_round_refused, "{direction:?}");
    }
    Ok(())
}

/// So many rows that nothing matches, each at 96, and then a row of Opus.
fn many_rows_for_round(
    alloc: Global,
    count: usize,
    codec: Codec,
) -> Result<Vec<PayloadParams>, AllocError> {
    let mut rows = Vec::new(alloc);
    for _ in 0..count {
        let one = row_of(codec, Frequency::EIGHT_KHZ, None, (96, None, None));
        rows.extend_from_slice(&[one])?;
    }
    rows.extend_from_slice(&[row_of_opus(2, (111, None, None))])?;
    Ok(rows)
}

/// Whether the last row is locked, and no other.
fn is_last_locked_in_round(rows: &[PayloadParams]) -> bool {
    locked_row_count(rows) == 1 && rows.last().is_some_and(|row| row.locked())
}

/// The configuration of 499 rows that nothing matches and a row of Opus.
fn five_hundred_rows_for_round(alloc: Global) -> Result<CodecConfig, AllocError> {
    let own = many_rows_for_round(alloc, 499, Codec::PCMU)?;
    Ok(CodecConfig::new_from_payload_params(alloc, own))
}

/// Whether the last row of each side meets the other, and no other does.
fn do_last_rows_meet_in_round(alloc: Global) -> Result<bool, AllocError> {
    let mut config = five_hundred_rows_for_round(alloc)?;
    let remote = many_rows_for_round(alloc, 499, Codec::PCMA)?;
    let found = round(alloc, &mut config, remote.as_slice(), Direction::RecvOnly)?;
    Ok(found.as_str() == "ok" && is_last_locked_in_round(config.params()))
}

/// A round has no limit but memory: 500 rows on both sides, of which the last ones match.
#[test]
fn five_hundred_rows_meet_five_hundred(rt: HostRuntime) -> Result<(), Fail> {
    assert!(rt; do_last_rows_meet_in_round(rt.alloc())?);
    Ok(())
}
