//! Rows that tests make and ask, and how a configuration finds one.

use std::alloc::{AllocError, Global};
use std::test::Fail;
use str0m_formats::{Codec, CodecConfig, CodecSpec, FormatParams, PayloadParams};
use str0m_values::{Direction, Frequency, Pt};

/// The types of a row: primary, RTX, RED.
pub(crate) type TypesOfRow = (u8, Option<u8>, Option<u8>);

/// What a side may describe.
pub(crate) static ROW_DIRECTIONS: [Direction; 4] = [
    Direction::SendRecv,
    Direction::SendOnly,
    Direction::RecvOnly,
    Direction::Inactive,
];

fn row_type_of(number: Option<u8>) -> Option<Pt> {
    match number {
        None => None,
        Some(number) => Some(Pt::from(number)),
    }
}

/// A row without a format.
pub(crate) fn row_of(
    codec: Codec,
    clock_rate: Frequency,
    channels: Option<u8>,
    (pt, resend, red): TypesOfRow,
) -> PayloadParams {
    let spec = CodecSpec {
        codec,
        clock_rate,
        channels,
        format: FormatParams::default(),
    };
    PayloadParams::new(Pt::from(pt), row_type_of(resend), spec).with_red(row_type_of(red))
}

/// Opus with so many channels: rows with other channels don't match it.
pub(crate) fn row_of_opus(channels: u8, types: TypesOfRow) -> PayloadParams {
    row_of(
        Codec::Opus,
        Frequency::FORTY_EIGHT_KHZ,
        Some(channels),
        types,
    )
}

/// How many rows are locked.
pub(crate) fn locked_row_count(rows: &[PayloadParams]) -> usize {
    rows.iter().filter(|row| row.locked()).count()
}

/// Whether the one row is that of Opus under type 109.
pub(crate) fn is_row_of_opus_at_109(rows: &[PayloadParams]) -> bool {
    match rows {
        [row] => row.pt() == Pt::from(109) && row.spec().codec == Codec::Opus,
        _ => false,
    }
}

/// How many rows are asked before the first that carries video is found, and its type.
fn rows_asked(alloc: Global) -> Result<(usize, Option<u8>), AllocError> {
    let config = CodecConfig::new_with_defaults(alloc)?;
    let mut count: usize = 0;
    let found = config.find(|row| {
        count = count.saturating_add(1);
        row.spec().codec.is_video()
    });
    let pt = found.map(|row| row.pt().value());
    Ok((count, pt))
}

#[test]
fn no_row_is_asked_after_the_first_accepted_one(rt: HostRuntime) -> Result<(), Fail> {
    let found = rows_asked(rt.alloc())?;
    assert_eq!(rt; found, (2, Some(96)));
    Ok(())
}
