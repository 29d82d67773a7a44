//! Fourteen rows, of three types each, against remote rows that demand each payload type in turn. So many rows never exhaust
//! the types, and a type of a locked row never gets a second role (docs/ROUNDS.md).

use crate::rows::{ROW_DIRECTIONS, row_of_opus};
use std::alloc::{AllocError, Global};
use std::test::Fail;
use str0m_formats::{CodecConfig, NegotiationError, PayloadParams};
use str0m_values::{Direction, Pt};

/// A row of its own spec at three types that follow each other; after 127 stands 0. Rows with one channel more begin so many
/// types after each other as the step says.
fn row(channels: u8, first: u8, step: u8) -> PayloadParams {
    let pt = first.wrapping_add(channels.wrapping_mul(step));
    let (resend, red) = (pt.wrapping_add(1), pt.wrapping_add(2));
    row_of_opus(channels, (pt % 128, Some(resend % 128), Some(red % 128)))
}

/// Fourteen rows at 83 to 124, each of its own spec.
fn fourteen(alloc: Global) -> Result<CodecConfig, AllocError> {
    let mut rows = Vec::new(alloc);
    for channels in 1_u8..15 {
        rows.extend_from_slice(&[row(channels, 80, 3)])?;
    }
    Ok(CodecConfig::new_from_payload_params(alloc, rows))
}

fn types_of_row(row: &PayloadParams) -> [Option<Pt>; 3] {
    [Some(row.pt()), row.resend(), row.red()]
}

/// In how many roles the type stands.
fn roles_in_rows(rows: &[PayloadParams], pt: Pt) -> usize {
    let mut count: usize = 0;
    for row in rows {
        let of_row = types_of_row(row)
            .iter()
            .filter(|it| **it == Some(pt))
            .count();
        count = count.saturating_add(of_row);
    }
    count
}

/// Whether each type of the row stands in one role alone.
fn is_row_alone(rows: &[PayloadParams], row: &PayloadParams) -> bool {
    types_of_row(row).iter().all(|it| match it {
        None => true,
        Some(pt) => roles_in_rows(rows, *pt) == 1,
    })
}

/// Runs a round: it is accepted, and then no type of a locked row has a second role; or the remote receives, and a type is
/// claimed twice.
fn is_row_held(config: &mut CodecConfig, remote: PayloadParams, direction: Direction) -> bool {
    match config.update_params(&[remote], direction) {
        Ok(()) => {
            let rows = config.params();
            rows.iter()
                .all(|row| !row.locked() || is_row_alone(rows, row))
        }
        Err(NegotiationError::ClaimedTwice(_)) => direction.sdp_is_receiving(),
        Err(_) => false,
    }
}

/// Fourteen rounds one after another, each of which demands three types for one of the rows. In the end all rows are locked,
/// but where the remote receives and two rounds demanded one type.
fn are_fourteen_held(
    alloc: Global,
    first: u8,
    step: u8,
    direction: Direction,
) -> Result<bool, AllocError> {
    let mut config = fourteen(alloc)?;
    let mut all = true;
    for channels in 1_u8..15 {
        all = is_row_held(&mut config, row(channels, first, step), direction) && all;
    }
    let are_locked = config.params().iter().all(|row| row.locked());
    Ok(all && (are_locked || (step < 3 && direction.sdp_is_receiving())))
}

/// 128 rounds one after another, each for the next of the rows, whose types begin at each of the 128 in turn: the first that isn't
/// held.
fn first_row_not_held(config: &mut CodecConfig, direction: Direction) -> Option<u8> {
    for first in 0_u8..128 {
        let channels = first % 14 + 1;
        if !is_row_held(config, row(channels, first, 0), direction) {
            return Some(first);
        }
    }
    None
}

/// The first of those rounds that isn't held, and whether all rows are locked then. In the first forty rounds each row meets a
/// remote row whose types no locked row has.
fn fourteen_meet_every_type(
    alloc: Global,
    direction: Direction,
) -> Result<(Option<u8>, bool), AllocError> {
    let mut config = fourteen(alloc)?;
    let not_held = first_row_not_held(&mut config, direction);
    let are_locked = config.params().iter().all(|row| row.locked());
    Ok((not_held, are_locked))
}

/// The rounds begin at each of the 128 types, and in turn demand types that are none, one, two or three apart: where the first that
/// aren't held begin.
fn first_fourteen_not_held(alloc: Global, direction: Direction) -> Result<Option<u8>, AllocError> {
    for first in 0_u8..128 {
        if !are_fourteen_held(alloc, first, first % 4, direction)? {
            return Ok(Some(first));
        }
    }
    Ok(None)
}

#[test]
fn fourteen_rows_are_never_exhausted(rt: HostRuntime) -> Result<(), Fail> {
    for direction in &ROW_DIRECTIONS {
        let met = fourteen_meet_every_type(rt.alloc(), *direction)?;
        assert_eq!(rt; met, (None, true), "{direction:?}");
        let exhausted = first_fourteen_not_held(rt.alloc(), *direction)?;
        assert_eq!(rt; exhausted, None, "{direction:?}");
    }
    Ok(())
}
