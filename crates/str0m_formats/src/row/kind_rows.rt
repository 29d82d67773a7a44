//! The rows of a kind of media.
ghost use Rattle.std.specs.Iterator.{YieldsFirstRef, item_count};
ghost use Rattle.std.specs.Prelude.{◌≡◌};
ghost use Rattle.str0m_formats.specs.row.KindRows.{is_audio, is_events, row_rtp_rate, row_shares_rate, some_row_shares_rate, is_in_kind};

use crate::row::payload_params::PayloadParams;
use str0m_values::MediaKind;

/// The rows that stand in sections of a kind, in order.
#[derive(Debug, Drop)]
pub struct KindRows<'a> {
    pub(crate) all: &'a [PayloadParams],
    /// Those of them that are still to be looked at.
    pub(crate) rest: &'a [PayloadParams],
    pub(crate) kind: MediaKind,
    /// Whether telephone events are left out where no audio has their rate.
    pub(crate) narrowed: bool,
}

fn is_audio(row: &PayloadParams) -> bool
    ensures { result ≡ is_audio row.now }
{
    row.spec().codec.is_audio()
}

fn is_events(row: &PayloadParams) -> bool
    ensures { result ≡ is_events row.now }
{
    row.spec().codec.is_tele()
}

fn row_rtp_rate(row: &PayloadParams) -> u32
    ensures { result ≡ row_rtp_rate row.now }
{
    row.spec().rtp_clock_rate().get()
}

/// Whether some audio row has the RTP clock rate of this one.
fn row_shares_rate(rows: &[PayloadParams], row: &PayloadParams) -> bool
    ensures { result ≡ row_shares_rate rows.now row.now }
{
    rows.iter().any(|other| is_audio(other) && row_rtp_rate(other) == row_rtp_rate(row))
}

/// Whether some row of events has the RTP clock rate of some audio row.
pub(crate) fn some_row_shares_rate(rows: &[PayloadParams]) -> bool
    ensures { result ≡ some_row_shares_rate rows.now }
{
    rows.iter()
        .any(|row| is_events(row) && row_shares_rate(rows, row))
}

fn is_in_kind(kind: MediaKind, narrowed: bool, rows: &[PayloadParams], row: &PayloadParams) -> bool
    ensures { result ≡ is_in_kind kind narrowed rows.now row.now }
{
    match kind {
        MediaKind::Video => row.spec().codec.is_video(),
        MediaKind::Audio => {
            is_audio(row) || (is_events(row) && (!narrowed || row_shares_rate(rows, row)))
        }
    }
}

impl<'a> Iterator for KindRows<'a> {
    ghost use Rattle.str0m_formats.specs.row.KindRows.{rows_left};

    type Item = &'a PayloadParams;

    ghost next_gives = { YieldsFirstRef rows_left };

    ghost remaining = { item_count rows_left };

    fn next(&mut self) -> Option<&'a PayloadParams> {
        while let Some((first, rest)) = self.rest.split_first() {
            self.rest = rest;
            if is_in_kind(self.kind, self.narrowed, self.all, first) {
                return Some(first);
            }
        }
        None
    }
}
