//! Plain rows: those that the lines of a section say whole.
ghost use Rattle.std.specs.Prelude.{◌≡◌, ◌↔◌, IsTrue, None};
ghost use Rattle.str0m_formats.specs.declared.codec.Codec.TheVariants.{G722};
ghost use Rattle.str0m_formats.specs.row.PlainRow.{IsPlain, IsPlainG722, HasVideoFeedback, HasPlainTriples, SaysEventsAlone};
ghost use Rattle.str0m_formats.specs.row.PlainRowBounds.{IsBounded};

use crate::codec::Codec;
use crate::codec::codec_spec::CodecSpec;
use crate::format::format_params::FormatParams;
use crate::round::beginning::first_large_claim_of;
use crate::row::payload_params::PayloadParams;

impl PayloadParams {
    /// Whether the row is plain: the lines of a section say all of it, so that a section made of such rows describes
    /// them again.
    ///
    /// - The codec carries audio, video or telephone events, and all types are at most 127 (RFC 3550, section 5.1).
    /// - G722 has 16000 Hz and channels other than `Some(1)` (RFC 3551, section 4.5.2).
    /// - A video codec has NACK, PLI, FIR and REMB on (RFC 4585, section 4.2; RFC 5104, section 7.1).
    /// - RED stands under an audio codec alone (RFC 2198, section 5).
    /// - Telephone events have a maximum and say nothing else (RFC 4733, section 2.4.1); other codecs have no maximum.
    /// - A profile, tier and level stands under its own codec alone, and without `profile_id` (RFC 7798, section 7.1;
    ///   RFC 9328, section 7.2).
    /// - `mode_set` is absent or 1 to 511 (RFC 4867, section 8.2), `sprop_max_don_diff` absent or at most 32767 (RFC 7798,
    ///   section 7.1).
    pub fn is_plain(&self) -> bool
        ensures { IsTrue result ↔ IsPlain self.now }
    {
        let codec = self.spec.codec;
        is_plain_bounded(self)
            && has_plain_triples(self.spec)
            && if codec.is_audio() {
                is_plain_audio(self.spec)
            } else if codec.is_video() {
                is_plain_video(self)
            } else {
                codec.is_tele() && self.red.is_none() && says_events_alone(self.spec.format)
            }
    }
}

/// Whether the types have seven bits, and the modes and the distance keep to their ranges.
fn is_plain_bounded(row: &PayloadParams) -> bool
    ensures { IsTrue result ↔ IsBounded row.now }
{
    let format = row.spec.format;
    first_large_claim_of(row).is_none()
        && format
            .mode_set
            .is_none_or(|modes| 0 < modes && modes <= 511)
        && format
            .sprop_max_don_diff
            .is_none_or(|distance| distance <= 32767)
}

/// Whether a profile, tier and level stands under its own codec alone, and without a profile beside it.
fn has_plain_triples(spec: CodecSpec) -> bool
    ensures { IsTrue result ↔ HasPlainTriples spec }
{
    let format = spec.format;
    let is_alone = format.profile_id.is_none();
    (format.h265_profile_tier_level.is_none() || spec.codec == Codec::H265 && is_alone)
        && (format.h266_profile_tier_level.is_none() || spec.codec == Codec::H266 && is_alone)
}

/// Whether an audio codec has no maximum of events and, if it is G722, its rate and channels.
fn is_plain_audio(spec: CodecSpec) -> bool
    ensures { IsTrue result ↔ (spec.format.telephone_event_max ≡ None) × (spec.codec ≡ G722 → IsPlainG722 spec) }
{
    spec.format.telephone_event_max.is_none()
        && (spec.codec != Codec::G722
            || spec.clock_rate.get() == 16_000 && spec.channels != Some(1))
}

/// Whether a video codec has the feedback of video, no RED and no maximum of events.
fn is_plain_video(row: &PayloadParams) -> bool
    ensures { IsTrue result ↔ (row.now.red ≡ None) × (row.now.spec.format.telephone_event_max ≡ None) × HasVideoFeedback row.now }
{
    row.red.is_none()
        && row.spec.format.telephone_event_max.is_none()
        && row.fb_nack
        && row.fb_pli
        && row.fb_fir
        && row.fb_remb
}

/// Whether a format has a maximum of events and says nothing else.
#[tactic(auto, using(crate::proofs::format::FormatParamsEqual::format_Decides))]
fn says_events_alone(format: FormatParams) -> bool
    ensures { IsTrue result ↔ SaysEventsAlone format }
{
    match format.telephone_event_max {
        None => false,
        Some(last) => {
            let alone = FormatParams {
                telephone_event_max: Some(last),
                ..FormatParams::default()
            };
            format == alone
        }
    }
}
