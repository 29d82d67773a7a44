//! The rows that a section describes.
ghost use Rattle.std.specs.Prelude.{◌≡◌, ◌<◌, ◌++◌, [], All, IfOk, OnOk, map, option_to_list};
ghost use Rattle.str0m_sdp.specs.Prelude.{IsBounded, codec_content, format_of_fmtp, has_events, row_content_has_video, row_content_has_audio};
ghost use Rattle.str0m_sdp.specs.declared.section.media_line.MediaLine.{MediaLine};
ghost use Rattle.str0m_sdp.specs.section.Mappings.{codec_of_type};
ghost use Rattle.str0m_sdp.specs.section.SectionRows.{KeepsToRowLines, fmtps_of, is_kept, row, rows};

use crate::attribute::MediaAttribute;
use crate::attribute::feedback::{Feedback, note_feedback};
use crate::section::companions::note_companion_line;
use crate::section::known_formats::{format_of, groups_of};
use crate::section::mappings::{MappedType, mapped_types, mappings, push_static_mapping, types_of};
use crate::section::media_line::MediaLine;
use crate::section::type_tables::{TYPES, TypeTable, place, types_in};
use std::alloc::{AllocError, Global};
use str0m_formats::{Codec, CodecSpec, FormatParam, FormatParams, PayloadParams};
use str0m_values::Pt;

/// What a section says of each payload type.
#[derive(Drop)]
struct TypeFacts {
    /// The types of retransmissions and of redundant audio.
    rtx: TypeTable,
    red: TypeTable,
    /// Whether the type stands in the m-line.
    in_m_line: [bool; TYPES],
    feedback: [Feedback; TYPES],
}

impl TypeFacts {
    ghost use Rattle.str0m_sdp.specs.section.SectionRowsFacts.{row_of, RowTablesSayOf, RowTablesAreOf};

    /// Gathers in one pass what the attributes say of each type: the fmtp lines (RFC 8866, section 6.15), each beside the number
    /// of its type, and in the tables what these and the rtcp-fb lines name. A table is changed where it stands, since to hand
    /// one on takes longer than to fill it.
    fn gather<'a>(
        &mut self,
        alloc: Global,
        attrs: &'a [MediaAttribute],
        types: &[MappedType],
    ) -> Result<Vec<(u8, &'a [FormatParam])>, AllocError>
        requires { RowTablesAreOf (map codec_of_type types.now) [] self.old [] }
        ensures words { IfOk result (λ lines. RowTablesAreOf (map codec_of_type types.now) attrs.now self.new lines.items) }
        ensures in_m_line { self.new.in_m_line ≡ self.old.in_m_line }
    {
        let mut lines = Vec::with_capacity(alloc, types.len())?;
        let rtx_types = types_of(types, Codec::Rtx);
        let red_types = types_of(types, Codec::Red);
        for attr in attrs {
            match attr {
                MediaAttribute::Fmtp { pt, values } => {
                    let values = values.as_slice();
                    note_companion_line(&mut self.rtx, Codec::Rtx, &rtx_types, *pt, values);
                    note_companion_line(&mut self.red, Codec::Red, &red_types, *pt, values);
                    lines.push((pt.value(), values))?;
                }
                MediaAttribute::RtcpFb { pt, value } => {
                    note_feedback(&mut self.feedback, *pt, value.as_str());
                }
                _ => {}
            }
        }
        Ok(lines)
    }

    /// The row of a type.
    fn row_of(&self, pt: Pt, spec: CodecSpec) -> PayloadParams
        ensures row { result ≡ row_of self.now pt spec }
        ensures within { pt < 256 }
    {
        let red = if is_row_audio(spec.codec) {
            self.red.get(pt)
        } else {
            None
        };
        let params = PayloadParams::new(pt, self.rtx.get(pt), spec).with_red(red);
        self.feedback[place(pt)].switched_on(params)
    }

    /// Whether the type has a row.
    fn is_kept(&self, mapped: &MappedType) -> bool
        ensures { (m : MediaLine) → RowTablesSayOf m self.now → result ≡ is_kept m (codec_of_type mapped.now) }
    {
        let codec = mapped.codec;
        is_row_audio(codec)
            || is_row_video(codec)
            || (is_row_events(codec) && self.in_m_line[place(mapped.pt)])
    }

    /// One more row, where the type has one, by what its fmtp lines say of the codec.
    fn push_row(
        &self,
        rows: &mut Vec<PayloadParams>,
        format: Option<FormatParams>,
        mapped: &MappedType,
    ) -> Result<(), AllocError>
        ensures { (m : MediaLine) → RowTablesSayOf m self.now → format ≡ format_of_fmtp mapped.now.codec (fmtps_of m.attrs mapped.now.pt) →
            OnOk result (rows.new.items ≡ rows.old.items ++ option_to_list (row m (codec_of_type mapped.now))) }
    {
        match format {
            Some(format) => {
                // A push of a row isn't accepted above the crate that defines it; docs/DECISIONS.md
                // shows the message.
                rows.extend_from_slice(&[self.row_of(mapped.pt, mapped.spec(format))])
            }
            None => Ok(()),
        }
    }
}

fn is_row_audio(codec: Codec) -> bool
    ensures { result ≡ row_content_has_audio (codec_content codec) }
{
    codec.is_audio()
}

fn is_row_video(codec: Codec) -> bool
    ensures { result ≡ row_content_has_video (codec_content codec) }
{
    codec.is_video()
}

fn is_row_events(codec: Codec) -> bool
    ensures { result ≡ has_events (codec_content codec) }
{
    codec.is_tele()
}

impl MediaLine {
    ghost use Rattle.str0m_sdp.specs.section.Mappings.{mapped};

    /// The types with their codecs: that of each rtpmap line (RFC 8866, section 6.6), so that a
    /// type of many lines stands as many times, then the static types of the m-line that have no
    /// such line (RFC 3551, section 6), each of these once. The only error is that memory was
    /// refused.
    pub(crate) fn mapped(&self) -> Result<Vec<MappedType>, AllocError>
        ensures { IfOk result (λ types. map codec_of_type types.items ≡ mapped self.now) }
    {
        let attrs = self.attrs.as_slice();
        let mut mapped = mappings(*self.attrs.allocator(), attrs, self.pts.len().min(TYPES))?;
        let mut seen = mapped_types(mapped.as_slice());
        for pt in self.pts.as_slice() {
            let place = place(*pt);
            if !seen[place] {
                seen[place] = true;
                push_static_mapping(&mut mapped, *pt)?;
            }
        }
        Ok(mapped)
    }

    /// The rows of the section, by the mapped types.
    fn rows_of(&self, types: &[MappedType]) -> Result<Vec<PayloadParams>, AllocError>
        requires { map codec_of_type types.now ≡ mapped self.now }
        ensures rows { IfOk result (λ params. params.items ≡ rows self.now) }
        ensures bounded { KeepsToRowLines self.now → IfOk result (λ params. All IsBounded params.items) }
    {
        let alloc = *self.attrs.allocator();
        let mut words = TypeFacts {
            rtx: TypeTable::none(),
            red: TypeTable::none(),
            in_m_line: types_in(self.pts.as_slice()),
            feedback: [Feedback::none(); TYPES],
        };
        let lines = words.gather(alloc, self.attrs.as_slice(), types)?;
        let mut groups = groups_of(alloc, lines.as_slice())?;
        let mut found = Vec::new(alloc);
        let mut rows = Vec::with_capacity(alloc, types.len())?;
        for mapped in types {
            if words.is_kept(mapped) {
                let lines = lines.as_slice();
                let format = format_of(&mut groups, &mut found, lines, mapped.pt, mapped.codec)?;
                words.push_row(&mut rows, format, mapped)?;
            }
        }
        Ok(rows)
    }

    /// The rows that the section describes.
    ///
    /// Each rtpmap line of an audio or video codec gives a row, in order (RFC 8866, section 6.6),
    /// and one of telephone events where its type stands in the m-line; then each type of the m-line
    /// that needs no rtpmap line and has none (RFC 3551, section 6) gives one.
    ///
    /// The format is what the fmtp lines of the type say of its codec, by
    /// `FormatParams::from_sdp_fmtp`; where that refuses, there is no row. The RTX type is the last
    /// type of `rtx` whose fmtp line names this one by `apt` (RFC 4588, section 8.1), the RED type of
    /// audio the last type of `red` whose fmtp line names this one by a list (RFC 2198, section 5).
    /// The rtcp-fb values `transport-cc` (draft-holmer-rmcat-transport-wide-cc-extensions),
    /// `ccm fir`, `nack`, `nack pli` and `goog-remb` (draft-alvestrand-rmcat-remb) of the type turn
    /// feedback on (RFC 4585, section 4.2); video has all of it but `transport-cc` anyway. No
    /// row is locked.
    ///
    /// The only error is that memory was refused. The section stays as it is.
    #[tactic(auto, unfolding(crate::specs::section::SectionRows::rows))]
    pub fn rtp_params(&self) -> Result<Vec<PayloadParams>, AllocError>
        ensures rows { IfOk result (λ params. params.items ≡ rows self.now) }
        // Types of seven bits and parameters in their ranges give rows of such.
        ensures bounded { KeepsToRowLines self.now → IfOk result (λ params. All IsBounded params.items) }
    {
        let mapped = self.mapped()?;
        match mapped.as_slice() {
            // A section without types has no rows, and needs no tables.
            [] => Ok(Vec::new(*self.attrs.allocator())),
            types => self.rows_of(types),
        }
    }
}
