//! The sections of a session description.
ghost use Rattle.std.specs.Prelude.{◌≡◌, ◌++◌, [], IfOk, None, Some, codes, false, refl, string_bytes};
ghost use Rattle.str0m_sdp.specs.attribute.MediaType.{media_type_text};
ghost use Rattle.str0m_sdp.specs.attribute.Proto.{proto_text};
ghost use Rattle.str0m_sdp.specs.declared.attribute.media_type.MediaType.TheVariants.{Audio};
ghost use Rattle.str0m_sdp.specs.declared.attribute.proto.Proto.TheVariants.{Srtp};
ghost use Rattle.str0m_sdp.specs.section.MediaLine.{formats_text, m_line, media_line_text, port_text, m_line_pts_text};

use crate::attribute::MediaAttribute;
use crate::attribute::bandwidth::{Bandwidth, BandwidthLine};
use crate::attribute::media_type::MediaType;
use crate::attribute::proto::Proto;
use crate::form::printed::{Printed, PrintedEach, spaced, write_end};
use std::alloc::{AllocError, Global};
use std::fmt;
use str0m_values::{Items, Pt};

/// A section: an m-line and the lines that belong to it (RFC 8866, section 5.14).
#[derive(Clone, Debug, PartialEq, Eq, Drop)]
pub struct MediaLine {
    /// What the section carries.
    pub typ: MediaType,
    /// Whether the port is `0`, by which a section is rejected or stopped (RFC 8829, section 5.3.1).
    pub disabled: bool,
    /// What carries the section.
    pub proto: Proto,
    /// The payload types of the m-line, in order: numbers 0 to 255 as they stand there. The types
    /// of rtpmap, rtcp-fb, fmtp and rid lines are 0 to 127 in what is read.
    pub pts: Items<Pt>,
    /// The proposed bandwidth, where a `b=` line says one (RFC 8866, section 5.8).
    pub bw: Option<Bandwidth>,
    /// The attribute lines, in order.
    pub attrs: Items<MediaAttribute>,
}

impl MediaLine {
    /// An audio section over RTP that isn't disabled, without types, bandwidth and attributes. Takes
    /// no memory.
    pub fn new(alloc: Global) -> MediaLine
        ensures { result ≡ record { typ = Audio; disabled = false; proto = Srtp; pts = []; bw = None; attrs = [] } }
    {
        MediaLine {
            typ: MediaType::default(),
            disabled: false,
            proto: Proto::default(),
            pts: Items::empty(alloc),
            bw: None,
            attrs: Items::empty(alloc),
        }
    }

    /// A copy that equals its source; the only error is that memory was refused.
    #[tactic(auto, using(crate::proofs::attribute::AttributeCopies::attribute_line_copied))]
    pub fn clone(&self) -> Result<MediaLine, AllocError>
        ensures { IfOk result (λ line. line ≡ self.now) }
    {
        Clone::clone(self)
    }

    /// The m-line that the section prints, with its end. The only error is that memory was refused.
    pub fn m_line(&self) -> Result<String, AllocError>
        ensures { IfOk result (λ text. string_bytes text ≡ m_line self.now) }
    {
        let head = HeadLine(self);
        head.to_string(*self.attrs.allocator())
    }
}

/// The formats of an m-line: `webrtc-datachannel` for an application section, else the payload
/// types, `0` where there is none.
#[derive(Drop)]
struct Formats<'a> {
    typ: &'a MediaType,
    pts: &'a [Pt],
}

impl<'a> fmt::Display for Formats<'a> {
    ghost output = { λ formats. Some (formats_text formats.typ.now formats.pts.now) };

    fn fmt<W: fmt::Write>(&self, f: &mut fmt::Formatter<W>) -> fmt::Result {
        if let MediaType::Application = self.typ {
            return f.write_str("webrtc-datachannel");
        }
        Types(self.pts).fmt(f)
    }
}

/// Payload types with a space between each two, `0` where there is none.
#[derive(Drop)]
struct Types<'a>(&'a [Pt]);

impl<'a> fmt::Display for Types<'a> {
    ghost output = { λ types. Some (m_line_pts_text types.0.now) };

    fn fmt<W: fmt::Write>(&self, f: &mut fmt::Formatter<W>) -> fmt::Result {
        let Some((last, before)) = self.0.split_last() else {
            return f.write_str("0");
        };
        for pt in before {
            f.write_str(spaced(pt.value()))?;
        }
        last.fmt(f)
    }
}

/// The port of a section between two spaces: `0` where it is disabled, else the discard port, since ICE finds the port.
#[derive(Drop)]
struct Port {
    disabled: bool,
}

impl fmt::Display for Port {
    ghost output = { λ port. Some (codes " " ++ (port_text port.disabled ++ codes " ")) };

    fn fmt<W: fmt::Write>(&self, f: &mut fmt::Formatter<W>) -> fmt::Result {
        if self.disabled {
            f.write_str(" 0 ")
        } else {
            f.write_str(" 9 ")
        }
    }
}

/// How an m-line begins: up to its port.
#[derive(Drop)]
struct HeadMedia<'a>(&'a MediaLine);

impl<'a> fmt::Display for HeadMedia<'a> {
    ghost output = { λ head. Some (codes "m=" ++ (media_type_text head.0.now.typ ++ (codes " " ++ (port_text head.0.now.disabled ++ codes " ")))) };

    fn fmt<W: fmt::Write>(&self, f: &mut fmt::Formatter<W>) -> fmt::Result {
        let disabled = self.0.disabled;
        f.write_str("m=")?;
        self.0.typ.fmt(f)?;
        Port { disabled }.fmt(f)
    }
}

/// How an m-line goes on: what carries the section, and its formats.
#[derive(Drop)]
struct HeadFormats<'a>(&'a MediaLine);

impl<'a> fmt::Display for HeadFormats<'a> {
    ghost output = { λ head. Some (proto_text head.0.now.proto ++ (codes " " ++ formats_text head.0.now.typ head.0.now.pts)) };

    fn fmt<W: fmt::Write>(&self, f: &mut fmt::Formatter<W>) -> fmt::Result {
        let typ = &self.0.typ;
        let pts = self.0.pts.as_slice();
        self.0.proto.fmt(f)?;
        f.write_str(" ")?;
        Formats { typ, pts }.fmt(f)
    }
}

/// The m-line of a section, with its end.
#[derive(Drop)]
struct HeadLine<'a>(&'a MediaLine);

impl<'a> fmt::Display for HeadLine<'a> {
    ghost output = { λ head. Some (m_line head.0.now) };

    // Part by part, since `write!` asks the options of the formatter anew for each.
    fn fmt<W: fmt::Write>(&self, f: &mut fmt::Formatter<W>) -> fmt::Result {
        HeadMedia(self.0).fmt(f)?;
        HeadFormats(self.0).fmt(f)?;
        write_end(f)
    }
}

/// The lines of the section: `m=`, `c=`, its bandwidth and its attributes.
impl fmt::Display for MediaLine {
    ghost output = { λ line. Some (media_line_text line) };

    fn fmt<W: fmt::Write>(&self, f: &mut fmt::Formatter<W>) -> fmt::Result {
        HeadLine(self).fmt(f)?;
        f.write_str("c=IN IP4 0.0.0.0\r\n")?;
        BandwidthLine(&self.bw).fmt(f)?;
        PrintedEach(self.attrs.as_slice()).fmt(f)
    }
}

impl Printed for MediaLine {
    ghost text = { media_line_text };

    ghost prints = { λ _. refl };
}
