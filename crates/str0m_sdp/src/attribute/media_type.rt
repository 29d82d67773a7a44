//! What a section carries.
ghost use Rattle.std.specs.Prelude.{◌≡◌, IfOk, Some};
ghost use Rattle.str0m_sdp.specs.attribute.MediaType.{is_channel, is_media, media_type_text};

use crate::label::{APPLICATION, AUDIO, VIDEO};
use std::alloc::AllocError;
use std::fmt;
use str0m_values::Text;

/// The media type of a section (RFC 8866, section 5.14).
#[derive(Clone, Debug, Default, PartialEq, Eq, Drop)]
pub enum MediaType {
    /// `audio`.
    #[default]
    Audio,
    /// `video`.
    Video,
    /// `application`: data channels (RFC 8841, section 4).
    Application,
    /// A type that is none of these, as its text.
    Unknown(Text),
}

impl MediaType {
    /// A copy that equals its source; the only error is that memory was refused.
    pub fn clone(&self) -> Result<MediaType, AllocError>
        ensures { IfOk result (λ typ. typ ≡ self.now) }
    {
        Clone::clone(self)
    }

    /// The type as it stands in m-lines.
    fn word(&self) -> &str
        ensures { result.now ≡ media_type_text self.now }
    {
        match self {
            MediaType::Audio => AUDIO,
            MediaType::Video => VIDEO,
            MediaType::Application => APPLICATION,
            MediaType::Unknown(text) => text.as_str(),
        }
    }

    /// Whether sections of this type carry media: audio or video.
    pub fn is_media(&self) -> bool
        ensures { result ≡ is_media self.now }
    {
        matches!(self, MediaType::Audio | MediaType::Video)
    }

    /// Whether sections of this type carry data channels (RFC 8841, section 4).
    pub fn is_channel(&self) -> bool
        ensures { result ≡ is_channel self.now }
    {
        matches!(self, MediaType::Application)
    }
}

/// The type as it stands in m-lines: `audio`, `video`, `application`, or the text of another one.
impl fmt::Display for MediaType {
    ghost output = { λ typ. Some (media_type_text typ) };

    fn fmt<W: fmt::Write>(&self, f: &mut fmt::Formatter<W>) -> fmt::Result {
        let word = self.word();
        f.write_str(word)
    }
}
