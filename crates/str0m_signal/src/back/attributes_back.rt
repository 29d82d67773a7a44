//! Attributes of sessions and of sections, printed and read again.

ghost use Rattle.std.specs.Prelude.{◌≡◌, ◌↔◌, IfOk, IsTrue};
ghost use Rattle.str0m_signal.specs.Prelude.{IsTheOnly, session_attribute_text};
ghost use Rattle.str0m_signal.specs.back.Writable.{AreReadAs, MediaAreReadAs, SessionGoesWith};
ghost use Rattle.str0m_signal.specs.form.SessionAttribute.{IsSessionLine};

use crate::back::read_back::{PrintedBack, ReadBack, read_back};
use std::alloc::{AllocError, Global};
use str0m_sdp::{MediaAttribute, SessionAttribute};
use str0m_values::Items;

impl PrintedBack for MediaAttribute {
    ghost use Rattle.std.specs.Prelude.{refl};
    ghost use Rattle.str0m_signal.specs.Prelude.{media_attribute_text};

    ghost text = { media_attribute_text };

    ghost prints = { λ _. refl };
}

impl ReadBack for MediaAttribute {
    ghost use Rattle.str0m_signal.specs.back.Writable.{MediaGoesWith};

    ghost GoesWith = { MediaGoesWith };

    fn goes_with(&self, read: &MediaAttribute) -> bool {
        self.is_alike(read) || matches!(read, MediaAttribute::Unused(_))
    }
}

impl PrintedBack for SessionAttribute {
    ghost use Rattle.std.specs.Prelude.{refl};
    ghost use Rattle.str0m_signal.specs.Prelude.{session_attribute_text};

    ghost text = { session_attribute_text };

    ghost prints = { λ _. refl };
}

fn is_same_session_attribute(attribute: &SessionAttribute, other: &SessionAttribute) -> bool
    ensures { IsTrue result ↔ (attribute.now ≡ other.now) }
{
    attribute == other
}

impl ReadBack for SessionAttribute {
    ghost use Rattle.str0m_signal.specs.back.Writable.{SessionGoesWith};

    ghost GoesWith = { SessionGoesWith };

    fn goes_with(&self, read: &SessionAttribute) -> bool {
        is_same_session_attribute(self, read) || matches!(read, SessionAttribute::Unused(_))
    }
}

/// What the attributes of a section come back as, in order; `None` where one doesn't come back.
pub(crate) fn media_back(
    alloc: Global,
    attrs: &[MediaAttribute],
) -> Result<Option<Items<MediaAttribute>>, AllocError>
    ensures { IfOk result (IsTheOnly (MediaAreReadAs attrs.now)) }
{
    read_back(alloc, attrs)
}

/// What the attributes of a session come back as, in order; `None` where one doesn't come back.
pub(crate) fn session_back(
    alloc: Global,
    attrs: &[SessionAttribute],
) -> Result<Option<Items<SessionAttribute>>, AllocError>
    ensures { IfOk result (IsTheOnly (AreReadAs session_attribute_text IsSessionLine SessionGoesWith attrs.now)) }
{
    read_back(alloc, attrs)
}
