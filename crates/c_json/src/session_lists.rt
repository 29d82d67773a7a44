//! The lists of a session.

ghost use Rattle.c_json.specs.JsonWriter.{InList};
ghost use Rattle.std.specs.Prelude.{◌≡◌, OnOk};

use crate::candidate::add_candidate;
use crate::json_writer::JsonWriter;
use crate::lists::Listed;
use crate::session::session_has_key;
use crate::transport::{add_printed, add_unread};
use std::alloc::{AllocError, Global};
use str0m_signal::{Mid, SessionAttribute, Text};

/// A list whose items are attributes of a session.
#[derive(Clone, Copy, PartialEq, Eq)]
pub(crate) enum SessionList {
    Candidates,
    Groups,
    /// What no other list and no key has.
    Invalid,
}

/// Adds sections that belong together (RFC 5888, section 5).
fn add_session_group(json: &mut JsonWriter, typ: &Text, mids: &[Mid]) -> Result<(), AllocError>
    requires { InList json.old }
    ensures { OnOk result (json.new ≡ json.old) }
{
    json.begin_item()?;
    json.spaced("mids", mids)?;
    json.text("type", typ.as_str())?;
    json.end_object()
}

/// The list for attributes of this kind: `Invalid` where no other is.
fn session_list(attr: &SessionAttribute) -> SessionList {
    match attr {
        SessionAttribute::Candidate(_) => SessionList::Candidates,
        SessionAttribute::Group { .. } => SessionList::Groups,
        _ => SessionList::Invalid,
    }
}

impl Listed for SessionList {
    type Attribute = SessionAttribute;

    fn key(self) -> &'static str {
        match self {
            SessionList::Candidates => "candidates",
            SessionList::Groups => "groups",
            SessionList::Invalid => "invalid",
        }
    }

    fn has(self, _alloc: Global, attr: &SessionAttribute) -> Result<bool, AllocError> {
        Ok(session_list(attr) == self && !session_has_key(attr))
    }

    fn add(
        self,
        alloc: Global,
        json: &mut JsonWriter,
        attr: &SessionAttribute,
    ) -> Result<(), AllocError> {
        match attr {
            SessionAttribute::Candidate(found) => add_candidate(json, found.get()),
            SessionAttribute::Group { typ, mids } => add_session_group(json, typ, mids.as_slice()),
            SessionAttribute::Unused(text) => add_unread(json, text.as_str()),
            _ => {
                let line = attr.to_string(alloc)?;
                add_printed(json, line.as_str())
            }
        }
    }
}
