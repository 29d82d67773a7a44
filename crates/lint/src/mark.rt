//! What is to be said of the attributes of a description, in the order of their lines.
ghost use Rattle.lint.specs.Kept.{is_unread, is_unread_of_section, is_unread_of_session, kept_of_section, kept_of_session, kept_flags};
ghost use Rattle.std.specs.Prelude.{◌≡◌, ◌++◌, IfOk, OnOk, map};

use crate::code::{Change, Unseen};
use crate::forms::FormLevel;
use crate::unseen::{change, is_unprinted_as_unseen, unseen};
use std::alloc::{AllocError, Global};
use str0m_sdp::{MediaAttribute, MediaLine, Sdp, SessionAttribute};

/// What is to be said of an attribute.
#[derive(Clone, Copy)]
pub(crate) enum Mark {
    /// It is kept unread, on this level.
    Kept(FormLevel),
    /// It is read, and leaves this unknown.
    Unseen(Unseen),
    /// It is read, and this is lost where its line is printed otherwise than it stands.
    Read(Change),
    /// It is read, and no line is printed of it.
    Unprinted,
}

impl Mark {
    fn of_session(attribute: &SessionAttribute) -> Mark
        ensures { is_unread result ≡ is_unread_of_session attribute.now }
    {
        match attribute {
            SessionAttribute::Unused(_) => Mark::Kept(FormLevel::Session),
            SessionAttribute::Group { .. } => Mark::Read(Change::Mid),
            SessionAttribute::Candidate(_) => Mark::Read(Change::Candidate),
            _ => Mark::Read(Change::Spelling),
        }
    }

    fn of_section(alloc: Global, attribute: &MediaAttribute) -> Result<Mark, AllocError>
        ensures { IfOk result (λ mark. is_unread mark ≡ is_unread_of_section attribute.now) }
    {
        if let MediaAttribute::Unused(_) = attribute {
            return Ok(Mark::Kept(FormLevel::Section));
        }
        if is_unprinted_as_unseen(alloc, attribute)? {
            return Ok(Mark::Unprinted);
        }
        match unseen(attribute) {
            Some(unseen) => Ok(Mark::Unseen(unseen)),
            None => Ok(Mark::Read(change(attribute))),
        }
    }

    /// What is lost where the line is printed otherwise than it stands.
    pub(crate) fn change(self) -> Change {
        match self {
            Mark::Read(change) => change,
            Mark::Unprinted => Change::FormatKey,
            Mark::Kept(_) | Mark::Unseen(_) => Change::Spelling,
        }
    }
}

/// The marks of a session's attributes, in order.
pub(crate) fn session_marks(
    alloc: Global,
    attributes: &[SessionAttribute],
) -> Result<Vec<Mark>, AllocError>
    ensures { IfOk result (λ marks. map is_unread marks.items ≡ kept_of_session attributes.now) }
{
    let mut marks = Vec::new(alloc);
    for attribute in attributes {
        marks.push(Mark::of_session(attribute))?;
    }
    Ok(marks)
}

/// Adds the marks of a section's attributes, in order.
pub(crate) fn add_section(marks: &mut Vec<Mark>, section: &MediaLine) -> Result<(), AllocError>
    ensures { OnOk result (map is_unread marks.new.items ≡ map is_unread marks.old.items ++ kept_of_section section.now) }
{
    let alloc = *section.attrs.allocator();
    for attribute in section.attrs.as_slice() {
        marks.push(Mark::of_section(alloc, attribute)?)?;
    }
    Ok(())
}

/// The marks of a description's attributes, in the order of their lines.
pub(crate) fn all_marks(alloc: Global, sdp: &Sdp) -> Result<Vec<Mark>, AllocError>
    ensures { IfOk result (λ marks. map is_unread marks.items ≡ kept_flags sdp.now) }
{
    let mut marks = session_marks(alloc, sdp.session.attrs.as_slice())?;
    for section in sdp.media_lines.as_slice() {
        add_section(&mut marks, section)?;
    }
    Ok(marks)
}
