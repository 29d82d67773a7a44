//! Which attribute says the direction of a section.
ghost use Rattle.std.specs.List.{position_or_len};
ghost use Rattle.std.specs.Prelude.{◌≡◌, ◌<◌, count_by, filter_map, length, position};
ghost use Rattle.str0m_sdp.specs.Common.{first};
ghost use Rattle.str0m_sdp.specs.section.Consistency.{is_direction};
ghost use Rattle.str0m_sdp.specs.section.SectionDirection.{direction_of};

use crate::attribute::MediaAttribute;
use str0m_values::Direction;

pub(crate) fn first_direction(attrs: &[MediaAttribute]) -> Option<Direction>
    ensures { result ≡ first (filter_map direction_of attrs.now) }
{
    attrs.iter().find_map(|attr| attr.as_direction())
}

/// Where the first direction stands, if there is one.
fn find_direction(attrs: &[MediaAttribute]) -> Option<usize>
    ensures { result ≡ position is_direction attrs.now }
{
    attrs.iter().position(|attr| attr.is_direction())
}

/// Where the first direction stands.
pub(crate) fn direction_place(attrs: &[MediaAttribute]) -> usize
    requires { 0 < count_by is_direction attrs.now }
    ensures first { result ≡ position_or_len is_direction attrs.now }
    ensures within { result < length attrs.now }
{
    find_direction(attrs).unwrap()
}
