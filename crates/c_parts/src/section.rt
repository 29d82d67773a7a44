//! Sections as C holds them.

ghost use Rattle.c_parts.specs.Section.{c_section, section_direction_number, section_kind_number, section_protocol_number, section_setup_number};
ghost use Rattle.std.specs.Prelude.{◌≡◌};

use crate::row::flag;
use str0m_signal::{Direction, MediaLine, MediaType, Proto, Setup};

/// What a section is, in numbers.
#[repr(C)]
#[derive(Clone, Copy)]
pub struct Section {
    pub kind: u8,
    pub protocol: u8,
    pub direction: u8,
    pub setup: u8,
    pub disabled: u8,
    pub reserved: [u8; 3],
}

fn section_kind_of(typ: &MediaType) -> u8
    ensures { result ≡ section_kind_number typ.now }
{
    match typ {
        MediaType::Audio => 0,
        MediaType::Video => 1,
        MediaType::Application => 2,
        MediaType::Unknown(_) => 3,
    }
}

fn section_protocol_of(proto: Proto) -> u8
    ensures { result ≡ section_protocol_number proto }
{
    match proto {
        Proto::Srtp => 0,
        Proto::Sctp => 1,
    }
}

pub(crate) fn section_direction_of(direction: Direction) -> u8
    ensures { result ≡ section_direction_number direction }
{
    match direction {
        Direction::SendRecv => 0,
        Direction::SendOnly => 1,
        Direction::RecvOnly => 2,
        Direction::Inactive => 3,
    }
}

pub fn section_setup_of(setup: Option<Setup>) -> u8
    ensures { result ≡ section_setup_number setup }
{
    match setup {
        None => 0,
        Some(Setup::ActPass) => 1,
        Some(Setup::Active) => 2,
        Some(Setup::Passive) => 3,
    }
}

pub fn section_info(section: &MediaLine) -> Section
    ensures { result ≡ c_section section.now }
{
    Section {
        kind: section_kind_of(&section.typ),
        protocol: section_protocol_of(section.proto),
        direction: section_direction_of(section.direction()),
        setup: section_setup_of(section.setup()),
        disabled: flag(1, section.disabled),
        reserved: [0; 3],
    }
}
