//! Attributes that print no line, though a description holds them.

use crate::texts::prints_text;
use std::alloc::{AllocError, Global};
use std::test::Fail;
use str0m_signal::{
    Extension, Items, MediaAttribute, RestrictionId, Simulcast, SimulcastGroups, SimulcastLayer,
    Text,
};

/// One active layer of this name.
fn layers_of_attribute(alloc: Global, name: &str) -> Result<SimulcastGroups, AllocError> {
    let mut layers = Vec::new(alloc);
    layers.push(SimulcastLayer {
        restriction_id: RestrictionId::new_active(Text::from_str(alloc, name)?),
        attributes: None,
    })?;
    Ok(SimulcastGroups(Items::from(layers)))
}

/// A simulcast that sends these layers, and receives none.
fn simulcast_attribute(alloc: Global, send: SimulcastGroups, is_munged: bool) -> MediaAttribute {
    MediaAttribute::Simulcast(Simulcast {
        send,
        recv: SimulcastGroups(Items::empty(alloc)),
        is_munged,
    })
}

/// An extension with the number 2.
fn extension_attribute(alloc: Global, serialized: bool) -> Result<MediaAttribute, AllocError> {
    Ok(MediaAttribute::ExtMap {
        id: 2,
        ext: Extension::new(alloc, "urn:x", serialized)?,
    })
}

fn empty_group_attribute(alloc: Global) -> Result<MediaAttribute, AllocError> {
    Ok(MediaAttribute::SsrcGroup {
        semantics: Text::from_str(alloc, "FID")?,
        ssrcs: Items::empty(alloc),
    })
}

/// The attribute of this name in the table below; another, which prints a line, where there is none.
fn made_attribute(alloc: Global, name: &str) -> Result<MediaAttribute, AllocError> {
    match name {
        "group without sources" => empty_group_attribute(alloc),
        "simulcast without layers" => {
            let none = SimulcastGroups(Items::empty(alloc));
            Ok(simulcast_attribute(alloc, none, false))
        }
        "munged simulcast" => Ok(simulcast_attribute(
            alloc,
            layers_of_attribute(alloc, "hi")?,
            true,
        )),
        "simulcast" => Ok(simulcast_attribute(alloc, layers_of_attribute(alloc, "hi")?, false)),
        "extension that is not listed" => extension_attribute(alloc, false),
        "extension" => extension_attribute(alloc, true),
        _ => Ok(MediaAttribute::SendRecv),
    }
}

/// Attributes, and what each prints.
static ATTRIBUTE_LINES: [(&str, &str); 6] = [
    ("group without sources", ""),
    ("simulcast without layers", ""),
    ("munged simulcast", ""),
    ("simulcast", "a=simulcast:send hi\r\n"),
    ("extension that is not listed", ""),
    ("extension", "a=extmap:2 urn:x\r\n"),
];

fn is_attribute_printed(alloc: Global, name: &str, line: &str) -> Result<bool, AllocError> {
    let attribute = made_attribute(alloc, name)?;
    prints_text(alloc, &attribute, line)
}

#[test]
fn attributes_that_no_line_says_print_nothing(rt: HostRuntime) -> Result<(), Fail> {
    for (name, line) in &ATTRIBUTE_LINES {
        assert!(rt; is_attribute_printed(rt.alloc(), name, line)?, "{name}");
    }
    Ok(())
}
