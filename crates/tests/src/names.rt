//! Texts, names and extensions: how they compare, and what texts and names show of themselves.

use std::alloc::{AllocError, Global};
use std::test::Fail;
use str0m_values::{Extension, Mid, Name, Rid, Text};

/// What a text is made of, what that begins with, and how the text shows itself. One of more than sixteen bytes lies elsewhere
/// than a shorter one.
static NAME_TEXTS: [(&str, &str, &str); 2] = [
    ("BUNDLE", "BUN", "\"BUNDLE\""),
    ("webrtc-datachannel", "webrtc", "\"webrtc-datachannel\""),
];

/// Whether the text shows itself so.
fn is_name_text_shown_so(alloc: Global, text: &Text, wanted: &str) -> Result<bool, AllocError> {
    let shown = format!(in alloc; "{text:?}")?;
    Ok(shown.as_str() == wanted)
}

/// Whether the text that may be there is this one.
fn is_name_text_held(text: &Option<Text>, held: &str) -> bool {
    text.as_deref() == Some(held)
}

/// Whether a text that is made of this str begins so, shows itself so, and is the str again.
fn is_name_text_as_str(
    alloc: Global,
    held: &str,
    begin: &str,
    shown: &str,
) -> Result<bool, AllocError> {
    let text = Text::from_str(alloc, held)?;
    let is_so = text.starts_with(begin) && is_name_text_shown_so(alloc, &text, shown)?;
    Ok(is_so && is_name_text_held(&Some(text), held))
}

/// Names of what is said of sources, and how such a name shows itself and prints. One of more than eight bytes lies elsewhere than a
/// shorter one.
static SOURCE_NAMES: [(&str, &str); 2] = [
    ("cname", "\"cname\" cname"),
    ("previous-ssrc", "\"previous-ssrc\" previous-ssrc"),
];

/// Whether a name equals its copy, and shows itself and prints so.
fn is_source_name_shown_so(alloc: Global, name: &Name, shown: &str) -> Result<bool, AllocError> {
    let copy = name.clone()?;
    let said = format!(in alloc; "{copy:?} {name}")?;
    Ok(copy == *name && said.as_str() == shown)
}

/// Whether a name that is made of this str begins with it, shows itself and prints so.
fn is_source_name_as_str(alloc: Global, held: &str, shown: &str) -> Result<bool, AllocError> {
    let name = Name::from_str(alloc, held)?;
    Ok(name.starts_with(held) && is_source_name_shown_so(alloc, &name, shown)?)
}

/// Whether the URI of an extension equals its copy, and is the str again.
fn is_uri_as_str(alloc: Global, held: &str) -> Result<bool, AllocError> {
    let text = Extension::from_sdp_uri(alloc, held)?.uri;
    let copy = text.clone()?;
    let is_same = copy == text;
    let string = copy.into_string(alloc)?;
    Ok(is_same && string.as_str() == held)
}

const MID_URI: &str = "urn:ietf:params:rtp-hdrext:sdes:mid";

/// Whether the extension is the one that is made of that URI.
fn is_extension_made(
    alloc: Global,
    read: &Extension,
    serialized: bool,
) -> Result<bool, AllocError> {
    let made = Extension::new(alloc, MID_URI, serialized)?;
    Ok(*read == made)
}

fn is_extension_copied(read: &Extension) -> Result<bool, AllocError> {
    let copy = read.clone()?;
    Ok(copy == *read)
}

/// Whether an extension that is read equals its copy, the one of a program's own, and the one that descriptions list.
fn extension_equals(alloc: Global) -> Result<(bool, bool, bool), AllocError> {
    let read = Extension::from_sdp_uri(alloc, MID_URI)?;
    let copy = is_extension_copied(&read)?;
    let own = is_extension_made(alloc, &read, false)?;
    Ok((copy, own, is_extension_made(alloc, &read, true)?))
}

#[test]
fn texts_and_names_compare_by_what_they_keep(rt: HostRuntime) -> Result<(), Fail> {
    for (held, begin, shown) in &NAME_TEXTS {
        assert!(rt;
            is_name_text_as_str(rt.alloc(), held, begin, shown)?,
            "{held}"
        );
    }
    for (held, shown) in &SOURCE_NAMES {
        assert!(rt; is_source_name_as_str(rt.alloc(), held, shown)?, "{held}");
    }
    assert!(rt; is_uri_as_str(rt.alloc(), MID_URI)?);
    assert!(rt; Mid::from("0123456789abcdefg") == Mid::from("0123456789abcdef"));
    assert!(rt; Mid::from("0") != Mid::from("00"));
    assert!(rt; Rid::from("hi") == Rid::from("hi"));
    assert_eq!(rt; extension_equals(rt.alloc())?, (true, false, true));
    Ok(())
}
