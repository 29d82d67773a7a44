//! The lines of header extensions.
ghost use Rattle.std.specs.Fmt.{WritesOnOk};
ghost use Rattle.str0m_sdp.specs.attribute.ExtMap.{ext_map_text};

use crate::form::printed::{write_end, write_numbered};
use crate::label;
use std::fmt;
use str0m_values::Extension;

/// Writes the `a=extmap` line, with its end (RFC 8285, section 5); nothing where the extension isn't written.
pub(crate) fn write_ext_map<W: fmt::Write>(
    f: &mut fmt::Formatter<W>,
    id: u8,
    ext: &Extension,
) -> fmt::Result
    ensures { WritesOnOk W.write_str_gives f.old result (ext_map_text id ext.now) f.new }
{
    if !ext.serialized {
        return Ok(());
    }
    write_numbered(f, label::EXTMAP, id)?;
    f.write_str(ext.uri.as_str())?;
    write_end(f)
}
