//! Lists whose items are attributes.

ghost use Rattle.c_json.specs.JsonWriter.{InList, InObject};
ghost use Rattle.std.specs.Prelude.{◌≡◌, OnOk};

use crate::json_writer::JsonWriter;
use std::alloc::{AllocError, Global};

/// A list whose items are attributes of a session or of a section.
pub(crate) trait Listed: Copy {
    type Attribute;

    fn key(self) -> &'static str;

    /// Whether an attribute is an item of the list: one of its kind that prints, and that no key says.
    fn has(self, alloc: Global, attr: &Self::Attribute) -> Result<bool, AllocError>;

    /// Adds the item that an attribute is.
    fn add(
        self,
        alloc: Global,
        json: &mut JsonWriter,
        attr: &Self::Attribute,
    ) -> Result<(), AllocError>
        requires { InList json.old }
        ensures { OnOk result (json.new ≡ json.old) };
}

/// Whether one of the attributes is an item of the list.
fn has_any_in_list<L: Listed>(
    alloc: Global,
    list: L,
    attrs: &[L::Attribute],
) -> Result<bool, AllocError> {
    for attr in attrs {
        if list.has(alloc, attr)? {
            return Ok(true);
        }
    }
    Ok(false)
}

/// Adds the list; nothing where it has no item.
pub(crate) fn add_list<L: Listed>(
    alloc: Global,
    json: &mut JsonWriter,
    list: L,
    attrs: &[L::Attribute],
) -> Result<(), AllocError>
    requires { InObject json.old }
    ensures { OnOk result (json.new ≡ json.old) }
{
    if !has_any_in_list(alloc, list, attrs)? {
        return Ok(());
    }
    json.begin_list(list.key())?;
    for attr in attrs {
        if list.has(alloc, attr)? {
            list.add(alloc, json, attr)?;
        }
    }
    json.end_list()
}
