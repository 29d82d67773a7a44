//! Why attribute lines are kept unread.
ghost use Rattle.lint.specs.Code.{is_unread_code};
ghost use Rattle.std.specs.Prelude.{◌≡◌, true};

use crate::code::{Code, Misfit, Unknown};
use crate::forms::{Form, FormLevel, form_name_of};
use crate::part::Part;
use str0m_values::cuts::strip;

/// Why a line is kept unread, and the part at fault.
#[derive(Clone, Copy)]
pub(crate) struct KeptReason<'a> {
    pub(crate) code: Code,
    pub(crate) part: Part<'a>,
}

/// Why the text after `a=` isn't read on a level where its attribute is.
fn kept_misfit<'a>(form: Form, text: &'a str) -> (Misfit, Part<'a>) {
    let whole = Part::to_end(text);
    let Some(value) = strip(text, form.label()) else {
        return (Misfit::Form, whole);
    };
    if !form.label().ends_with(':') {
        return (Misfit::Behind, Part::to_end(value));
    }
    if value.is_empty() {
        return (Misfit::Empty, whole);
    }
    form.misfit(value)
        .unwrap_or((Misfit::Form, Part::to_end(value)))
}

/// Why the text after `a=` is kept unread on this level.
pub(crate) fn why_kept<'a>(level: FormLevel, text: &'a str) -> KeptReason<'a>
    ensures { is_unread_code result.code ≡ true }
{
    let name = form_name_of(text);
    let named = Part {
        shown: name,
        behind: text,
    };
    let Some(form) = Form::named(name) else {
        return KeptReason {
            code: Code::Unknown(Unknown::Attribute),
            part: named,
        };
    };
    if form.level() != level && form.level() != FormLevel::Both {
        return KeptReason {
            code: Code::Unknown(Unknown::Level),
            part: named,
        };
    }
    let (misfit, part) = kept_misfit(form, text);
    KeptReason {
        code: Code::Malformed(misfit),
        part,
    }
}
