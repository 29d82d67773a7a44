//! The table of codes: what each says, how it is mended, where it comes from, and an example.

// Each table is named by one function alone: what names a table is proved over a copy of it.
pub(crate) mod change_entries;
pub(crate) mod conflict_entries;
pub(crate) mod fate_entries;
pub(crate) mod misfit_entries;
pub(crate) mod refusal_entries;
pub(crate) mod unfit_entries;
pub(crate) mod unknown_entries;
pub(crate) mod unseen_entries;

use crate::table::change_entries::change_entries;
use crate::table::conflict_entries::conflict_entries;
use crate::table::fate_entries::fate_entries;
use crate::table::misfit_entries::misfit_entries;
use crate::table::refusal_entries::refusal_entries;
use crate::table::unfit_entries::unfit_entries;
use crate::table::unknown_entries::unknown_entries;
use crate::table::unseen_entries::unseen_entries;

/// What is to be said of a code.
#[derive(Clone, Copy, Debug)]
pub struct Entry {
    /// The code as reports write it.
    pub name: &'static str,
    /// What is wrong.
    pub title: &'static str,
    /// What to do.
    pub remedy: &'static str,
    /// Why it is wrong, in one or two sentences.
    pub explanation: &'static str,
    /// The standard and its section.
    pub source: &'static str,
    /// What gives the finding: a line, or a few words.
    pub example: &'static str,
}

/// All entries, a table after the other, in the order of the cases of `Code`.
pub fn tables() -> [&'static [Entry]; 8] {
    [
        refusal_entries().as_slice(),
        unfit_entries().as_slice(),
        misfit_entries().as_slice(),
        unknown_entries().as_slice(),
        unseen_entries().as_slice(),
        change_entries().as_slice(),
        conflict_entries().as_slice(),
        fate_entries().as_slice(),
    ]
}
