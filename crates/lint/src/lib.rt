//! What a session description loses where this layer reads it, and why one is refused, line by line.
//!
//! - `added`: Findings that are added to the others, and whether there is one of a kind.
//! - `against`: What would come of a text in rounds of negotiation, line by line.
//! - `attribute_lines`: What is found on attribute lines.
//! - `changes`: Lines that are printed otherwise than they stand.
//! - `code`: The codes of findings: what is wrong, by kind.
//! - `conflicts`: What lines of a description say against each other.
//! - `contradiction`: Where a section contradicts itself: the lines at fault.
//! - `difference`: What sets two rows of one codec apart.
//! - `fate`: What comes of a row of the other side in a round.
//! - `fields`: Lines of a letter and a value, as the readers of headers and sections take them.
//! - `finding`: What is found at a place of a text, and all that is found.
//! - `fork`: Where two lines begin to differ.
//! - `forms`: The forms of attributes as a person reads them, a part after the other.
//! - `found`: What a text loses, and why it is refused, line by line.
//! - `groups`: What the groups of a session say against its sections.
//! - `header`: Which line of a header is at fault.
//! - `kept`: Why attribute lines are kept unread.
//! - `lines`: The lines of a text, and how many there are.
//! - `mark`: What is to be said of the attributes of a description, in the order of their lines.
//! - `notes`: The findings while they are gathered.
//! - `part`: Places of a text, and parts of its lines as they are shown.
//! - `refused`: Why a text is refused.
//! - `round_notes`: What is said of rounds.
//! - `row_places`: On which lines the rows of sections stand.
//! - `section`: A section by itself, consistent or not.
//! - `table`: The table of codes: what each says, how it is mended, where it comes from, and an example.
//!   - `change_entries`: What is lost where a line is printed otherwise than it stands, in the order of `Change`.
//!   - `conflict_entries`: What a line says against others, in the order of `Conflict`.
//!   - `fate_entries`: What comes of a row of the other side in a round, in the order of `Fate`.
//!   - `misfit_entries`: Which part doesn't fit, in the order of `Misfit`.
//!   - `refusal_entries`: Why a text is refused, in the order of `Refusal`.
//!   - `unfit_entries`: Why a line fits nowhere, in the order of `Unfit`.
//!   - `unknown_entries`: Why a line is kept unread, in the order of `Unknown`.
//!   - `unseen_entries`: What is left unknown, in the order of `Unseen`.
//! - `told`: What the lines of a text say, but for what printing fixes.
//! - `types`: The payload types of a section, and what its lines say of others.
//! - `unfit`: Why a line fits nowhere.
//! - `unseen`: What lines that are read leave unknown, and what is lost of them where they are printed.
//! - `written`: What is printed of a line and read as something else.
#![tactic(auto)]

mod added;
mod against;
mod attribute_lines;
mod changes;
mod code;
mod conflicts;
mod contradiction;
mod difference;
mod fate;
mod fields;
mod finding;
mod fork;
mod forms;
mod found;
mod groups;
mod header;
mod kept;
mod lines;
mod mark;
mod notes;
mod part;
mod refused;
mod round_notes;
mod row_places;
mod section;
mod table;
mod told;
mod types;
mod unfit;
mod unseen;
mod written;

pub use against::rounds;
pub use code::{Change, Code, Conflict, Fate, Misfit, Refusal, Severity, Unfit, Unknown, Unseen};
pub use finding::{Finding, Report};
pub use found::findings;
pub use table::{Entry, tables};
