//! What the calls from C are made of: handles, texts that are read, room of the caller's, and rows and sections
//! as C holds them.
//!
//! - `config_handle`: A configuration on the heap, as C holds it.
//! - `exchange_handle`: One side of an exchange of offers and answers on the heap, as C holds it.
//! - `extension`: Header extensions as C holds them.
//! - `fault`: Why a call of an exchange of offers and answers is refused.
//! - `layer`: Layers of simulcast as C holds them.
//! - `parts`: A box as its pointer and its allocator.
//! - `reading`: A text that C gives, read.
//! - `rid`: Streams that may be restricted, as C holds them.
//! - `room`: Texts and lists that go into room which the caller gives.
//! - `row`: Rows and outcomes as C holds them.
//! - `section`: Sections as C holds them.
//! - `section_item`: What C gets of a section as a list of structs.
//! - `session_handle`: A description on the heap, as C holds it.
//! - `side`: What this side says of itself, as C says it.
//! - `source`: Sources of RTP packets as C holds them.
//! - `source_group`: Groups of sources as C holds them.
#![tactic(auto)]

pub mod config_handle;
pub mod exchange_handle;
pub mod extension;
pub mod fault;
pub mod layer;
mod parts;
pub mod reading;
pub mod rid;
pub mod room;
pub mod row;
pub mod section;
pub mod section_item;
pub mod session_handle;
pub mod side;
pub mod source;
pub mod source_group;
