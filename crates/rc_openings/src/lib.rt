//! The words of a line, the openings that decide what it is, and the values that its words write.
//!
//! It stands on `rc_base`. The layer above may know that of the openings of its block with which a line begins, the
//! one with most words decides it, that no two openings decide one line, and what each word is as a number, an
//! address, a prefix or a mask; `FormRows` and `said_by` of its specs say what a line means, given the rows of its
//! forms. No call here takes memory.
//!
//! The crate goes one way: the words of a line (`words`) and the values that they write (`values`); an opening and what it says of a
//! line (`opening`, `form`), the one of several that decides it (`decide`, `table`); the openings of each block (`global`, `interface`,
//! `ospf`, `bgp`, `family`, `route_map`, `access_list`, together in `block`); and what follows for the line (`decision`, `reading`).
#![tactic(auto)]

mod access_list;
mod bgp;
mod block;
mod decide;
mod decision;
mod family;
mod form;
mod global;
mod interface;
mod opening;
mod ospf;
mod reading;
mod route_map;
mod table;
mod values;
mod words;

pub use block::{Block, form_has_front, front_decides, is_form, one_opening_decides};
pub use decide::decisive;
pub use decision::{Decision, number_in_front, one_decision};
pub use form::{
    AccessListForm, BgpForm, Form, GeneralForm, InterfaceForm, MapEntryForm, OspfForm, PolicyForm,
};
pub use opening::{Opening, Verdict, left_behind};
pub use reading::{LineError, LineRefusal, judged, unopened};
pub use values::{
    before_mark, begins_with_letter, number_in, prefix_under, word_addr, word_area, word_interface,
    word_mask, word_prefix, word_u32,
};
pub use words::Words;
