//! Lists in order of prefix, in pieces that lists share.
//!
//! It stands on routes and paths (rc_route) and on look-ups by address (rc_trie). The layer above knows such a list as the list of all that
//! stands in it; finds in it by prefix and by address; and makes another one of it, that differs at some prefixes, for which pieces
//! without such a prefix are shared and not copied.
#![tactic(auto)]

mod again;
mod alike;
mod edit;
mod editing;
mod equality;
mod filling;
mod finder;
mod growing;
mod known;
mod listed;
mod longest;
mod piece;
mod pieces;

pub use again::Again;
pub use alike::{Alike, same};
pub use edit::{Edit, Edits};
pub use editing::edited;
pub use equality::equal;
pub use filling::Filling;
pub use finder::Finder;
pub use known::{Knowledge, Known, into_state, known_at};
pub use listed::Listed;
pub use piece::Piece;
pub use pieces::Pieces;
