//! A folder, read into the network of its files.
//!
//! It stands on the outside for what a folder holds, on files as models, and on the network that models make. The layer above knows the
//! network of a folder's configurations in byte order of their names, or their first refusal: that it is one, in whatever order the folder
//! lists them, and that it is lawful; and when reading failed.
#![tactic(auto)]

mod listing;
mod loading;

pub use listing::one_listing;
pub use loading::{one_net, read_network};
