//! The network of the files of a folder.
//!
//! It stands on the model and on the models of files. The layer above knows the network of some models as these under
//! their host names in byte order, or the first host name that is there already, or else the first name that its file
//! doesn't define, each with its file and line; and that the network of lawful models is lawful.
#![tactic(auto)]

mod building;
pub mod laws;
mod refusal;
mod undefined;

pub use building::{build, named_twice, one_network};
pub use refusal::{BuildError, NetCause, NetRefusal};
