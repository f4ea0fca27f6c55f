//! Work on items in a row, which workers share by halves.
//!
//! It stands on the gate of rc_outside, and on the lists of rc_base. The layer above says what a share is and how two neighbours
//! become one (`Shared`), or what is made of each item (`Each`) or of each thing in a list (`Makes`). It may know that all shares together
//! are the whole, for every number of workers, and that each worker passed the gate once, before its share.
#![tactic(auto)]

mod each;
mod hand;
mod making;
mod shared;
mod starts;
mod taking;
mod workers;

pub use each::{Each, each_at_once};
pub use making::{Makes, made_at_once};
pub use shared::Shared;
pub use starts::share_start;
pub use workers::at_once;
