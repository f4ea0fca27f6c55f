//! Where least walks lead.

use rc_base::RouterId;

/// A router inside an area, to which least walks are wanted.
#[derive(Clone, Copy)]
pub struct End {
    pub area: u32,
    pub router: RouterId,
}
