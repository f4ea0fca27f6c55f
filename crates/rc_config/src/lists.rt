//! The lists of one router that its interfaces and route maps may name.
ghost use Rattle.std.specs.Prelude.{◌≡◌};
ghost use Rattle.rc_config.specs.Lists as spec;

use crate::{
    AccessList, AccessListKind, AccessListLine, CommunityLine, CommunityList, Named, PrefixLine,
    PrefixList,
};
use rc_base::Name;
use std::alloc::Global;

/// The access lists, prefix lists and community lists of one router, each kind under names of its own and in the order of
/// first mention. A list is there where a line opens it or is one of its lines, and not where it is only named elsewhere.
pub struct Lists {
    pub access_lists: Named<AccessList>,
    pub prefix_lists: Named<PrefixList>,
    pub community_lists: Named<CommunityList>,
}

/// By a function of its own, so that what holds one drops it by one call.
impl Drop for Lists {
    fn drop(self) {
        let Lists {
            access_lists: _,
            prefix_lists: _,
            community_lists: _,
        } = self;
    }
}

/// What one line says of the list of a name.
#[derive(Drop)]
pub enum ListLine {
    /// `ip access-list standard NAME`, or `ip access-list extended NAME`: the block of a new list, or that of a known one
    /// again.
    AccessListOpened(AccessListKind),
    /// A line of an access list of this kind, which is made where it isn't there.
    AccessListLine {
        kind: AccessListKind,
        line: AccessListLine,
    },
    /// `ip prefix-list NAME ..`: a line of a prefix list, which is made where it isn't there.
    PrefixLine(PrefixLine),
    /// `ip community-list ..`: a line of a community list, which is made where it isn't there.
    CommunityLine(CommunityLine),
}

impl Lists {
    /// No list. It takes no memory.
    pub fn new(alloc: Global) -> Lists
        ensures { result ≡ spec.no_lists }
    {
        Lists {
            access_lists: Named::new(alloc),
            prefix_lists: Named::new(alloc),
            community_lists: Named::new(alloc),
        }
    }
}
