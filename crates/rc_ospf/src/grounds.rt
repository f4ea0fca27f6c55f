//! What the routes of all routers are made of.
ghost use Rattle.std.specs.Prelude.{◌≡◌, ◌≤◌, IfOk, None, length};
ghost use Rattle.rc_config.specs.Lawful.{IsLawful};
ghost use Rattle.rc_ospf.specs.Asked.{AnswerOver};
ghost use Rattle.rc_ospf.specs.Grounds.{AreBoundaries, AreGrounds};
ghost use Rattle.rc_ospf.specs.Internal.{steps_of};
ghost use Rattle.rc_ospf.specs.Members.{areas_in};

use crate::asked::walks;
use crate::known_walks::KnownWalks;
use crate::member::{Areas, areas_of_routers, members};
use crate::tables::boundaries;
use crate::{Boundary, Internal, OspfInterface};
use rc_base::Items;
use rc_config::Network;
use rc_ospf_interfaces::ospf_interfaces;
use rc_topology::Links;
use std::alloc::{AllocError, Global};
use std::thread::Threads;

/// What the routes of all routers are made of: the OSPF interfaces, the areas of routers, and the least walks.
pub struct Grounds {
    /// What OSPF gives without a state, but for the routes of routers and the prefixes that they advertise: there are none here.
    pub internal: Internal,
    pub(crate) interfaces: Items<OspfInterface>,
    pub(crate) areas: Items<Areas>,
    pub(crate) walks: KnownWalks,
}

/// By a function of its own, so that what holds them drops them by one call.
impl Drop for Grounds {
    fn drop(self) {
        let Grounds {
            internal: _,
            interfaces: _,
            areas: _,
            walks: _,
        } = self;
    }
}

/// The paths of each router to the AS boundary routers, over these least walks.
fn boundaries_over<R: Threads + Sync>(
    rt: &R,
    alloc: Global,
    net: &Network,
    links: &Links,
    areas: &[Areas],
    walks: &KnownWalks,
    workers: u32,
) -> Result<Items<Items<Boundary>>, AllocError>
    requires areas { areas.now ≡ areas_in net.now }
    requires walks { AnswerOver net.now (steps_of net.now links.now) None walks.now }
    ensures { IfOk result (AreBoundaries net.now (steps_of net.now links.now)) }
{
    let members = members(alloc, areas, walks)?;
    boundaries(rt, alloc, net, members.as_slice(), workers)
}

impl Grounds {
    /// Those of a network with these links. The workers share the work. It errs only where memory runs out.
    pub fn of<R: Threads + Sync>(
        rt: &R,
        alloc: Global,
        net: &Network,
        links: Links,
        workers: u32,
    ) -> Result<Grounds, AllocError>
        requires { IsLawful net.now }
        ensures grounds { IfOk result (AreGrounds net.now) }
        ensures links { IfOk result (λ g. g.internal.links ≡ links) }
    {
        let interfaces = ospf_interfaces(alloc, net)?;
        let areas = areas_of_routers(rt, alloc, net, workers)?;
        let walks = walks(
            rt,
            alloc,
            net,
            &links,
            interfaces.as_slice(),
            areas.as_slice(),
            &None,
            workers,
        )?;
        let boundaries = boundaries_over(
            rt,
            alloc,
            net,
            &links,
            areas.as_slice(),
            &walks,
            workers,
        )?;
        let internal = Internal {
            links,
            routes: Items::new(alloc),
            boundaries,
            own: Items::new(alloc),
        };
        Ok(Grounds {
            internal,
            interfaces,
            areas,
            walks,
        })
    }

    /// The links alone.
    pub fn into_links(self) -> Links
        ensures { result ≡ self.internal.links }
    {
        let Grounds {
            internal,
            interfaces: _,
            areas: _,
            walks: _,
        } = self;
        internal.into_links()
    }
}
