//! The addresses of the made network.
ghost use Rattle.std.specs.Prelude.{◌≡◌, ◌+◌, ◌<◌, ◌≤◌};
ghost use Rattle.rc_generate.specs.Ring.{begins_chord, before, chord_address, chord_network, filters, lan_network, ring_network};

use rc_base::Addr;

/// Where the networks of the ring begin: 10.0.0.0.
const RING: u32 = 10 << 24;
/// Where the networks of the chords begin: 10.1.0.0.
const CHORDS: u32 = RING + (1 << 16);
/// Where the LANs begin: 172.16.0.0.
const LANS: u32 = (172 << 24) + (16 << 16);

/// A router of the network: which one it is, counted from 0, and how many there are.
#[derive(Clone, Copy)]
pub(crate) struct Place {
    pub router: u32,
    pub routers: u32,
}

/// An address in the network between a router and the next one.
pub(crate) fn ring_address(router: u32, host: u32) -> Addr
    requires router { router < 512 }
    requires host { host < 4 }
    ensures { result ≡ ring_network router + host }
{
    Addr::new(RING + 4 * router + host)
}

/// An address in the network of the chord that begins at a router.
fn address_on_chord(router: u32, host: u32) -> Addr
    requires router { router < 512 }
    requires host { host < 4 }
    ensures { result ≡ chord_network router + host }
{
    Addr::new(CHORDS + 4 * router + host)
}

/// The address of a router in its LAN, the first one.
pub(crate) fn lan_address(router: u32) -> Addr
    requires { router < 512 }
    ensures { result ≡ lan_network router + 1 }
{
    Addr::new(LANS + (router / 256 << 16) + (router % 256 << 8) + 1)
}

/// Whether a router filters what leaves for its LAN.
pub(crate) fn filters(router: u32) -> bool
    ensures { result ≡ filters router }
{
    router % 4 == 1
}

/// Whether a chord begins at a router.
fn begins_chord(routers: u32, router: u32) -> bool
    ensures { result ≡ begins_chord routers router }
{
    router < routers / 2 && router % 8 == 0
}

impl Place {
    /// The router before this one.
    pub fn before(self) -> u32
        requires some { self.router < self.routers }
        requires few { self.routers ≤ 512 }
        ensures value { result ≡ before self.routers self.router }
        ensures below { result < self.routers }
    {
        (self.router + self.routers - 1) % self.routers
    }

    /// The router's address on its chord, if it has one.
    pub fn chord_address(self) -> Option<Addr>
        requires some { self.router < self.routers }
        requires few { self.routers ≤ 512 }
        ensures { result ≡ chord_address self.routers self.router }
    {
        let half = self.routers / 2;
        if begins_chord(self.routers, self.router) {
            return Some(address_on_chord(self.router, 1));
        }
        if half <= self.router && begins_chord(self.routers, self.router - half) {
            return Some(address_on_chord(self.router - half, 2));
        }
        None
    }
}
