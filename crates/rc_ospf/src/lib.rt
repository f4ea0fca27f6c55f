//! OSPF: what border routers summarise, and the routes that this and the least walks inside areas give (RFC 2328).
//!
//! It stands on the model of rc_config, the links of rc_topology, the least walks of rc_link_state and the routes of rc_route. The
//! layer above knows of each router its routes inside and between areas, over the least of all walks, its paths to AS boundary
//! routers, and the prefixes that it advertises itself (`IsInternal`), and that there is just one such answer (`has_internal`,
//! `one_internal`).
//!
//! The crate goes one way: the areas of routers (`router_area`), what their interfaces offer (`advertising`, `offer`, `grouping`),
//! routers as the others have them (`ospf_router`, `member`), with the least walks (`known_walks`) that an address asks for (`ends`,
//! `asked`), the first hops of walks from a router (`first_hops`), ways to what is offered and the best of them (`way`, `best`), what
//! border routers summarise of a destination (`summaries`), and what each router makes of it (`routes`, `boundary`): its routes are taken
//! one by one (`taking`), by a list (`listing`) or by what the layer above makes of them (`using`). What is made of each router by itself
//! is made by workers at once (`shares`).
#![tactic(auto)]

mod advertising;
mod asked;
mod best;
mod boundary;
mod destination;
mod ends;
mod first_hops;
mod grounds;
mod grouping;
mod known_walks;
mod listing;
mod member;
mod model;
mod offer;
mod ospf_router;
mod own;
mod router_area;
mod routes;
mod shares;
mod summaries;
mod tables;
mod taking;
mod using;
mod way;

use advertising::adverts;
pub use boundary::has_boundary;
pub use grounds::Grounds;
use grouping::{Row, offers_by_prefix};
pub use model::{Boundary, Internal};
use offer::{Advert, Offer};
use rc_ospf_interfaces::OspfInterface;
use router_area::RouterArea;
pub use tables::{has_internal, internal, internal_at, one_internal};
pub use taking::{RoutesOf, TakesRoutes};
pub use using::{UsesRoutes, made_of_routes};
