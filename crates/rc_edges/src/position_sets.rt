//! What goes on from a position.
ghost use Rattle.std.specs.Prelude.{◌≡◌, ℕ, ◌+◌, ◌<◌, ◌≤◌, [], All, IfOk, IfErr, OnOk, length};
ghost use Rattle.rc_base.specs.declared.ending.Ends.{Ends as Asked};
ghost use Rattle.rc_base.specs.declared.position.Pos.{Pos as Place};
ghost use Rattle.rc_bdd.specs.Work.{IsCause};
ghost use Rattle.rc_config.specs.Members.{positions};
ghost use Rattle.rc_edges.specs.Given.{IsRow, joined, nothing};
ghost use Rattle.rc_router_sets.specs.Made.{IsMade};
ghost use Rattle.rc_edges.specs.Prepare.{MayEnd, MaySend};
ghost use Rattle.rc_edges.specs.Sendings.{IsSending};
ghost use Rattle.rc_edges.specs.Shares.{IsReady, IsShare};
ghost use Rattle.rc_nodes.specs.Seats.{IsSeatOf, Keeps, SeatView, TableView};
ghost use Rattle.rc_places.specs.Places.{position_at};
ghost use Rattle.rc_topology.specs.Ports.{links_of};
ghost use Rattle.rc_moves.specs.Moves.{DataPlane, fib_of, router_of};

use crate::asked_endings::{Stop, add_endings, put_stops};
use crate::edges::add_edges;
use crate::outgoing::{Row, flush};
use crate::same_entry::is_like;
use rc_base::{Ends, Pos, RouterId};
use rc_bdd::{SetError, Work};
use rc_fib::Fib;
use rc_jobs::Collected;
use rc_moves::Plane;
use rc_nodes::{May, Nodes};
use rc_places::Places;
use rc_router_sets::{RouterSets, Site, router_at};
use std::alloc::Global;

/// What was made of a position's router, what the position sends, and what may end there. It is the same for all positions at which the same
/// packets enter.
pub(crate) struct Sending {
    pub made: RouterSets,
    pub row: Row,
    pub stops: Vec<Stop>,
}

/// By a function of its own, so that what holds it drops it by one call.
impl Drop for Sending {
    fn drop(self) {
        let Sending {
            made: _,
            row: _,
            stops: _,
        } = self;
    }
}

/// Nothing is made yet of a router with this table.
fn made_of(alloc: Global, fib: &Fib) -> Result<RouterSets, SetError>
    ensures sets { IfOk result (λ made. (nodes : TableView) (seat : SeatView) (plane : DataPlane) (q : Place) → fib_of plane (router_of q) ≡ fib.now → IsSeatOf nodes seat → IsMade nodes seat plane q made) }
    ensures memory { IfErr result (λ e. e ≡ SetError.Memory) }
{
    match RouterSets::of(alloc, fib) {
        Ok(made) => Ok(made),
        Err(_) => Err(SetError::Memory),
    }
}

/// Nothing is made yet of a position's router.
fn sets_of(alloc: Global, site: &Site<'_>) -> Result<RouterSets, SetError>
    ensures sets { IfOk result (λ made. (nodes : TableView) (seat : SeatView) → IsSeatOf nodes seat → IsMade nodes seat site.now.plane.now site.now.position made) }
    ensures memory { IfErr result (λ e. e ≡ SetError.Memory) }
{
    let Some(fib) = site.plane.fib(site.router()) else {
        return Ok(RouterSets::without_table(alloc));
    };
    made_of(alloc, fib)
}

/// What is made of the router at a position stays, where it is that of the last one.
fn renew(
    alloc: Global,
    site: &Site<'_>,
    last: RouterId,
    made: &mut RouterSets,
) -> Result<(), SetError>
    ensures sets { OnOk result ((nodes : TableView) (seat : SeatView) (q : Place) → router_of q ≡ last → IsMade nodes seat site.now.plane.now q made.old → IsMade nodes seat site.now.plane.now site.now.position made.new) }
    ensures memory { IfErr result (λ e. e ≡ SetError.Memory) }
{
    if site.router() == last {
        made.forwarded = None;
        return Ok(());
    }
    *made = sets_of(alloc, site)?;
    Ok(())
}

/// Nothing is sent to any of so many positions.
fn no_row(alloc: Global, count: usize) -> Result<Row, SetError>
    ensures row { IfOk result (λ row. (seat : SeatView) → IsRow seat row count (joined nothing)) }
    ensures memory { IfErr result (λ e. e ≡ SetError.Memory) }
{
    match Row::of(alloc, count) {
        Ok(row) => Ok(row),
        Err(_) => Err(SetError::Memory),
    }
}

/// What goes on from a position, where nothing of it is made yet.
fn fill<M: May>(
    alloc: Global,
    work: &mut Work<M>,
    nodes: &Nodes<M>,
    site: &Site<'_>,
    places: &Places<'_>,
    ends: Ends,
    sending: &mut Sending,
) -> Result<(), SetError>
    requires places { places.now ≡ site.now.plane.now.network }
    requires links { site.now.plane.now.links ≡ links_of site.now.plane.now.network }
    requires made { IsMade nodes.now work.old site.now.plane.now site.now.position sending.old.made }
    requires row { IsRow work.old sending.old.row (length (positions places.now)) (joined nothing) }
    requires stops { sending.old.stops.items ≡ [] }
    requires send { MaySend nodes.now.may site.now.plane.now site.now.position }
    requires end { MayEnd nodes.now.may site.now.plane.now ends site.now.position }
    ensures seat { IsSeatOf nodes.now work.new }
    ensures keeps { Keeps work.old work.new }
    ensures sends { IfOk result (λ _. IsSending nodes.now work.new site.now.plane.now ends site.now.position sending.new) }
    ensures cause { IfErr result (IsCause nodes.now work.new) }
{
    add_edges(
        alloc,
        work,
        nodes,
        site,
        places,
        &mut sending.made,
        &mut sending.row,
    )?;
    add_endings(
        alloc,
        work,
        nodes,
        site,
        &mut sending.made,
        ends,
        &mut sending.stops,
    )
}

/// What goes on from the position of a number, which is the first one.
pub(crate) fn begin<M: May>(
    alloc: Global,
    work: &mut Work<M>,
    nodes: &Nodes<M>,
    plane: &Plane<'_>,
    places: &Places<'_>,
    ends: Ends,
    number: usize,
) -> Result<Sending, SetError>
    requires seat { IsSeatOf nodes.now work.old }
    requires ready { IsReady nodes.now plane.now places.now ends }
    requires number { number < length (positions places.now) }
    ensures seat { IsSeatOf nodes.now work.new }
    ensures keeps { Keeps work.old work.new }
    ensures sends { IfOk result (IsSending nodes.now work.new plane.now ends (position_at places.now number)) }
    ensures cause { IfErr result (IsCause nodes.now work.new) }
{
    let site = Site {
        plane: &*plane,
        position: places.at(number),
    };
    let made = sets_of(alloc, &site)?;
    let row = no_row(alloc, places.len())?;
    let mut sending = Sending {
        made,
        row,
        stops: Vec::new(alloc),
    };
    fill(alloc, work, nodes, &site, places, ends, &mut sending)?;
    Ok(sending)
}

/// What goes on from the next position: the same as from the last one, where the same packets enter there.
pub(crate) fn follow<M: May>(
    alloc: Global,
    work: &mut Work<M>,
    nodes: &Nodes<M>,
    last: &Pos,
    site: &Site<'_>,
    places: &Places<'_>,
    ends: Ends,
    sending: &mut Sending,
) -> Result<(), SetError>
    requires places { places.now ≡ site.now.plane.now.network }
    requires links { site.now.plane.now.links ≡ links_of site.now.plane.now.network }
    requires last { IsSending nodes.now work.old site.now.plane.now ends last.now sending.old }
    requires send { MaySend nodes.now.may site.now.plane.now site.now.position }
    requires end { MayEnd nodes.now.may site.now.plane.now ends site.now.position }
    ensures seat { IsSeatOf nodes.now work.new }
    ensures keeps { Keeps work.old work.new }
    ensures sends { IfOk result (λ _. IsSending nodes.now work.new site.now.plane.now ends site.now.position sending.new) }
    ensures cause { IfErr result (IsCause nodes.now work.new) }
{
    if is_like(site.plane.network(), last, &site.position) {
        return Ok(());
    }
    sending.row.clear();
    sending.stops.clear();
    renew(alloc, site, router_at(last), &mut sending.made)?;
    fill(alloc, work, nodes, site, places, ends, sending)
}

/// Puts what goes on from a position into a share, behind that of the positions before it.
pub(crate) fn put_sending(
    share: &mut Collected,
    sending: &Sending,
    number: usize,
) -> Result<(), SetError>
    requires { All (λ t. t < length share.old.into.items) sending.now.row.touched.items }
    ensures share { OnOk result ((nodes : TableView) (seat : SeatView) (plane : DataPlane) (ends : Asked) (from : ℕ) → IsShare seat plane ends from number share.old → IsSending nodes seat plane ends (position_at plane.network number) sending.now → IsShare seat plane ends from (number + 1) share.new) }
    ensures memory { IfErr result (λ e. e ≡ SetError.Memory) }
{
    let Ok(_) = flush(&mut share.into, &sending.row, number) else {
        return Err(SetError::Memory);
    };
    match put_stops(&mut share.ends, sending.stops.as_slice(), number) {
        Ok(_) => Ok(()),
        Err(_) => Err(SetError::Memory),
    }
}
