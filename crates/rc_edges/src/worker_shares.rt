//! What the positions of some numbers send, and what may end there.
ghost use Rattle.std.specs.Prelude.{◌≡◌, ℕ, ◌+◌, ◌<◌, ◌≤◌, [], IfOk, IfErr, OnOk, length, replicate};
ghost use Rattle.rc_bdd.specs.Work.{IsCause};
ghost use Rattle.rc_config.specs.Members.{positions};
ghost use Rattle.rc_edges.specs.Sendings.{IsSending};
ghost use Rattle.rc_edges.specs.Shares.{IsReady, IsShare};
ghost use Rattle.rc_nodes.specs.Seats.{IsSeatOf, Keeps};
ghost use Rattle.rc_places.specs.Places.{position_at};

use crate::outgoing::empty_rows;
use crate::position_sets::{Sending, begin, follow, put_sending};
use rc_base::{Ends, Items};
use rc_bdd::{SetError, Work};
use rc_jobs::Collected;
use rc_moves::Plane;
use rc_nodes::{May, Nodes};
use rc_places::Places;
use rc_router_sets::Site;
use std::alloc::Global;

/// Nothing is sent by any of no positions, of so many.
fn no_share(alloc: Global, count: usize) -> Result<Collected, SetError>
    ensures share { IfOk result (λ share. (share.into.items ≡ replicate count []) × (share.ends ≡ [])) }
    ensures memory { IfErr result (λ e. e ≡ SetError.Memory) }
{
    match empty_rows(alloc, count) {
        Ok(into) => Ok(Collected {
            into,
            ends: Items::new(alloc),
        }),
        Err(_) => Err(SetError::Memory),
    }
}

/// One position more, after a last one from which that goes on which is at hand.
fn put_position<M: May>(
    alloc: Global,
    work: &mut Work<M>,
    nodes: &Nodes<M>,
    plane: &Plane<'_>,
    places: &Places<'_>,
    ends: Ends,
    last: usize,
    number: usize,
    sending: &mut Sending,
    share: &mut Collected,
) -> Result<(), SetError>
    requires ready { IsReady nodes.now plane.now places.now ends }
    requires last { last < length (positions places.now) }
    requires number { number < length (positions places.now) }
    requires sends { IsSending nodes.now work.old plane.now ends (position_at places.now last) sending.old }
    requires rows { length share.old.into.items ≡ length (positions plane.now.network) }
    ensures seat { IsSeatOf nodes.now work.new }
    ensures keeps { Keeps work.old work.new }
    ensures sends { IfOk result (λ _. IsSending nodes.now work.new plane.now ends (position_at places.now number) sending.new) }
    ensures share { OnOk result ((from : ℕ) → IsShare work.old plane.now ends from number share.old → IsShare work.new plane.now ends from (number + 1) share.new) }
    ensures cause { IfErr result (IsCause nodes.now work.new) }
{
    let before = places.at(last);
    let site = Site {
        plane: &*plane,
        position: places.at(number),
    };
    follow(alloc, work, nodes, &before, &site, places, ends, sending)?;
    put_sending(share, sending, number)
}

/// The positions of some numbers, one after another.
fn put_positions<M: May>(
    alloc: Global,
    work: &mut Work<M>,
    nodes: &Nodes<M>,
    plane: &Plane<'_>,
    places: &Places<'_>,
    ends: Ends,
    from: usize,
    to: usize,
    share: &mut Collected,
) -> Result<(), SetError>
    requires seat { IsSeatOf nodes.now work.old }
    requires ready { IsReady nodes.now plane.now places.now ends }
    requires order { from ≤ to }
    requires end { to ≤ length (positions places.now) }
    requires share { IsShare work.old plane.now ends from from share.old }
    ensures seat { IsSeatOf nodes.now work.new }
    ensures keeps { Keeps work.old work.new }
    ensures share { IfOk result (λ _. IsShare work.new plane.now ends from to share.new) }
    ensures cause { IfErr result (IsCause nodes.now work.new) }
{
    if from == to {
        return Ok(());
    }
    let mut sending = begin(alloc, work, nodes, plane, places, ends, from)?;
    let mut last = from;
    for number in from..to {
        put_position(
            alloc,
            work,
            nodes,
            plane,
            places,
            ends,
            last,
            number,
            &mut sending,
            share,
        )?;
        last = number;
    }
    Ok(())
}

/// The share of the positions of some numbers.
pub(crate) fn share_of<M: May>(
    alloc: Global,
    work: &mut Work<M>,
    nodes: &Nodes<M>,
    plane: &Plane<'_>,
    places: &Places<'_>,
    ends: Ends,
    from: usize,
    to: usize,
) -> Result<Collected, SetError>
    requires seat { IsSeatOf nodes.now work.old }
    requires ready { IsReady nodes.now plane.now places.now ends }
    requires order { from ≤ to }
    requires end { to ≤ length (positions plane.now.network) }
    ensures seat { IsSeatOf nodes.now work.new }
    ensures keeps { Keeps work.old work.new }
    ensures share { IfOk result (IsShare work.new plane.now ends from to) }
    ensures cause { IfErr result (IsCause nodes.now work.new) }
{
    let mut share = no_share(alloc, places.len())?;
    put_positions(
        alloc, work, nodes, plane, places, ends, from, to, &mut share,
    )?;
    Ok(share)
}
