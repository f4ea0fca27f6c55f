//! What comes from a place to each position.
ghost use Rattle.std.specs.Prelude.{◌≡◌, ◌≤◌, [], length, IfOk, IfErr};
ghost use Rattle.rc_bdd.specs.Work.{IsCause};
ghost use Rattle.rc_config.specs.Lawful.{IsPosition};
ghost use Rattle.rc_nodes.specs.Seats.{IsSeatOf, Keeps};
ghost use Rattle.rc_places.specs.Places.{number_of};
ghost use Rattle.rc_reach.specs.Rounds.{MayCome, reached_at, reached_in};
ghost use Rattle.rc_spread.specs.Known.{KnowsShare};
ghost use Rattle.rc_spread.specs.Turned.{AreOut};

use rc_base::{Items, Pos};
use rc_bdd::{SetError, Work};
use rc_jobs::{Flow, Prepared};
use rc_moves::Plane;
use rc_nodes::{May, Nodes, Ref};
use rc_outside::Gate;
use rc_spread::{
    Spread, are_settled, first_fresh, first_sets, flows_out, gathered_set, rounds_alone,
    rounds_by_flows,
};
use std::alloc::Global;
use std::thread::Threads;

/// The headers of a sector that come from a place to each position of a plane: what stood there, and what each position sends there.
#[derive(Drop)]
pub struct Coming<'a> {
    pub plane: &'a Plane<'a>,
    /// For each position the flows into it, of all headers.
    pub into: &'a [Items<Flow>],
    /// Where all headers start.
    pub place: Pos,
    /// The first bits of the headers that are asked about.
    pub sector: &'a [bool],
}

impl<'a> Spread for Coming<'a> {
    ghost use Rattle.std.specs.Prelude.{length};
    ghost use Rattle.rc_reach.specs.Kept.{coming_kept};
    ghost use Rattle.rc_reach.specs.Rounds.{MayCome, reached_in};

    ghost count = { λ c. length c.into.now };

    ghost set_after = { λ c. reached_in c.plane.now c.place c.sector.now };

    ghost ready = { λ c nodes seat. MayCome nodes seat c.plane.now c.place c.sector.now c.into.now };

    fn positions(&self) -> usize {
        self.into.len()
    }

    fn next_set<M: May>(
        &self,
        work: &mut Work<M>,
        nodes: &Nodes<M>,
        sets: &[Ref],
        fresh: &[bool],
        number: u32,
        q: usize,
    ) -> Result<Ref, SetError> {
        let _ = number;
        let flows = self.into[q].as_slice();
        if are_settled(flows, fresh) {
            return Ok(sets[q]);
        }
        gathered_set(work, nodes, sets, fresh, flows, self.sector, sets[q])
    }

    ghost stays_ready = { λ c nodes v w keeps ready. coming_kept v w keeps ready };
}

/// What has come from a place to each position, after as many rounds as there are positions. `number` is that of the place.
pub fn propagate<R: Threads + Sync, M: May + Send + Sync, G: Gate>(
    rt: &R,
    alloc: Global,
    plane: &Plane<'_>,
    place: &Pos,
    number: usize,
    nodes: &Nodes<M>,
    work: Work<M>,
    prepared: &Prepared,
    workers: u32,
    gate: &G,
) -> (Work<M>, Result<Vec<Ref>, SetError>)
    requires place { IsPosition plane.now.network place.now }
    requires number { number ≡ number_of plane.now.network place.now }
    requires seat { IsSeatOf nodes.now work }
    requires may { MayCome nodes.now work plane.now place.now [] prepared.now.into }
    requires positions { length prepared.now.into ≤ 131584 }
    requires some { 1 ≤ workers }
    requires most { workers ≤ 64 }
    ensures seat { IsSeatOf nodes.now result.0 }
    ensures keeps { Keeps work result.0 }
    ensures made { IfOk result.1 (λ v. KnowsShare result.0 v.items (reached_at plane.now place.now (length prepared.now.into)) 0 (length prepared.now.into)) }
    ensures cause { IfErr result.1 (IsCause nodes.now result.0) }
{
    let count = prepared.into.len();
    let Ok(sets) = first_sets(alloc, count, number) else {
        return (work, Err(SetError::Memory));
    };
    let Ok(fresh) = first_fresh(alloc, count, number) else {
        return (work, Err(SetError::Memory));
    };
    let into = prepared.into.as_slice();
    let Ok(out) = flows_out(alloc, into) else {
        return (work, Err(SetError::Memory));
    };
    let coming = Coming {
        plane: &*plane,
        into,
        place: *place,
        sector: &[],
    };
    rounds_by_flows(
        rt,
        alloc,
        nodes,
        work,
        &coming,
        out.as_slice(),
        sets,
        fresh,
        workers,
        gate,
    )
}

/// What has come from a place to each position of the headers of a sector, after as many rounds as there are positions, made by one alone;
/// and how many rounds changed something, with one more. `number` is that of the place, and `out` has the flows out of positions.
pub fn propagate_alone<M: May>(
    alloc: Global,
    work: &mut Work<M>,
    nodes: &Nodes<M>,
    plane: &Plane<'_>,
    place: &Pos,
    number: usize,
    into: &[Items<Flow>],
    out: &[Items<Flow>],
    sector: &[bool],
) -> Result<(Vec<Ref>, u32), SetError>
    requires place { IsPosition plane.now.network place.now }
    requires number { number ≡ number_of plane.now.network place.now }
    requires seat { IsSeatOf nodes.now work.old }
    requires may { MayCome nodes.now work.old plane.now place.now sector.now into.now }
    requires out { AreOut into.now (length into.now) out.now }
    requires positions { length into.now ≤ 131584 }
    ensures seat { IsSeatOf nodes.now work.new }
    ensures keeps { Keeps work.old work.new }
    ensures made { IfOk result (λ r. KnowsShare work.new r.0.items (reached_in plane.now place.now sector.now (length into.now)) 0 (length into.now)) }
    ensures cause { IfErr result (IsCause nodes.now work.new) }
{
    let Ok(sets) = first_sets(alloc, into.len(), number) else {
        return Err(SetError::Memory);
    };
    let Ok(fresh) = first_fresh(alloc, into.len(), number) else {
        return Err(SetError::Memory);
    };
    let coming = Coming {
        plane: &*plane,
        into,
        place: *place,
        sector,
    };
    rounds_alone(alloc, work, nodes, &coming, out, sets, fresh)
}
