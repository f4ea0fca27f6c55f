//! What reaches an ending, sector by sector.
ghost use Rattle.std.specs.Prelude.{◌≡◌, ◌++◌, ◌<◌, ◌≤◌, IfErr, IfOk, length};
ghost use Rattle.rc_bdd.specs.Work.{IsCause};
ghost use Rattle.rc_nodes.specs.Seats.{IsSeatOf, Keeps, SeatKnows};
ghost use Rattle.rc_reach.specs.Sectored.{MayReachIn, answer_in};
ghost use Rattle.rc_spread.specs.Known.{KnowsShare};

use crate::coming::propagate_alone;
use crate::result::reaching_in;
use rc_base::{Ends, Items, Pos};
use rc_bdd::{SetError, Work};
use rc_jobs::{Flow, Job};
use rc_moves::Plane;
use rc_nodes::{May, Nodes, Ref};
use std::alloc::{AllocError, Global};
use std::marker::Model;

/// The headers that come from a place to one of some endings, to be made for some sectors one by one. What was prepared is that of all
/// headers.
pub struct BySectors<'a> {
    pub plane: &'a Plane<'a>,
    pub place: Pos,
    /// That of the place.
    pub number: usize,
    pub ends: Ends,
    /// For each position the flows into it.
    pub into: &'a [Items<Flow>],
    /// For each position where the flows out of it lead.
    pub out: &'a [Items<Flow>],
    /// The endings asked for.
    pub flows: &'a [Flow],
    pub sectors: &'a [Items<bool>],
}

/// By a function of its own, so that what holds it drops it by one call.
impl<'a> Drop for BySectors<'a> {
    fn drop(self) {
        let BySectors {
            plane: _,
            place: _,
            number: _,
            ends: _,
            into: _,
            out: _,
            flows: _,
            sectors: _,
        } = self;
    }
}

impl<'a> Model for BySectors<'a> {
    ghost use Rattle.rc_reach.specs.Sectored.{Sectored};

    ghost Value = { Sectored };

    ghost view = { λ s. record { plane = s.plane.now; place = s.place; place_number = s.number; ends = s.ends; into = s.into.now; out_of = s.out.now; flows = s.flows.now; sectors = s.sectors.now } };
}

/// What was made of some sectors in a row, and in how many rounds at most.
#[derive(Drop)]
pub struct Answers {
    pub sets: Vec<Ref>,
    pub rounds: u32,
}

/// What of the headers of a sector comes to one of the endings, and in how many rounds.
fn answer_in<M: May>(
    alloc: Global,
    work: &mut Work<M>,
    nodes: &Nodes<M>,
    asked: &BySectors<'_>,
    index: usize,
) -> Result<(Ref, u32), SetError>
    requires seat { IsSeatOf nodes.now work.old }
    requires ready { MayReachIn nodes.now work.old asked.now }
    requires index { index < length asked.now.sectors }
    ensures seat { IsSeatOf nodes.now work.new }
    ensures keeps { Keeps work.old work.new }
    ensures set { IfOk result (λ r. SeatKnows work.new r.0.index (answer_in asked.now index)) }
    ensures cause { IfErr result (IsCause nodes.now work.new) }
{
    let sectors = asked.sectors;
    let sector = sectors[index].as_slice();
    let (sets, rounds) = propagate_alone(
        alloc,
        work,
        nodes,
        asked.plane,
        &asked.place,
        asked.number,
        asked.into,
        asked.out,
        sector,
    )?;
    let set = reaching_in(
        alloc,
        work,
        nodes,
        asked.plane,
        &asked.place,
        asked.ends,
        asked.flows,
        sector,
        sets.as_slice(),
    )?;
    Ok((set, rounds))
}

/// What of the headers of some sectors comes to one of the endings.
fn answers_of<M: May>(
    alloc: Global,
    work: &mut Work<M>,
    nodes: &Nodes<M>,
    asked: &BySectors<'_>,
    from: usize,
    to: usize,
) -> Result<Answers, SetError>
    requires seat { IsSeatOf nodes.now work.old }
    requires ready { MayReachIn nodes.now work.old asked.now }
    requires order { from ≤ to }
    requires end { to ≤ length asked.now.sectors }
    ensures seat { IsSeatOf nodes.now work.new }
    ensures keeps { Keeps work.old work.new }
    ensures made { IfOk result (λ a. KnowsShare work.new a.sets.items (answer_in asked.now) from to) }
    ensures cause { IfErr result (IsCause nodes.now work.new) }
{
    let mut sets = Vec::new(alloc);
    let mut most = 0;
    for index in from..to {
        let (set, rounds) = answer_in(alloc, work, nodes, asked, index)?;
        if sets.push(set).is_err() {
            return Err(SetError::Memory);
        }
        most = rounds.max(most);
    }
    Ok(Answers { sets, rounds: most })
}

/// What was made of some sectors, and behind it what was made of the next ones.
fn joined(left: Answers, right: Answers) -> Result<Answers, AllocError>
    ensures { IfOk result (λ both. both.sets.items ≡ left.sets.items ++ right.sets.items) }
{
    let mut sets = left.sets;
    let mut others = right.sets;
    sets.append(&mut others)?;
    Ok(Answers {
        sets,
        rounds: left.rounds.max(right.rounds),
    })
}

impl<'a> Job for BySectors<'a> {
    ghost use Rattle.std.specs.Prelude.{length};
    ghost use Rattle.rc_spread.specs.Kept.{share_kept};
    ghost use Rattle.rc_spread.specs.Known.{KnowsShare};
    ghost use Rattle.rc_reach.specs.Kept.{sectors_kept};
    ghost use Rattle.rc_reach.specs.Sectored.{MayReachIn, answer_in};

    type Made = Answers;

    ghost count = { λ s. length s.sectors };

    ghost ready = { λ s nodes seat. MayReachIn nodes seat s };

    ghost knows = { λ s seat a b made. KnowsShare seat made.sets.items (answer_in s) a b };

    fn items(&self) -> usize {
        self.sectors.len()
    }

    fn share<M: May>(
        &self,
        alloc: Global,
        work: &mut Work<M>,
        nodes: &Nodes<M>,
        from: usize,
        to: usize,
    ) -> Result<Answers, SetError> {
        answers_of(alloc, work, nodes, self, from, to)
    }

    fn together(&self, left: Answers, right: Answers) -> Result<Answers, AllocError> {
        joined(left, right)
    }

    ghost stays_ready = { λ s nodes v w keeps ready. sectors_kept v w keeps ready };

    ghost stays_known = { λ s v w a b made keeps known. share_kept v w keeps known };
}
