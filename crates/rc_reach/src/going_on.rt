//! What goes on from each position.
use rc_base::Items;
use rc_bdd::{SetError, Work};
use rc_jobs::Flow;
use rc_moves::Plane;
use rc_nodes::{May, NEVER, Nodes, Ref};
use rc_spread::{Spread, are_settled, gathered_set};

/// The headers that go on from each position of a plane, by one move more in each round.
#[derive(Drop)]
pub struct GoingOn<'a> {
    pub plane: &'a Plane<'a>,
    /// For each position the flows out of it that let some header pass, each with where it leads to, in the order of these.
    pub out: &'a [Items<Flow>],
    /// So many times true.
    pub everywhere: &'a [bool],
}

impl<'a> Spread for GoingOn<'a> {
    ghost use Rattle.std.specs.Prelude.{length};
    ghost use Rattle.rc_edges.specs.Prepare.{edge_at};
    ghost use Rattle.rc_spread.specs.Kept.{onward_kept};
    ghost use Rattle.rc_spread.specs.Known.{MayOnward};
    ghost use Rattle.rc_spread.specs.Onward.{onward};

    ghost count = { λ g. length g.out.now };

    ghost set_after = { λ g. onward (edge_at g.plane.now) (length g.out.now) };

    ghost ready = { λ g nodes seat. MayOnward nodes seat (edge_at g.plane.now) g.out.now g.everywhere.now };

    fn positions(&self) -> usize {
        self.out.len()
    }

    fn next_set<M: May>(
        &self,
        work: &mut Work<M>,
        nodes: &Nodes<M>,
        sets: &[Ref],
        fresh: &[bool],
        number: u32,
        q: usize,
    ) -> Result<Ref, SetError> {
        let flows = self.out[q].as_slice();
        if number > 0 && are_settled(flows, fresh) {
            return Ok(sets[q]);
        }
        gathered_set(work, nodes, sets, self.everywhere, flows, &[], NEVER)
    }

    ghost stays_ready = { λ g nodes v w keeps ready. onward_kept v w keeps ready };
}
