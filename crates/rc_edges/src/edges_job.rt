//! The making of all edges and endings, as a job for workers.
use crate::worker_shares::share_of;
use rc_base::Ends;
use rc_bdd::{SetError, Work};
use rc_jobs::{Collected, Job};
use rc_moves::Plane;
use rc_nodes::{May, Nodes};
use rc_places::Places;
use std::alloc::{AllocError, Global};

/// The positions of a plane, of which the edges and the endings asked for are to be made.
#[derive(Drop)]
pub struct Sharing<'a> {
    pub plane: &'a Plane<'a>,
    pub places: &'a Places<'a>,
    pub ends: Ends,
}

impl<'a> Job for Sharing<'a> {
    ghost use Rattle.std.specs.Prelude.{length};
    ghost use Rattle.rc_config.specs.Members.{positions};
    ghost use Rattle.rc_edges.specs.Shares.{IsReady, IsShare};
    ghost use Rattle.rc_jobs.specs.Kept.{collected_kept};

    type Made = Collected;

    ghost count = { λ s. length (positions s.places.now) };

    ghost ready = { λ s nodes seat. IsReady nodes s.plane.now s.places.now s.ends };

    ghost knows = { λ s seat a b share. IsShare seat s.plane.now s.ends a b share };

    fn items(&self) -> usize {
        self.places.len()
    }

    fn share<M: May>(
        &self,
        alloc: Global,
        work: &mut Work<M>,
        nodes: &Nodes<M>,
        from: usize,
        to: usize,
    ) -> Result<Collected, SetError> {
        share_of(
            alloc,
            work,
            nodes,
            self.plane,
            self.places,
            self.ends,
            from,
            to,
        )
    }

    fn together(&self, left: Collected, right: Collected) -> Result<Collected, AllocError> {
        left.with(right)
    }

    ghost stays_ready = { λ s nodes v w keeps ready. ready };

    ghost stays_known = { λ s v w a b share keeps known. collected_kept v w keeps known };
}
