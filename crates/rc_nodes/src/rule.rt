//! The rule under which callers share the words: what a good table is, and what a single step tells the seat that takes it.
ghost use Rattle.std.specs.Prelude.{◌≡◌};

use crate::may::May;
use atomic_table::{Join, Play, Split, TableRule};
use std::marker::{Model, PhantomData};
use std::snapshot::Snapshot;

/// What a table is told when it is made, and its rule reads from then on.
#[derive(Drop)]
pub struct Plan<M: May> {
    pub capacity: u32,
    pub may: Snapshot<M>,
}

/// What a seat knows. It is seen by contracts alone: no value of it is made.
pub struct Knowledge {
    nothing: (),
}

impl Model for Knowledge {
    ghost use Rattle.std.specs.Prelude.{[]};
    ghost use Rattle.rc_nodes.specs.Views.{View, view_code, fresh};

    ghost Value = { View };

    ghost coded = { view_code };

    ghost view = { λ _. fresh 0 [] };
}

/// The table is in a good state between any two steps.
pub struct NodeRule<M> {
    marker: PhantomData<M>,
}

impl<M: May> TableRule<(), Knowledge, Plan<M>> for NodeRule<M> {
    ghost use Rattle.rc_nodes.specs.Good.{Good};
    ghost use Rattle.rc_nodes.specs.Views.{fresh};

    ghost holds = { λ plan. Good plan.capacity (M.trees plan.may.value) };

    ghost first = { λ plan. fresh plan.capacity (M.trees plan.may.value) };
}

/// A word is read.
pub struct Look;

impl Play<(), Knowledge> for Look {
    ghost use Rattle.rc_nodes.specs.Views.{Looked};

    ghost then = { λ step me found after. (after.1 ≡ me.1) × Looked step.word me.0 found after.0 };
}

/// A word is exchanged for a node's, where it is 0.
pub struct Claim;

impl Play<(), Knowledge> for Claim {
    ghost use Rattle.rc_nodes.specs.Views.{Claimed};

    ghost then = { λ step me found after. (after.1 ≡ me.1) × Claimed step.word step.second me.0 found after.0 };
}

/// A seat is split in two that know the same, or two are joined in one that knows what both knew.
pub struct Halves;

impl Split<Knowledge> for Halves {
    ghost use Rattle.rc_nodes.specs.Views.{moved};

    ghost left = { moved };

    ghost right = { moved };
}

impl Join<Knowledge> for Halves {
    ghost use Rattle.rc_nodes.specs.Views.{joined, spent_view};

    ghost both = { joined };

    ghost spent = { spent_view };
}
