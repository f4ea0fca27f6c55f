//! What a table is made for.
ghost use Rattle.std.specs.Prelude.{List};
ghost use Rattle.rc_trees.specs.Trees.{Tree};

use rc_base::Prefix;

/// A value that stands for a list of trees, those that a table may hold. Contracts name the list; no run computes it.
pub trait May {
    ghost trees: { Self → List Tree };
}

/// The trees of the destinations under some prefixes: the nodes of each prefix's chain.
#[derive(Drop)]
pub struct Chains<'a> {
    pub prefixes: &'a [Prefix],
}

impl<'a> May for Chains<'a> {
    ghost use Rattle.rc_trees.specs.Fields.{chain_nodes};

    ghost trees = { λ chains. chain_nodes chains.prefixes.now };
}
