//! A prefix in the tree.
ghost use Rattle.rc_trie.specs.declared.row.Row as declared_row;

use rc_base::Prefix;
use rc_route::HasPrefix;

/// A prefix with its value.
#[derive(Clone, Copy)]
pub(crate) struct Row {
    pub prefix: Prefix,
    pub value: usize,
}

impl HasPrefix for Row {
    ghost prefix_of = { λ (r : declared_row.Row). r.prefix };

    fn prefix(&self) -> Prefix {
        self.prefix
    }
}
