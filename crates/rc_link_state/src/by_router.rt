//! Lists by router.
ghost use Rattle.std.specs.Prelude.{◌≡◌, ◌<◌, [], ◌∷◌, ◌++◌, IfOk, OnOk, length, replicate};
ghost use Rattle.rc_link_state.specs.ByRouter as spec;

use rc_base::{Items, RouterId};
use std::alloc::{AllocError, Global};
use std::marker::Model;

/// A list for each router, seen as the list of these lists.
pub struct ByRouter<T> {
    lists: Vec<Items<T>>,
}

/// By a function of its own, so that what holds such lists drops them by one call.
impl<T: Drop> Drop for ByRouter<T> {
    fn drop(self) {
        let ByRouter { lists: _ } = self;
    }
}

impl<T> Model for ByRouter<T> {
    ghost use Rattle.std.specs.Prelude.{List};

    ghost Value = { List (List T) };

    ghost view = { λ b. b.lists.items };
}

impl<T: Drop> ByRouter<T> {
    /// An empty list for each of so many routers. It errs only where memory runs out.
    pub(crate) fn of_none(alloc: Global, routers: usize) -> Result<ByRouter<T>, AllocError>
        ensures { IfOk result (λ b. b ≡ replicate routers []) }
    {
        let mut lists = Vec::with_capacity(alloc, routers)?;
        for _ in 0..routers {
            lists.push(Items::new(alloc))?;
        }
        Ok(ByRouter { lists })
    }

    /// These lists. It takes no memory.
    pub(crate) fn of_lists(lists: Vec<Items<T>>) -> ByRouter<T>
        ensures { result ≡ lists.items }
    {
        ByRouter { lists }
    }

    /// Puts something at the end of a router's list. It errs only where memory runs out.
    pub(crate) fn put(&mut self, router: RouterId, item: T) -> Result<(), AllocError>
        requires { router < length self.old }
        ensures { OnOk result (self.new ≡ spec.with_item self.old router item) }
    {
        self.lists[router.index()].push(item)
    }
}

impl<T> ByRouter<T> {
    /// What stands under a router; nothing behind the last one.
    pub(crate) fn of_router(&self, router: RouterId) -> &[T]
        ensures { result.now ≡ spec.of_router self.now router }
    {
        let own = self.lists.get(router.index());
        match own {
            Some(own) => own.as_slice(),
            None => &[],
        }
    }
}
