//! The routers of a network, which several networks hold together.
ghost use Rattle.std.specs.Prelude.{◌≡◌, IfOk, length, slice_get};
ghost use Rattle.std.specs.Option.{option_map};
ghost use Rattle.rc_config.specs.Named.{index_of};

use crate::{Named, RouterText};
use rc_base::Name;
use std::alloc::{AllocError, Global};
use std::marker::Model;
use std::sync::Arc;

/// The models of files under their host names, seen as their list. What holds them may lend them for as long as it lives to any thread,
/// and the last one that holds them drops them.
pub struct Routers {
    named: Arc<Named<RouterText>, Global>,
}

/// By a function of its own, so that what holds routers drops them by one call.
impl Drop for Routers {
    fn drop(self) {
        let Routers { named: _ } = self;
    }
}

impl Model for Routers {
    ghost use Rattle.std.specs.Arc.{arc_value};
    ghost use Rattle.std.specs.Prelude.{List, ℕ};
    ghost use Rattle.rc_config.specs.declared.router_text.RouterText.{RouterText};

    ghost Value = { List (List ℕ × RouterText) };

    ghost view = { λ r. arc_value r.named };
}

impl Routers {
    /// The routers of these names.
    pub(crate) fn of(alloc: Global, named: Named<RouterText>) -> Result<Routers, AllocError>
        ensures { IfOk result (λ r. r ≡ named) }
    {
        let Ok(named) = Arc::new(alloc, named) else {
            return Err(AllocError);
        };
        Ok(Routers { named })
    }

    /// The same routers once more. It takes no memory, and errs only where they are held too often to be counted.
    pub(crate) fn shared(&self) -> Result<Routers, AllocError>
        ensures { IfOk result (λ r. r ≡ self.now) }
    {
        let named = Arc::try_clone(&self.named)?;
        Ok(Routers { named })
    }

    /// How many routers there are.
    pub fn len(&self) -> usize
        ensures { result ≡ length self.now }
    {
        self.named.len()
    }

    /// The index of a router by its host name, counted from 0, or `None` exactly where there is none.
    pub fn index_of(&self, name: &Name) -> Option<usize>
        ensures { result ≡ index_of self.now name.now }
    {
        self.named.index_of(name)
    }

    /// The host name and the model of the router at an index, or `None` exactly past the end.
    pub fn at(&self, index: usize) -> Option<(&Name, &RouterText)>
        ensures { option_map (λ p. (p.0.now, p.1.now)) result ≡ slice_get self.now index }
    {
        self.named.at(index)
    }
}
