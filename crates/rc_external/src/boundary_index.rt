//! Paths to AS boundary routers, found by router.
ghost use Rattle.std.specs.Prelude.{◌≡◌, ◌==◌, ℕ, ◌<◌, Some, if◌then◌else◌, IfOk, OnOk, length};
ghost use Rattle.std.specs.Option.{option_copied};
ghost use Rattle.rc_external.specs.BoundaryIndex.{ArePlaces, place_at};
ghost use Rattle.rc_external.specs.Ways as ways;

use rc_base::RouterId;
use rc_ospf::Boundary;
use std::alloc::{AllocError, Global};
use std::marker::Model;

/// The paths of a router to the AS boundary routers, each of which is found at once. Contracts see it as their list.
pub(crate) struct BoundaryIndex<'a> {
    paths: &'a [Boundary],
    /// By router: the place of the first path to it.
    places: Vec<Option<usize>>,
}

/// By a function of its own, so that what holds an index drops it by one call.
impl<'a> Drop for BoundaryIndex<'a> {
    fn drop(self) {
        let BoundaryIndex {
            paths: _,
            places: _,
        } = self;
    }
}

impl<'a> Model for BoundaryIndex<'a> {
    ghost use Rattle.std.specs.Prelude.{List};
    ghost use Rattle.rc_ospf.specs.BoundaryPaths.{BoundaryPath};
    ghost use Rattle.rc_external.specs.BoundaryIndex.{ArePlaces};

    ghost Value = { List BoundaryPath };

    ghost view = { λ x. x.paths.now };

    ghost invariant = { λ x. ArePlaces x.paths.now x.paths.now x.places.items };
}

/// The place of the path to a router, none past the end.
fn place_at(places: &[Option<usize>], router: RouterId) -> Option<usize>
    ensures { result ≡ place_at places.now router }
{
    let found = places.get(router.index());
    match found {
        Some(place) => *place,
        None => None,
    }
}

/// Makes room for the place of a router.
fn make_room(places: &mut Vec<Option<usize>>, router: RouterId) -> Result<(), AllocError>
    ensures room { OnOk result (router < length places.new.items) }
    ensures same { OnOk result ((s : ℕ) → place_at places.new.items s ≡ place_at places.old.items s) }
{
    while places.len() <= router.index() {
        places.push(None)?;
    }
    Ok(())
}

/// Notes the place of the path to a router.
fn note(places: &mut Vec<Option<usize>>, router: RouterId, place: usize) -> Result<(), AllocError>
    ensures { OnOk result ((s : ℕ) → place_at places.new.items s ≡ (if router == s then Some place else place_at places.old.items s)) }
{
    make_room(places, router)?;
    places[router.index()] = Some(place);
    Ok(())
}

/// By router: the place of the first path to it.
fn places_of(alloc: Global, paths: &[Boundary]) -> Result<Vec<Option<usize>>, AllocError>
    ensures { IfOk result (λ places. ArePlaces paths.now paths.now places.items) }
{
    let mut places = Vec::new(alloc);
    let mut left = paths.len();
    while left > 0 {
        left -= 1;
        note(&mut places, paths[left].router(), left)?;
    }
    Ok(places)
}

impl<'a> BoundaryIndex<'a> {
    /// Paths by router. It errs only where memory runs out.
    pub fn of(alloc: Global, paths: &'a [Boundary]) -> Result<BoundaryIndex<'a>, AllocError>
        ensures { IfOk result (λ index. index ≡ paths.now) }
    {
        let places = places_of(alloc, paths)?;
        Ok(BoundaryIndex { paths, places })
    }

    /// The path to a router, where there is one.
    pub fn path_to(&self, router: RouterId) -> Option<&Boundary>
        ensures { option_copied result ≡ ways.path_to self.now router }
    {
        let found = place_at(self.places.as_slice(), router);
        match found {
            Some(place) => self.paths.get(place),
            None => None,
        }
    }
}
