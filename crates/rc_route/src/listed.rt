//! What stands in order of prefix, found by prefix.
ghost use Rattle.std.specs.Prelude.{◌≡◌, IfErr, IfOk, None, slice_get};
ghost use Rattle.std.specs.Option.{option_copied};
ghost use Rattle.rc_base.specs.Prefix.{Cidr};
ghost use Rattle.rc_route.specs.Tables.{IsBestList, IsListed, best_path_for, listed_at};
ghost use Rattle.rc_route.specs.declared.best.Best as declared_best;
ghost use Rattle.rc_route.specs.declared.path.BgpPath as declared_path;
ghost use Rattle.rc_route.specs.declared.route.Route as declared_route;

use crate::{Best, BgpPath, KeptPath, Route};
use rc_base::Prefix;

/// What is there for a prefix.
pub trait HasPrefix {
    ghost prefix_of: { Self → Cidr };

    /// The prefix for which it is there.
    fn prefix(&self) -> Prefix
        ensures { result ≡ prefix_of self.now };
}

/// A prefix by itself.
impl HasPrefix for Prefix {
    ghost prefix_of = { λ (p : Cidr). p };

    fn prefix(&self) -> Prefix {
        *self
    }
}

impl HasPrefix for Route {
    ghost prefix_of = { λ (x : declared_route.Route). x.prefix };

    fn prefix(&self) -> Prefix {
        self.prefix
    }
}

impl HasPrefix for BgpPath {
    ghost prefix_of = { λ (x : declared_path.BgpPath). x.prefix };

    fn prefix(&self) -> Prefix {
        self.prefix
    }
}

impl HasPrefix for Best {
    ghost prefix_of = { λ (b : declared_best.Best). b.path.prefix };

    fn prefix(&self) -> Prefix {
        self.path.prefix()
    }
}

/// The place of what is there for a prefix by bisection, or that where it would stand.
fn place_of<T: HasPrefix>(listed: &[T], prefix: &Prefix) -> Result<usize, usize>
    requires { IsListed T.prefix_of listed.now }
    ensures found { IfOk result (λ place. slice_get listed.now place ≡ listed_at T.prefix_of listed.now prefix.now) }
    ensures absent { IfErr result (λ place. None ≡ listed_at T.prefix_of listed.now prefix.now) }
{
    listed.binary_search_by_key(prefix, |it| it.prefix())
}

/// What is there for just this prefix in a list in order of prefix, by bisection.
pub fn listed_at<'a, T: HasPrefix>(listed: &'a [T], prefix: &Prefix) -> Option<&'a T>
    requires { IsListed T.prefix_of listed.now }
    ensures { option_copied result ≡ listed_at T.prefix_of listed.now prefix.now }
{
    match place_of(listed, prefix) {
        Ok(place) => listed.get(place),
        Err(_) => None,
    }
}

/// The best path for a prefix, by bisection.
pub fn best_path_for<'a>(paths: &'a [Best], prefix: &Prefix) -> Option<&'a KeptPath>
    requires { IsBestList paths.now }
    ensures { option_copied result ≡ best_path_for paths.now prefix.now }
{
    let found = listed_at(paths, prefix);
    match found {
        Some(best) => Some(&best.path),
        None => None,
    }
}
