//! What a router hears for a prefix.
ghost use Rattle.std.specs.Prelude.{◌≡◌, ◌∷◌, ◌++◌, [], All, IfOk, OnOk};
ghost use Rattle.std.specs.Option.{option_copied, option_to_list};
ghost use Rattle.rc_route.specs.Tables.{IsBestList, IsPathList, best_path_for};
ghost use Rattle.rc_bgp.specs.Candidates as spec;
ghost use Rattle.rc_bgp.specs.Listening.{candidates_by};
ghost use Rattle.rc_bgp.specs.RouterStates.{path_at};

use crate::resolver::Resolver;
use crate::senders::Senders;
use rc_base::{Items, Prefix};
use rc_pieces::Listed;
use rc_route::{Best, BgpPath, KeptPath, listed_at};
use std::alloc::{AllocError, Global};

/// The best path for a prefix.
pub(crate) fn best_path_for<'a>(paths: &Listed<'a, Best>, prefix: &Prefix) -> Option<&'a KeptPath>
    requires { IsBestList paths.now }
    ensures { option_copied result ≡ best_path_for paths.now prefix.now }
{
    let found = paths.at(prefix);
    match found {
        Some(best) => Some(&best.path),
        None => None,
    }
}

/// One path more, if there is one.
fn push_some(paths: &mut Vec<KeptPath>, path: Option<KeptPath>) -> Result<(), AllocError>
    ensures { OnOk result (paths.new.items ≡ paths.old.items ++ option_to_list path) }
{
    match path {
        Some(path) => paths.push(path)?,
        None => {}
    }
    Ok(())
}

/// One path more, to be kept.
fn push_kept(alloc: Global, paths: &mut Vec<KeptPath>, path: &BgpPath) -> Result<(), AllocError>
    ensures { OnOk result (paths.new.items ≡ paths.old.items ++ path.now ∷ []) }
{
    let kept = KeptPath::of(alloc, path.copy()?)?;
    paths.push(kept)?;
    Ok(())
}

/// The path for a prefix, to be kept, if there is one. Mostly there is none: what takes room stands by itself.
fn push_at(
    alloc: Global,
    made: &mut Vec<KeptPath>,
    paths: &[BgpPath],
    prefix: &Prefix,
) -> Result<(), AllocError>
    requires { IsPathList paths.now }
    ensures { OnOk result (made.new.items ≡ made.old.items ++ option_to_list (path_at paths.now prefix.now)) }
{
    let found = listed_at(paths, prefix);
    match found {
        None => Ok(()),
        Some(path) => push_kept(alloc, made, path),
    }
}

/// Puts the paths that a router originates for a prefix at the end.
fn add_own_at(
    alloc: Global,
    made: &mut Vec<KeptPath>,
    own: &[Items<BgpPath>],
    prefix: &Prefix,
) -> Result<(), AllocError>
    requires { All IsPathList own.now }
    ensures { OnOk result (made.new.items ≡ made.old.items ++ spec.own_at own.now prefix.now) }
{
    for paths in own {
        push_at(alloc, made, paths.as_slice(), prefix)?;
    }
    Ok(())
}

/// Makes a list that of the candidates of a router for a prefix: what it originates, and what it hears of each sender. The list is lent, so
/// that the candidates for the next prefix stand where these stood.
pub(crate) fn candidates_at(
    alloc: Global,
    resolver: &mut Resolver<'_>,
    own: &[Items<BgpPath>],
    senders: &mut Senders<'_>,
    prefix: &Prefix,
    paths: &mut Vec<KeptPath>,
) -> Result<(), AllocError>
    requires own { All IsPathList own.now }
    ensures value { OnOk result (paths.new.items ≡ candidates_by resolver.old own.now senders.old.items prefix.now) }
    ensures same { OnOk result (resolver.new ≡ resolver.old) }
    ensures same_senders { OnOk result (senders.new.items ≡ senders.old.items) }
{
    paths.clear();
    add_own_at(alloc, paths, own, prefix)?;
    for index in 0..senders.len() {
        let path = senders[index].heard(alloc, resolver, prefix)?;
        push_some(paths, path)?;
    }
    Ok(())
}
