//! The prefixes of an interface.
ghost use Rattle.std.specs.Prelude.{◌≡◌, [], ◌++◌, IfOk, OnOk, map};
ghost use Rattle.std.specs.List.{list_any};
ghost use Rattle.std.specs.List.Sorted.{IsStrictlySortedBy};
ghost use Rattle.std.specs.BTreeSet.{keys, insert_key};
ghost use Rattle.rc_base.specs.Lists.{in_order};
ghost use Rattle.rc_base.specs.Prefix.{contains, prefix_cmp, same_prefix};
ghost use Rattle.rc_config.specs.Down.{prefix_of};
ghost use Rattle.rc_topology.specs.Ports.{some_is_in};

use rc_base::{Addr, Items, Prefix};
use rc_config::IfAddr;
use std::alloc::{AllocError, Global};
use std::collections::BTreeSet;
use std::marker::Model;

/// Prefixes, seen as their list: by address, then length, each once.
#[derive(Drop)]
pub struct PrefixSet {
    prefixes: Items<Prefix>,
}

impl Model for PrefixSet {
    ghost use Rattle.std.specs.Prelude.{List};
    ghost use Rattle.std.specs.List.Sorted.{IsStrictlySortedBy};
    ghost use Rattle.rc_base.specs.Prefix.{Cidr, prefix_cmp};

    ghost Value = { List Cidr };

    ghost view = { λ s. s.prefixes };

    ghost invariant = { λ s. IsStrictlySortedBy prefix_cmp s.prefixes };
}

/// Puts a prefix into a set.
fn insert(set: &mut BTreeSet<Prefix>, prefix: Prefix) -> Result<(), AllocError>
    ensures { OnOk result (keys set.new ≡ insert_key prefix_cmp (keys set.old) prefix) }
{
    set.insert(prefix)?;
    Ok(())
}

/// The prefixes of some addresses, as a set.
fn prefixes_of(alloc: Global, addresses: &[IfAddr]) -> Result<BTreeSet<Prefix>, AllocError>
    ensures { IfOk result (λ set. keys set ≡ in_order prefix_cmp (map prefix_of addresses.now)) }
{
    let mut set = BTreeSet::new(alloc);
    for address in addresses {
        insert(&mut set, address.prefix())?;
    }
    Ok(set)
}

/// The prefixes of a set as a list.
fn listed(alloc: Global, set: BTreeSet<Prefix>) -> Result<Items<Prefix>, AllocError>
    ensures { IfOk result (λ prefixes. prefixes ≡ keys set) }
{
    let mut prefixes = Items::new(alloc);
    for prefix in set {
        prefixes.push(prefix)?;
    }
    Ok(prefixes)
}

/// Whether a prefix is one of a list that is in order, by bisection.
fn is_in(prefix: &Prefix, prefixes: &[Prefix]) -> bool
    requires { IsStrictlySortedBy prefix_cmp prefixes.now }
    ensures { result ≡ list_any (same_prefix prefix.now) prefixes.now }
{
    prefixes.binary_search(prefix).is_ok()
}

/// Whether some prefix of the first list is one of the second, which is in order.
fn some_is_in(prefixes: &[Prefix], ordered: &[Prefix]) -> bool
    requires { IsStrictlySortedBy prefix_cmp ordered.now }
    ensures { result ≡ some_is_in prefixes.now ordered.now }
{
    for prefix in prefixes {
        if is_in(prefix, ordered) {
            return true;
        }
    }
    false
}

impl PrefixSet {
    /// No prefix. It takes no memory.
    #[tactic(auto, using(crate::proofs::PrefixLaws::none_in_order))]
    pub(crate) fn new(alloc: Global) -> PrefixSet
        ensures { result ≡ [] }
    {
        PrefixSet {
            prefixes: Items::new(alloc),
        }
    }

    /// The prefixes of some addresses.
    pub(crate) fn of(alloc: Global, addresses: &[IfAddr]) -> Result<PrefixSet, AllocError>
        ensures { IfOk result (λ set. set ≡ in_order prefix_cmp (map prefix_of addresses.now)) }
    {
        let set = prefixes_of(alloc, addresses)?;
        let prefixes = listed(alloc, set)?;
        Ok(PrefixSet { prefixes })
    }

    /// Its prefixes, by address, then length.
    pub(crate) fn as_slice(&self) -> &[Prefix]
        ensures { result.now ≡ self.now }
    {
        self.prefixes.as_slice()
    }

    /// Whether a prefix is one of them, by bisection.
    pub(crate) fn has(&self, prefix: &Prefix) -> bool
        ensures { result ≡ list_any (same_prefix prefix.now) self.now }
    {
        is_in(prefix, self.prefixes.as_slice())
    }

    /// Whether an address lies in one of them.
    pub(crate) fn holds(&self, addr: Addr) -> bool
        ensures { result ≡ list_any (λ x. contains x addr) self.now }
    {
        self.prefixes.as_slice().iter().any(|x| x.contains(addr))
    }

    /// Whether some prefix is one of both sets. Those of the smaller one are looked up in the other.
    #[tactic(auto, using(crate::proofs::PrefixLaws::some_is_in_turned))]
    pub(crate) fn shares(&self, other: &PrefixSet) -> bool
        ensures { result ≡ some_is_in self.now other.now }
    {
        let (these, others) = (self.prefixes.as_slice(), other.prefixes.as_slice());
        if these.len() <= others.len() {
            some_is_in(these, others)
        } else {
            some_is_in(others, these)
        }
    }
}
