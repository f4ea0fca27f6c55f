//! Paths as routers keep them.
ghost use Rattle.std.specs.Prelude.{◌≡◌, ◌↔◌, IfOk, IsTrue};
ghost use Rattle.rc_route.specs.Paths.{for_prefix};

use crate::{BgpPath, PathSource};
use rc_as_path::AsPath;
use rc_base::{Addr, Prefix};
use std::alloc::{AllocError, Global};
use std::marker::Model;
use std::sync::Arc;

/// A path as routers keep it, seen as the path: all but its prefix stands behind one count.
///
/// The prefixes that one router originates mostly reach another one with the same attributes (RFC 4271 s.5), which then stand in memory
/// once; a copy is one count.
pub struct KeptPath {
    prefix: Prefix,
    /// A path that is this one but for its prefix.
    like: Arc<BgpPath, Global>,
}

/// By a function of its own, so that what holds paths drops each by one call.
impl Drop for KeptPath {
    fn drop(self) {
        let KeptPath { prefix: _, like: _ } = self;
    }
}

impl Model for KeptPath {
    ghost use Rattle.std.specs.Arc.{arc_value};
    ghost use Rattle.rc_route.specs.Paths.{for_prefix};
    ghost use Rattle.rc_route.specs.declared.path.BgpPath.{BgpPath};

    ghost Value = { BgpPath };

    ghost view = { λ k. for_prefix k.prefix (arc_value k.like) };
}

impl KeptPath {
    /// A path, to be kept. It errs only where memory runs out.
    pub fn of(alloc: Global, path: BgpPath) -> Result<KeptPath, AllocError>
        ensures { IfOk result (λ kept. kept ≡ path) }
    {
        let prefix = path.prefix;
        let like = Arc::new(alloc, path)?;
        Ok(KeptPath { prefix, like })
    }

    /// The same path for another prefix, which shares all else of this one. It takes no memory, and errs only where as many hold that as
    /// can be counted.
    pub fn for_prefix(&self, prefix: Prefix) -> Result<KeptPath, AllocError>
        ensures { IfOk result (λ made. made ≡ for_prefix prefix self.now) }
    {
        let like = Arc::try_clone(&self.like)?;
        Ok(KeptPath { prefix, like })
    }

    /// The path again. It errs as `for_prefix` does.
    pub fn share(&self) -> Result<KeptPath, AllocError>
        ensures { IfOk result (λ shared. shared ≡ self.now) }
    {
        self.for_prefix(self.prefix)
    }

    /// The path in one piece, which shares the AS path and the communities of this one. It takes no memory, and errs only where as many
    /// hold these as can be counted.
    pub fn whole(&self) -> Result<BgpPath, AllocError>
        ensures { IfOk result (λ path. path ≡ self.now) }
    {
        let mut path = self.like.copy()?;
        path.prefix = self.prefix;
        Ok(path)
    }

    /// A path that is this one but for its prefix.
    pub fn like(&self) -> &BgpPath
        ensures { for_prefix self.now.prefix result.now ≡ self.now }
    {
        &self.like
    }

    /// Whether this path is another one but for the prefix.
    pub fn is_like(&self, other: &KeptPath) -> bool
        ensures { IsTrue result ↔ (for_prefix other.now.prefix self.now ≡ other.now) }
    {
        self.like.is_like(&other.like)
    }

    /// Whether two paths are the same.
    pub fn is_same(&self, other: &KeptPath) -> bool
        ensures { IsTrue result ↔ (self.now ≡ other.now) }
    {
        self.prefix == other.prefix && self.like.is_like(&other.like)
    }

    /// The prefix.
    pub fn prefix(&self) -> Prefix
        ensures { result ≡ self.now.prefix }
    {
        self.prefix
    }

    /// NEXT_HOP (RFC 4271 s.5.1.3).
    pub fn next_hop(&self) -> Addr
        ensures { result ≡ self.now.next_hop }
    {
        self.like.next_hop
    }

    /// MULTI_EXIT_DISC (RFC 4271 s.5.1.4).
    pub fn med(&self) -> u32
        ensures { result ≡ self.now.med }
    {
        self.like.med
    }

    /// How the router came to the path.
    pub fn source(&self) -> PathSource
        ensures { result ≡ self.now.source }
    {
        self.like.source
    }

    /// The metric of the route to the next hop.
    pub fn igp_metric(&self) -> u32
        ensures { result ≡ self.now.igp_metric }
    {
        self.like.igp_metric
    }

    /// The BGP identifier of the sender.
    pub fn sender_id(&self) -> Addr
        ensures { result ≡ self.now.sender_id }
    {
        self.like.sender_id
    }

    /// The address of the sender on the session.
    pub fn neighbor(&self) -> Addr
        ensures { result ≡ self.now.neighbor }
    {
        self.like.neighbor
    }

    /// AS_PATH (RFC 4271 s.5.1.2).
    pub fn as_path(&self) -> &AsPath
        ensures { result.now ≡ self.now.as_path }
    {
        &self.like.as_path
    }
}
