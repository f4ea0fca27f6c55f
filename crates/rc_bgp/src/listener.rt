//! The receiver of a session, which is told one path after another.
ghost use Rattle.std.specs.Prelude.{◌≡◌, IfOk, IfSome, OnOk, option_and_then, option_map};
ghost use Rattle.std.specs.Option.{option_copied, option_or};
ghost use Rattle.rc_route.specs.Paths.{for_prefix};
ghost use Rattle.rc_bgp.specs.Candidates.{heard_at, reachable};
ghost use Rattle.rc_bgp.specs.Listening.{heard, without_metric};
ghost use Rattle.rc_bgp_session.specs.Passed.{passed};
ghost use Rattle.rc_bgp_session.specs.Passing.{export, import, originated_default};

use crate::Session;
use crate::resolver::Resolver;
use rc_base::Prefix;
use rc_bgp_session::{LastAsPath, asks_no_prefix, originated_default, passed, taken};
use rc_config::Network;
use rc_route::{BgpPath, KeptPath};
use std::alloc::{AllocError, Global};
use std::marker::Model;

/// What the receiver of a session made of the path that it was told last, on a session that asks no prefix.
struct Heard {
    told: KeptPath,
    /// Mostly with the metric of the route to its next hop; `None` where it didn't take the path.
    made: Option<KeptPath>,
}

/// By a function of its own, so that what holds one drops it by one call.
impl Drop for Heard {
    fn drop(self) {
        let Heard { told: _, made: _ } = self;
    }
}

/// The receiver of a session.
///
/// The prefixes of one origin mostly stand side by side, and come with the same attributes: where the session asks no prefix, what was
/// made of the path before is made of the next one too.
pub(crate) struct Listener<'a> {
    net: &'a Network,
    session: &'a Session,
    asks_no_prefix: bool,
    last: Option<Heard>,
    last_as_path: LastAsPath,
}

/// By a function of its own, so that what holds one drops it by one call.
impl<'a> Drop for Listener<'a> {
    fn drop(self) {
        let Listener {
            net: _,
            session: _,
            asks_no_prefix: _,
            last: _,
            last_as_path: _,
        } = self;
    }
}

impl<'a> Model for Listener<'a> {
    ghost use Rattle.rc_bgp.specs.Listening.{Hearer, IsHearer};

    ghost Value = { Hearer };

    ghost view = { λ l. record { net = l.net.now; session = l.session.now } };

    ghost invariant = { λ l. IsHearer l.net.now l.session.now l.asks_no_prefix l.last };
}

/// A path for another prefix, with this metric of the route to its next hop. It takes memory only where the path has another metric.
fn with_metric(
    alloc: Global,
    path: &KeptPath,
    prefix: Prefix,
    metric: u32,
) -> Result<KeptPath, AllocError>
    ensures { IfOk result (λ made. made ≡ record (for_prefix prefix path.now) { igp_metric = metric }) }
{
    if path.igp_metric() == metric {
        return path.for_prefix(prefix);
    }
    let mut made = path.whole()?;
    made.prefix = prefix;
    made.igp_metric = metric;
    KeptPath::of(alloc, made)
}

/// A path for another prefix, with the metric of the route to its next hop, where that resolves.
fn reached_again(
    alloc: Global,
    resolver: &mut Resolver<'_>,
    path: &KeptPath,
    prefix: Prefix,
) -> Result<Option<KeptPath>, AllocError>
    ensures value { IfOk result (λ made. made ≡ reachable resolver.old (for_prefix prefix path.now)) }
    ensures same { OnOk result (resolver.new ≡ resolver.old) }
{
    let metric = resolver.metric_to(alloc, path.next_hop())?;
    match metric {
        None => Ok(None),
        Some(metric) => {
            let made = with_metric(alloc, path, prefix, metric)?;
            Ok(Some(made))
        }
    }
}

/// What was made of a path, for another prefix.
fn made_again(
    alloc: Global,
    resolver: &mut Resolver<'_>,
    made: &Option<KeptPath>,
    prefix: Prefix,
) -> Result<Option<KeptPath>, AllocError>
    ensures value { IfOk result (λ again. again ≡ option_and_then (reachable resolver.old) (option_map (for_prefix prefix) made.now)) }
    ensures same { OnOk result (resolver.new ≡ resolver.old) }
{
    match made {
        None => Ok(None),
        Some(path) => reached_again(alloc, resolver, path, prefix),
    }
}

/// A path that was taken, to be kept, and what is heard of it: the same where its next hop resolves, with the metric of the route there.
fn reached(
    alloc: Global,
    resolver: &mut Resolver<'_>,
    path: BgpPath,
) -> Result<(KeptPath, Option<KeptPath>), AllocError>
    ensures kept { IfOk result (λ made. without_metric made.0 ≡ without_metric path) }
    ensures heard { IfOk result (λ made. made.1 ≡ reachable resolver.old path) }
    ensures same { OnOk result (resolver.new ≡ resolver.old) }
{
    let metric = resolver.metric_to(alloc, path.next_hop)?;
    match metric {
        None => {
            let kept = KeptPath::of(alloc, path)?;
            Ok((kept, None))
        }
        Some(metric) => {
            let mut made = path;
            made.igp_metric = metric;
            let kept = KeptPath::of(alloc, made)?;
            let heard = kept.share()?;
            Ok((kept, Some(heard)))
        }
    }
}

impl<'a> Listener<'a> {
    /// The receiver of a session, which was told nothing yet.
    pub fn new(net: &'a Network, session: &'a Session) -> Listener<'a>
        ensures { result ≡ record { net = net.now; session = session.now } }
    {
        Listener {
            net,
            session,
            asks_no_prefix: asks_no_prefix(net, session),
            last: None,
            last_as_path: LastAsPath::new(),
        }
    }

    /// Keeps what was made of a path, where the session asks no prefix.
    fn keep(&mut self, told: &KeptPath, made: Option<KeptPath>) -> Result<(), AllocError>
        requires { option_map without_metric made ≡ option_map without_metric (passed self.old.net self.old.session told.now) }
        ensures { OnOk result (self.new ≡ self.old) }
    {
        if !self.asks_no_prefix {
            return Ok(());
        }
        let told = told.share()?;
        self.last = Some(Heard { told, made });
        Ok(())
    }

    /// What is made of a path in whole.
    fn passed(&mut self, alloc: Global, told: &KeptPath) -> Result<Option<BgpPath>, AllocError>
        ensures value { IfOk result (λ made. made ≡ passed self.old.net self.old.session told.now) }
        ensures same { OnOk result (self.new ≡ self.old) }
    {
        let path = told.whole()?;
        passed(alloc, &mut self.last_as_path, self.net, self.session, &path)
    }

    /// What it hears of a path, which is made anew.
    fn hear_anew(
        &mut self,
        alloc: Global,
        resolver: &mut Resolver<'_>,
        told: &KeptPath,
    ) -> Result<Option<KeptPath>, AllocError>
        ensures value { IfOk result (λ made. made ≡ heard self.old.net resolver.old self.old.session told.now) }
        ensures same { OnOk result (self.new ≡ self.old) }
        ensures same_resolver { OnOk result (resolver.new ≡ resolver.old) }
    {
        let path = self.passed(alloc, told)?;
        match path {
            None => {
                self.keep(told, None)?;
                Ok(None)
            }
            Some(path) => {
                let (kept, heard) = reached(alloc, resolver, path)?;
                self.keep(told, Some(kept))?;
                Ok(heard)
            }
        }
    }

    /// What it hears of a path that is the last one but for the prefix; `None` where it isn't.
    #[tactic(auto, using(crate::proofs::HearLaws::heard_again))]
    fn again(
        &self,
        alloc: Global,
        resolver: &mut Resolver<'_>,
        told: &KeptPath,
    ) -> Result<Option<Option<KeptPath>>, AllocError>
        ensures value { IfOk result (λ found. IfSome found (λ made. made ≡ heard self.now.net resolver.old self.now.session told.now)) }
        ensures same_resolver { OnOk result (resolver.new ≡ resolver.old) }
    {
        match &self.last {
            None => Ok(None),
            Some(last) => {
                if !last.told.is_like(told) {
                    return Ok(None);
                }
                let made = made_again(alloc, resolver, &last.made, told.prefix())?;
                Ok(Some(made))
            }
        }
    }

    /// What it hears of a path of the sender.
    pub fn hear(
        &mut self,
        alloc: Global,
        resolver: &mut Resolver<'_>,
        told: &KeptPath,
    ) -> Result<Option<KeptPath>, AllocError>
        ensures value { IfOk result (λ made. made ≡ heard self.old.net resolver.old self.old.session told.now) }
        ensures same { OnOk result (self.new ≡ self.old) }
        ensures same_resolver { OnOk result (resolver.new ≡ resolver.old) }
    {
        let again = self.again(alloc, resolver, told)?;
        match again {
            Some(made) => Ok(made),
            None => self.hear_anew(alloc, resolver, told),
        }
    }

    /// What it hears of the sender's best path, if there is one.
    fn hear_best(
        &mut self,
        alloc: Global,
        resolver: &mut Resolver<'_>,
        best: Option<&KeptPath>,
    ) -> Result<Option<KeptPath>, AllocError>
        ensures value { IfOk result (λ made. made ≡ option_and_then (reachable resolver.old) (option_and_then (import self.old.net self.old.session) (option_and_then (export self.old.net self.old.session) (option_copied best.entry)))) }
        ensures same { OnOk result (self.new ≡ self.old) }
        ensures same_resolver { OnOk result (resolver.new ≡ resolver.old) }
    {
        match best {
            None => Ok(None),
            Some(told) => self.hear(alloc, resolver, told),
        }
    }

    /// What it hears of a path as it goes over the session.
    fn take(
        &self,
        alloc: Global,
        resolver: &mut Resolver<'_>,
        path: BgpPath,
    ) -> Result<Option<KeptPath>, AllocError>
        ensures value { IfOk result (λ made. made ≡ option_and_then (reachable resolver.old) (import self.now.net self.now.session path)) }
        ensures same_resolver { OnOk result (resolver.new ≡ resolver.old) }
    {
        let path = taken(alloc, self.net, self.session, path)?;
        match path {
            None => Ok(None),
            Some(path) => {
                let (_, heard) = reached(alloc, resolver, path)?;
                Ok(heard)
            }
        }
    }

    /// What it hears for 0.0.0.0/0, where this is the sender's best path.
    fn hear_default(
        &mut self,
        alloc: Global,
        resolver: &mut Resolver<'_>,
        best: Option<&KeptPath>,
    ) -> Result<Option<KeptPath>, AllocError>
        ensures value { IfOk result (λ made. made ≡ option_and_then (reachable resolver.old) (option_and_then (import self.old.net self.old.session) (option_or (originated_default self.old.net self.old.session) (option_and_then (export self.old.net self.old.session) (option_copied best.entry))))) }
        ensures same { OnOk result (self.new ≡ self.old) }
        ensures same_resolver { OnOk result (resolver.new ≡ resolver.old) }
    {
        let default = originated_default(alloc, self.net, self.session)?;
        match default {
            Some(path) => self.take(alloc, resolver, path),
            None => self.hear_best(alloc, resolver, best),
        }
    }

    /// What it hears for a prefix, where this is the sender's best path.
    pub fn hear_for(
        &mut self,
        alloc: Global,
        resolver: &mut Resolver<'_>,
        best: Option<&KeptPath>,
        prefix: &Prefix,
    ) -> Result<Option<KeptPath>, AllocError>
        ensures value { IfOk result (λ made. made ≡ heard_at self.old.net resolver.old self.old.session prefix.now (option_copied best.entry)) }
        ensures same { OnOk result (self.new ≡ self.old) }
        ensures same_resolver { OnOk result (resolver.new ≡ resolver.old) }
    {
        if prefix.is_default() {
            self.hear_default(alloc, resolver, best)
        } else {
            self.hear_best(alloc, resolver, best)
        }
    }
}
