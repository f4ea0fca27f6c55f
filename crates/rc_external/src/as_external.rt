//! Routes from outside of the AS, as AS boundary routers send them.
ghost use Rattle.std.specs.Prelude.{◌≡◌, ◌≤◌};

use rc_base::{Items, Prefix, RouterId};
use rc_config::MetricType;
use std::marker::Model;

/// A prefix that an AS boundary router sends (RFC 2328 s.12.4.4).
#[derive(Clone, Copy)]
pub struct External {
    boundary: RouterId,
    prefix: Prefix,
    metric: u32,
    metric_type: MetricType,
}

impl Model for External {
    ghost use Rattle.rc_external.specs.AsExternal.{AsExternal, HasFiniteMetric};

    ghost Value = { AsExternal };

    ghost view = { λ e. record { boundary = e.boundary; prefix = e.prefix; metric = e.metric; metric_type = e.metric_type } };

    ghost invariant = { λ e. HasFiniteMetric (record { boundary = e.boundary; prefix = e.prefix; metric = e.metric; metric_type = e.metric_type }) };

    ghost inverse = { λ e. record { boundary = e.boundary; prefix = e.prefix; metric = e.metric; metric_type = e.metric_type } };
}

impl External {
    pub(crate) fn new(
        boundary: RouterId,
        prefix: Prefix,
        metric: u32,
        metric_type: MetricType,
    ) -> External
        requires { metric ≤ 16777214 }
        ensures { result ≡ record { boundary = boundary; prefix = prefix; metric = metric; metric_type = metric_type } }
    {
        External {
            boundary,
            prefix,
            metric,
            metric_type,
        }
    }

    /// The router that sends it.
    pub fn boundary(&self) -> RouterId
        ensures { result ≡ self.now.boundary }
    {
        self.boundary
    }

    /// The prefix that it is sent for.
    pub fn prefix(&self) -> Prefix
        ensures { result ≡ self.now.prefix }
    {
        self.prefix
    }

    /// The metric that it is sent with, at most 16777214.
    pub fn metric(&self) -> u32
        ensures value { result ≡ self.now.metric }
        ensures finite { result ≤ 16777214 }
    {
        self.metric
    }

    /// The type of its metric (RFC 2328 s.16.4).
    pub fn metric_type(&self) -> MetricType
        ensures { result ≡ self.now.metric_type }
    {
        self.metric_type
    }
}

/// A prefix with all that is sent for it, in the order of the routers that send it.
pub struct ExternalRow {
    pub prefix: Prefix,
    pub externals: Items<External>,
}

/// By a function of its own, so that what holds rows drops each by one call.
impl Drop for ExternalRow {
    fn drop(self) {
        let ExternalRow {
            prefix: _,
            externals: _,
        } = self;
    }
}

/// What all AS boundary routers send from a state: a row for each prefix, by address, then length.
pub type Externals = Items<ExternalRow>;
