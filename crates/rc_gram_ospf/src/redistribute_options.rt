//! What may stand behind `redistribute` and its source.
ghost use Rattle.std.specs.Prelude.{◌≡◌, ◌≤◌, ◌∷◌, List, Option, Some, IfSome, length};
ghost use Rattle.std.specs.Option.{option_and_then};
ghost use Rattle.rc_openings.specs.Words.{words_left};
ghost use Rattle.rc_gram_ospf.specs.RedistributeOptions as options;

use rc_base::Name;
use rc_config::MetricType;
use rc_openings::{Words, number_in};

/// The options so far, each kind of which stands there at most once.
#[derive(Clone, Copy)]
pub struct RedistributeOptions {
    pub metric: Option<u32>,
    pub metric_type: Option<MetricType>,
    pub subnets: bool,
    pub route_map: Option<Name>,
}

/// The type of external metrics that a word is (RFC 2328 s.2.3).
pub(crate) fn metric_type_of(word: &[u8]) -> Option<MetricType>
    ensures { result ≡ options.metric_type_of word.now }
{
    if word == b"1".as_slice() {
        return Some(MetricType::Type1);
    }
    if word == b"2".as_slice() {
        return Some(MetricType::Type2);
    }
    None
}

impl RedistributeOptions {
    /// The options with the metric that a word is, or `None` exactly where it is none or one stands there already.
    fn with_metric(self, word: &[u8]) -> Option<RedistributeOptions>
        ensures value { (os : Option (List options.RedistributeOption)) → option_and_then (λ more. options.said_behind more os) result ≡ options.said_behind self (options.followed (options.metric_with word.now) os) }
        ensures within { IfSome result (λ o. IfSome o.metric (λ n. n ≤ 16777214)) }
    {
        if self.metric.is_some() {
            return None;
        }
        match number_in(0, 16_777_214, word) {
            Some(metric) => Some(RedistributeOptions {
                metric: Some(metric),
                ..self
            }),
            None => None,
        }
    }

    /// The options with the metric type that a word is, or `None` exactly where it is none or one stands there already.
    fn with_metric_type(self, word: &[u8]) -> Option<RedistributeOptions>
        requires { IfSome self.metric (λ n. n ≤ 16777214) }
        ensures value { (os : Option (List options.RedistributeOption)) → option_and_then (λ more. options.said_behind more os) result ≡ options.said_behind self (options.followed (options.type_with word.now) os) }
        ensures within { IfSome result (λ o. IfSome o.metric (λ n. n ≤ 16777214)) }
    {
        if self.metric_type.is_some() {
            return None;
        }
        match metric_type_of(word) {
            Some(metric_type) => Some(RedistributeOptions {
                metric_type: Some(metric_type),
                ..self
            }),
            None => None,
        }
    }

    /// The options with the route map of a name, or `None` exactly where it is none or one stands there already.
    fn with_route_map(self, word: &[u8]) -> Option<RedistributeOptions>
        requires { IfSome self.metric (λ n. n ≤ 16777214) }
        ensures value { (os : Option (List options.RedistributeOption)) → option_and_then (λ more. options.said_behind more os) result ≡ options.said_behind self (options.followed (options.map_with word.now) os) }
        ensures within { IfSome result (λ o. IfSome o.metric (λ n. n ≤ 16777214)) }
    {
        if self.route_map.is_some() {
            return None;
        }
        match Name::new(word) {
            Some(name) => Some(RedistributeOptions {
                route_map: Some(name),
                ..self
            }),
            None => None,
        }
    }

    /// The options with `subnets`, or `None` exactly where it stands there already.
    fn with_subnets(self) -> Option<RedistributeOptions>
        requires { IfSome self.metric (λ n. n ≤ 16777214) }
        ensures value { (os : Option (List options.RedistributeOption)) → option_and_then (λ more. options.said_behind more os) result ≡ options.said_behind self (options.followed (Some options.Subnets) os) }
        ensures within { IfSome result (λ o. IfSome o.metric (λ n. n ≤ 16777214)) }
    {
        if self.subnets {
            return None;
        }
        Some(RedistributeOptions {
            subnets: true,
            ..self
        })
    }

    /// The options with the one that a word alone is.
    fn with_alone(self, word: &[u8]) -> Option<RedistributeOptions>
        requires { IfSome self.metric (λ n. n ≤ 16777214) }
        ensures value { (os : Option (List options.RedistributeOption)) → option_and_then (λ more. options.said_behind more os) result ≡ options.said_behind self (options.followed (options.option_alone word.now) os) }
        ensures within { IfSome result (λ o. IfSome o.metric (λ n. n ≤ 16777214)) }
    {
        if word == b"subnets".as_slice() {
            self.with_subnets()
        } else {
            None
        }
    }

    /// The options with the one that a word and its value are.
    fn with_value(self, word: &[u8], value: &[u8]) -> Option<RedistributeOptions>
        requires { IfSome self.metric (λ n. n ≤ 16777214) }
        ensures value { (os : Option (List options.RedistributeOption)) → option_and_then (λ more. options.said_behind more os) result ≡ options.said_behind self (options.followed (options.option_with word.now value.now) os) }
        ensures within { IfSome result (λ o. IfSome o.metric (λ n. n ≤ 16777214)) }
    {
        if word == b"metric".as_slice() {
            return self.with_metric(value);
        }
        if word == b"metric-type".as_slice() {
            return self.with_metric_type(value);
        }
        if word == b"route-map".as_slice() {
            return self.with_route_map(value);
        }
        None
    }

    /// The options with the one that begins with a word, and the words behind it.
    fn with_option<'a>(
        self,
        word: &[u8],
        behind: Words<'a>,
    ) -> Option<(RedistributeOptions, Words<'a>)>
        requires { IfSome self.metric (λ n. n ≤ 16777214) }
        ensures value { option_and_then (λ p. options.options_behind p.0 (words_left p.1)) result ≡ options.options_behind self (word.now ∷ words_left behind.entry) }
        ensures within { IfSome result (λ p. IfSome p.0.metric (λ n. n ≤ 16777214)) }
        ensures shorter { IfSome result (λ p. length (words_left p.1) ≤ length (words_left behind.entry)) }
    {
        let mut rest = behind;
        let Some(value) = rest.next_word() else {
            return with_rest(self.with_alone(word), behind);
        };
        if word == b"subnets".as_slice() {
            return with_rest(self.with_subnets(), behind);
        }
        with_rest(self.with_value(word, value), rest)
    }
}

/// The options, if there are any, with the words behind them.
fn with_rest<'a>(
    so_far: Option<RedistributeOptions>,
    rest: Words<'a>,
) -> Option<(RedistributeOptions, Words<'a>)>
    requires { IfSome so_far (λ o. IfSome o.metric (λ n. n ≤ 16777214)) }
    ensures value { option_and_then (λ p. options.options_behind p.0 (words_left p.1)) result ≡ option_and_then (λ o. options.options_behind o (words_left rest.entry)) so_far }
    ensures within { IfSome result (λ p. IfSome p.0.metric (λ n. n ≤ 16777214)) }
    ensures rest { IfSome result (λ p. words_left p.1 ≡ words_left rest.entry) }
{
    match so_far {
        Some(more) => Some((more, rest)),
        None => None,
    }
}

/// What the words behind `redistribute` and its source say, or `None` exactly where they aren't options in any order, each at
/// most once.
pub(crate) fn read_options(mut words: Words) -> Option<RedistributeOptions>
    ensures value { result ≡ options.options_in (words_left words.entry) }
    ensures within { IfSome result (λ o. IfSome o.metric (λ n. n ≤ 16777214)) }
{
    let mut so_far = RedistributeOptions {
        metric: None,
        metric_type: None,
        subnets: false,
        route_map: None,
    };
    while let Some(word) = words.next_word() {
        match so_far.with_option(word, words) {
            Some((more, rest)) => {
                so_far = more;
                words = rest;
            }
            None => return None,
        }
    }
    Some(so_far)
}
