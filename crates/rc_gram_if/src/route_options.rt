//! What may stand behind the target of a static route.
ghost use Rattle.std.specs.Prelude.{◌≡◌, ◌≤◌, ◌∷◌, List, Option, Some, IfSome, length};
ghost use Rattle.std.specs.Option.{option_and_then};
ghost use Rattle.rc_openings.specs.Words.{words_left};
ghost use Rattle.rc_config.specs.Lawful.{IsDistance};
ghost use Rattle.rc_gram_if.specs.RouteOptions as options;

use rc_openings::{Words, number_in, word_u32};

/// The options so far. A name and a tag have no effect, so it is kept only that they were there.
#[derive(Clone, Copy)]
struct RouteOptions {
    distance: Option<u8>,
    named: bool,
    tagged: bool,
}

impl RouteOptions {
    /// The options with the distance that a word is, or `None` exactly where it is none or one stands there already.
    fn with_distance(self, word: &[u8]) -> Option<RouteOptions>
        ensures value { (os : Option (List options.RouteOption)) → option_and_then (λ more. options.said_behind more os) result ≡ options.said_behind self (options.followed (options.distance_word word.now) os) }
        ensures within { IfSome result (λ o. IfSome o.distance IsDistance) }
    {
        if self.distance.is_some() {
            return None;
        }
        match number_in(1, 255, word) {
            Some(distance) => Some(RouteOptions {
                distance: Some(distance as u8),
                ..self
            }),
            None => None,
        }
    }

    /// The options with a name, or `None` exactly where one stands there already.
    fn with_name(self, name: &[u8]) -> Option<RouteOptions>
        requires { IfSome self.distance IsDistance }
        ensures value { (os : Option (List options.RouteOption)) → option_and_then (λ more. options.said_behind more os) result ≡ options.said_behind self (options.followed (Some options.Named) os) }
        ensures within { IfSome result (λ o. IfSome o.distance IsDistance) }
    {
        if self.named {
            return None;
        }
        Some(RouteOptions {
            named: true,
            ..self
        })
    }

    /// The options with the tag that a word is, or `None` exactly where it is none or one stands there already.
    fn with_tag(self, word: &[u8]) -> Option<RouteOptions>
        requires { IfSome self.distance IsDistance }
        ensures value { (os : Option (List options.RouteOption)) → option_and_then (λ more. options.said_behind more os) result ≡ options.said_behind self (options.followed (options.tag_with word.now) os) }
        ensures within { IfSome result (λ o. IfSome o.distance IsDistance) }
    {
        if self.tagged {
            return None;
        }
        match word_u32(word) {
            Some(_) => Some(RouteOptions {
                tagged: true,
                ..self
            }),
            None => None,
        }
    }

    /// The options with the one that begins with a word, and the words behind it.
    fn with_option<'a>(self, word: &[u8], behind: Words<'a>) -> Option<(RouteOptions, Words<'a>)>
        requires { IfSome self.distance IsDistance }
        ensures value { option_and_then (λ p. options.options_behind p.0 (words_left p.1)) result ≡ options.options_behind self (word.now ∷ words_left behind.entry) }
        ensures within { IfSome result (λ p. IfSome p.0.distance IsDistance) }
        ensures shorter { IfSome result (λ p. length (words_left p.1) ≤ length (words_left behind.entry)) }
    {
        let mut rest = behind;
        let Some(value) = rest.next_word() else {
            let more = self.with_distance(word);
            return with_rest(more, behind);
        };
        if word == b"name".as_slice() {
            return with_rest(self.with_name(value), rest);
        }
        if word == b"tag".as_slice() {
            return with_rest(self.with_tag(value), rest);
        }
        with_rest(self.with_distance(word), behind)
    }
}

/// The options, if there are any, with the words behind them.
fn with_rest<'a>(so_far: Option<RouteOptions>, rest: Words<'a>) -> Option<(RouteOptions, Words<'a>)>
    requires { IfSome so_far (λ o. IfSome o.distance IsDistance) }
    ensures value { option_and_then (λ p. options.options_behind p.0 (words_left p.1)) result ≡ option_and_then (λ o. options.options_behind o (words_left rest.entry)) so_far }
    ensures within { IfSome result (λ p. IfSome p.0.distance IsDistance) }
    ensures rest { IfSome result (λ p. words_left p.1 ≡ words_left rest.entry) }
{
    match so_far {
        Some(more) => Some((more, rest)),
        None => None,
    }
}

/// What the words behind a target say, or `None` exactly where they aren't options in any order, each at most once.
fn read_options(mut words: Words) -> Option<RouteOptions>
    ensures value { result ≡ options.options_in (words_left words.entry) }
    ensures within { IfSome result (λ o. IfSome o.distance IsDistance) }
{
    let mut so_far = RouteOptions {
        distance: None,
        named: false,
        tagged: false,
    };
    while let Some(word) = words.next_word() {
        match so_far.with_option(word, words) {
            Some((more, rest)) => {
                so_far = more;
                words = rest;
            }
            None => return None,
        }
    }
    Some(so_far)
}

/// The administrative distance that the words behind a target give, 1 where they give none, or `None` exactly where they
/// aren't options in any order, each at most once.
pub(crate) fn read_distance(words: Words) -> Option<u8>
    ensures value { result ≡ options.distance_of (words_left words.entry) }
    ensures within { IfSome result IsDistance }
{
    match read_options(words) {
        Some(options) => Some(options.distance.unwrap_or(1)),
        None => None,
    }
}
