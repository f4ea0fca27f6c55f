//! The rows of each form, by the words behind its opening.
ghost use Rattle.std.specs.Prelude.{◌≡◌, ◌≤◌, [], IfOk, IfSome, is_some};
ghost use Rattle.std.specs.List.{list_all, list_any};
ghost use Rattle.std.specs.Str.{bytes_eq};
ghost use Rattle.rc_openings.specs.Words.{words_left};
ghost use Rattle.rc_gram_if.specs.Own.{IsOwn};
ghost use Rattle.rc_config.specs.IfType.{type_of};
ghost use Rattle.rc_gram_if.specs.Rows as rows;
ghost use Rattle.rc_gram_if.specs.Typed as typed;

use crate::route_options::read_distance;
use rc_base::{Addr, Name, Prefix};
use rc_config::{
    Command, Direction, IfAddr, InterfaceLine, RouterText, StaticRoute, Target, direction_of,
    type_of_name,
};
use rc_openings::{
    LineRefusal, Words, number_in, prefix_under, word_addr, word_interface, word_mask,
};

fn is_host_byte(byte: u8) -> bool
    ensures { result ≡ rows.is_host_byte byte }
{
    byte.is_ascii_alphanumeric() || byte == b'-' || byte == b'_' || byte == b'.'
}

fn are_host_bytes(word: &[u8]) -> bool
    ensures { result ≡ list_all rows.is_host_byte word.now }
{
    word.iter().all(|b| is_host_byte(*b))
}

/// `hostname NAME`; a second one is refused.
pub(crate) fn hostname(
    file: &RouterText,
    line: u64,
    mut words: Words,
) -> Result<Command, LineRefusal>
    ensures row { result ≡ rows.hostname file.now line (words_left words.entry) }
    ensures own { IfOk result IsOwn }
{
    match (words.next_word(), words.next_word()) {
        (Some(word), None) => match Name::new(word) {
            Some(name) if are_host_bytes(word) && file.host.is_none() => {
                Ok(Command::Hostname { name, line })
            }
            _ => Err(LineRefusal::BadValue),
        },
        _ => Err(LineRefusal::BadValue),
    }
}

/// `interface IF`
pub(crate) fn interface(line: u64, mut words: Words) -> Result<Command, LineRefusal>
    ensures row { result ≡ rows.interface line (words_left words.entry) }
    ensures own { IfOk result IsOwn }
{
    match (words.next_word(), words.next_word()) {
        (Some(word), None) => match word_interface(word) {
            Some(name) => Ok(Command::Interface { name, line }),
            _ => Err(LineRefusal::BadValue),
        },
        _ => Err(LineRefusal::BadValue),
    }
}

fn has_point(text: &[u8]) -> bool
    ensures { result ≡ typed.has_point text.now }
{
    text.iter().any(|b| *b == b'.')
}

/// Whether a text begins with a digit and has no point.
fn is_plain_number(text: &[u8]) -> bool
    ensures { result ≡ typed.is_plain_number text.now }
{
    match text {
        [first, ..] => first.is_ascii_digit() && !has_point(text),
        [] => false,
    }
}

/// Whether a text is a word with such a number behind it.
fn is_numbered(word: &[u8], text: &[u8]) -> bool
    ensures { result ≡ typed.is_numbered word.now text.now }
{
    if text.len() < word.len() {
        return false;
    }
    let (front, rest) = text.split_at(word.len());
    if front != word {
        return false;
    }
    is_plain_number(rest)
}

/// Whether a name is plainly that of a main interface of one of the commonest types.
fn is_plainly_typed(name: &Name) -> bool
    ensures { result ≡ typed.is_plainly_typed name.now }
{
    let text = name.as_bytes();
    is_numbered(b"GigabitEthernet", text)
        || is_numbered(b"TenGigabitEthernet", text)
        || is_numbered(b"FastEthernet", text)
}

/// Whether an interface of this name is of a type that may have addresses. Of most names one look tells that it is.
fn is_typed(name: &Name) -> bool
    ensures { result ≡ is_some (type_of name.now) }
{
    is_plainly_typed(name) || type_of_name(name).is_some()
}

fn address_in(
    owner: Name,
    secondary: bool,
    addr: Option<Addr>,
    len: Option<u8>,
) -> Result<Command, LineRefusal>
    requires { IfSome len (λ n. n ≤ 32) }
    ensures row { result ≡ rows.address_in owner secondary addr len }
    ensures own { IfOk result IsOwn }
{
    let (Some(addr), Some(len)) = (addr, len) else {
        return Err(LineRefusal::BadValue);
    };
    match IfAddr::new(addr, len) {
        Some(address) if is_typed(&owner) => Ok(Command::InterfaceLine {
            interface: owner,
            line: InterfaceLine::Address { address, secondary },
        }),
        Some(_) => Err(LineRefusal::Unsupported),
        None => Err(LineRefusal::BadValue),
    }
}

/// `ip address A M [secondary]`
pub(crate) fn ip_address(owner: Name, mut words: Words) -> Result<Command, LineRefusal>
    ensures row { result ≡ rows.ip_address owner (words_left words.entry) }
    ensures own { IfOk result IsOwn }
{
    let (Some(addr), Some(mask)) = (words.next_word(), words.next_word()) else {
        return Err(LineRefusal::BadValue);
    };
    match (words.next_word(), words.next_word()) {
        (None, _) => address_in(owner, false, word_addr(addr), word_mask(mask)),
        (Some(word), None) if word == b"secondary".as_slice() => {
            address_in(owner, true, word_addr(addr), word_mask(mask))
        }
        _ => Err(LineRefusal::BadValue),
    }
}

/// `shutdown` or `no shutdown`
pub(crate) fn shutdown(owner: Name, down: bool, mut words: Words) -> Result<Command, LineRefusal>
    ensures row { result ≡ rows.shutdown owner down (words_left words.entry) }
    ensures own { IfOk result IsOwn }
{
    match words.next_word() {
        None => Ok(Command::InterfaceLine {
            interface: owner,
            line: InterfaceLine::Shutdown(down),
        }),
        Some(_) => Err(LineRefusal::BadValue),
    }
}

/// `bandwidth N`
pub(crate) fn bandwidth(owner: Name, mut words: Words) -> Result<Command, LineRefusal>
    ensures row { result ≡ rows.bandwidth owner (words_left words.entry) }
    ensures own { IfOk result IsOwn }
{
    match (words.next_word(), words.next_word()) {
        (Some(word), None) => match number_in(1, 10_000_000, word) {
            Some(kbits) => Ok(Command::InterfaceLine {
                interface: owner,
                line: InterfaceLine::Bandwidth(kbits),
            }),
            None => Err(LineRefusal::BadValue),
        },
        _ => Err(LineRefusal::BadValue),
    }
}

fn group_in(
    owner: Name,
    list: Option<Name>,
    direction: Option<Direction>,
) -> Result<Command, LineRefusal>
    ensures row { result ≡ rows.group_in owner list direction }
    ensures own { IfOk result IsOwn }
{
    match (list, direction) {
        (Some(list), Some(direction)) => Ok(Command::InterfaceLine {
            interface: owner,
            line: InterfaceLine::AccessGroup { list, direction },
        }),
        _ => Err(LineRefusal::BadValue),
    }
}

/// `ip access-group NAME in|out`
pub(crate) fn access_group(owner: Name, mut words: Words) -> Result<Command, LineRefusal>
    ensures row { result ≡ rows.access_group owner (words_left words.entry) }
    ensures own { IfOk result IsOwn }
{
    match (words.next_word(), words.next_word(), words.next_word()) {
        (Some(name), Some(way), None) => group_in(owner, Name::new(name), direction_of(way)),
        _ => Err(LineRefusal::BadValue),
    }
}

/// The words that make a line `ip route` one that isn't modelled, where it fits no row.
#[tactic(auto, unfolding(rc_openings::specs::Words::words_of))]
pub(crate) fn refused_in_route() -> Words<'static>
    ensures { words_left result ≡ rows.refused_in_route }
{
    Words::new(b"track permanent global multicast dhcp")
}

fn is_one_of(word: &[u8], mut words: Words) -> bool
    ensures { result ≡ list_any (bytes_eq word.now) (words_left words.entry) }
{
    while let Some(other) = words.next_word() {
        if word == other {
            return true;
        }
    }
    false
}

fn is_refused_in_route(word: &[u8]) -> bool
    ensures { result ≡ list_any (bytes_eq word.now) rows.refused_in_route }
{
    is_one_of(word, refused_in_route())
}

fn is_reserved(word: &[u8]) -> bool
    ensures { result ≡ rows.is_reserved word.now }
{
    word == b"Null0".as_slice() || is_refused_in_route(word)
}

/// The interface that a target is.
fn device_of(word: &[u8]) -> Option<Name>
    ensures { result ≡ rows.device_of word.now }
{
    match word_interface(word) {
        Some(name) if !is_reserved(word) => Some(name),
        _ => None,
    }
}

/// The route to this target with the options behind it.
fn route_to(prefix: Option<Prefix>, target: Target, options: Words) -> Result<Command, LineRefusal>
    ensures row { result ≡ rows.route_to prefix target (words_left options.entry) }
    ensures own { IfOk result IsOwn }
{
    match (prefix, read_distance(options)) {
        (Some(prefix), Some(distance)) => Ok(Command::StaticRoute {
            route: StaticRoute {
                prefix,
                target,
                distance,
            },
        }),
        _ => Err(LineRefusal::BadValue),
    }
}

/// The route out of an interface, to a gateway where the next word is one.
fn route_out(prefix: Option<Prefix>, device: Name, rest: Words) -> Result<Command, LineRefusal>
    ensures row { result ≡ rows.route_out prefix device (words_left rest.entry) }
    ensures own { IfOk result IsOwn }
{
    let mut behind = rest;
    match behind.next_word() {
        None => route_to(prefix, Target::Dev(device), rest),
        Some(word) => match word_addr(word) {
            Some(gateway) => route_to(prefix, Target::ViaDev(gateway, device), behind),
            None => route_to(prefix, Target::Dev(device), rest),
        },
    }
}

/// The route to the target that begins with a word.
fn route_by(prefix: Option<Prefix>, word: &[u8], rest: Words) -> Result<Command, LineRefusal>
    ensures row { result ≡ rows.route_by prefix (rows.device_of word.now) word.now (words_left rest.entry) }
    ensures own { IfOk result IsOwn }
{
    if let Some(device) = device_of(word) {
        return route_out(prefix, device, rest);
    }
    if word == b"Null0".as_slice() {
        return route_to(prefix, Target::Null, rest);
    }
    match word_addr(word) {
        Some(gateway) => route_to(prefix, Target::Via(gateway), rest),
        None => Err(LineRefusal::BadValue),
    }
}

/// `ip route A M TARGET [N] [name WORD] [tag N]`, the options in any order.
pub(crate) fn static_route(mut words: Words) -> Result<Command, LineRefusal>
    ensures row { result ≡ rows.static_route (words_left words.entry) }
    ensures own { IfOk result IsOwn }
{
    match (words.next_word(), words.next_word(), words.next_word()) {
        (Some(addr), Some(mask), Some(word)) => route_by(prefix_under(addr, mask), word, words),
        _ => Err(LineRefusal::BadValue),
    }
}
