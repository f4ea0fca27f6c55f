//! The lines about a neighbour or a peer group, by the words behind their openings. A line that fits no row is none.
ghost use Rattle.std.specs.Prelude.{◌≡◌};
ghost use Rattle.rc_openings.specs.Words.{words_left};
ghost use Rattle.rc_gram_bgp.specs.NeighborLines as lines;

use rc_base::Name;
use rc_config::{Direction, Mention, NeighborSetting, direction_of};
use rc_openings::{Words, number_in, word_interface, word_u32};

/// `remote-as N`
pub(crate) fn remote_as(mut words: Words) -> Option<NeighborSetting>
    ensures { result ≡ lines.remote_as (words_left words.entry) }
{
    match (words.next_word(), words.next_word()) {
        (Some(word), None) => match word_u32(word) {
            Some(asn) => Some(NeighborSetting::RemoteAs(asn)),
            None => None,
        },
        _ => None,
    }
}

/// `update-source IF`
pub(crate) fn update_source(mut words: Words) -> Option<NeighborSetting>
    ensures { result ≡ lines.update_source (words_left words.entry) }
{
    match (words.next_word(), words.next_word()) {
        (Some(word), None) => match word_interface(word) {
            Some(interface) => Some(NeighborSetting::UpdateSource(interface)),
            None => None,
        },
        _ => None,
    }
}

/// `ebgp-multihop [N]`
pub(crate) fn ebgp_multihop(mut words: Words) -> Option<NeighborSetting>
    ensures { result ≡ lines.ebgp_multihop (words_left words.entry) }
{
    match (words.next_word(), words.next_word()) {
        (None, _) => Some(NeighborSetting::EbgpMultihop),
        (Some(word), None) => match number_in(1, 255, word) {
            Some(_) => Some(NeighborSetting::EbgpMultihop),
            None => None,
        },
        _ => None,
    }
}

/// A setting whose opening is the whole line.
pub(crate) fn alone(setting: NeighborSetting, mut words: Words) -> Option<NeighborSetting>
    ensures { result ≡ lines.alone setting (words_left words.entry) }
{
    match words.next_word() {
        None => Some(setting),
        Some(_) => None,
    }
}

/// `weight N`
pub(crate) fn weight(mut words: Words) -> Option<NeighborSetting>
    ensures { result ≡ lines.weight (words_left words.entry) }
{
    match (words.next_word(), words.next_word()) {
        (Some(word), None) => match number_in(0, 65535, word) {
            Some(weight) => Some(NeighborSetting::Weight(weight as u16)),
            None => None,
        },
        _ => None,
    }
}

fn sends_communities(word: &[u8]) -> bool
    ensures { result ≡ lines.sends_communities word.now }
{
    word == b"standard".as_slice() || word == b"both".as_slice()
}

/// `send-community [standard|both]`
pub(crate) fn send_community(mut words: Words) -> Option<NeighborSetting>
    ensures { result ≡ lines.send_community (words_left words.entry) }
{
    match (words.next_word(), words.next_word()) {
        (None, _) => Some(NeighborSetting::SendCommunity),
        (Some(word), None) if sends_communities(word) => Some(NeighborSetting::SendCommunity),
        _ => None,
    }
}

/// The name that a word is, as the line of this number gives it.
pub(crate) fn mention_of(number: u64, word: &[u8]) -> Option<Mention>
    ensures { result ≡ lines.mention_of number word.now }
{
    match Name::new(word) {
        Some(name) => Some(Mention { name, line: number }),
        None => None,
    }
}

fn map_in(map: Option<Mention>, direction: Option<Direction>) -> Option<NeighborSetting>
    ensures { result ≡ lines.map_in map direction }
{
    match (map, direction) {
        (Some(map), Some(direction)) => Some(NeighborSetting::RouteMap { map, direction }),
        _ => None,
    }
}

/// `route-map NAME in|out`
pub(crate) fn route_map(number: u64, mut words: Words) -> Option<NeighborSetting>
    ensures { result ≡ lines.route_map number (words_left words.entry) }
{
    match (words.next_word(), words.next_word(), words.next_word()) {
        (Some(name), Some(way), None) => map_in(mention_of(number, name), direction_of(way)),
        _ => None,
    }
}

fn list_in(list: Option<Mention>, direction: Option<Direction>) -> Option<NeighborSetting>
    ensures { result ≡ lines.list_in list direction }
{
    match (list, direction) {
        (Some(list), Some(direction)) => Some(NeighborSetting::PrefixList { list, direction }),
        _ => None,
    }
}

/// `prefix-list NAME in|out`
pub(crate) fn prefix_list(number: u64, mut words: Words) -> Option<NeighborSetting>
    ensures { result ≡ lines.prefix_list number (words_left words.entry) }
{
    match (words.next_word(), words.next_word(), words.next_word()) {
        (Some(name), Some(way), None) => list_in(mention_of(number, name), direction_of(way)),
        _ => None,
    }
}
