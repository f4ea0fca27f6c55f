//! The lines in the block of a BGP process, by the words behind their openings. A line that fits no row is none.
ghost use Rattle.std.specs.Prelude.{◌≡◌, IfSome};
ghost use Rattle.rc_openings.specs.Words.{words_left};
ghost use Rattle.rc_config.specs.Bgp.{IsLawfulBgpLine, IsPathNumber};
ghost use Rattle.rc_gram_bgp.specs.Lines as lines;

use crate::redistributions::{options, ospf_redistribution};
use rc_base::{Addr, Prefix};
use rc_config::{BgpLine, NeighborSetting, Peer, natural_len};
use rc_openings::{Words, number_in, prefix_under, word_addr};

/// `bgp router-id A`
pub(crate) fn router_id(mut words: Words) -> Option<BgpLine>
    ensures row { result ≡ lines.router_id (words_left words.entry) }
    ensures in_range { IfSome result IsLawfulBgpLine }
{
    match (words.next_word(), words.next_word()) {
        (Some(word), None) => match word_addr(word) {
            Some(id) => Some(BgpLine::RouterId(id)),
            None => None,
        },
        _ => None,
    }
}

/// How many paths of a prefix a word allows, from 1 to 32.
fn path_number(word: &[u8]) -> Option<u8>
    ensures value { result ≡ lines.path_number word.now }
    ensures within { IfSome result IsPathNumber }
{
    match number_in(1, 32, word) {
        Some(number) => Some(number as u8),
        None => None,
    }
}

/// `maximum-paths N`
pub(crate) fn maximum_paths(mut words: Words) -> Option<BgpLine>
    ensures row { result ≡ lines.maximum_paths (words_left words.entry) }
    ensures in_range { IfSome result IsLawfulBgpLine }
{
    match (words.next_word(), words.next_word()) {
        (Some(word), None) => match path_number(word) {
            Some(number) => Some(BgpLine::MaximumExternalPaths(number)),
            None => None,
        },
        _ => None,
    }
}

/// `maximum-paths ibgp N`
pub(crate) fn maximum_paths_ibgp(mut words: Words) -> Option<BgpLine>
    ensures row { result ≡ lines.maximum_paths_ibgp (words_left words.entry) }
    ensures in_range { IfSome result IsLawfulBgpLine }
{
    match (words.next_word(), words.next_word()) {
        (Some(word), None) => match path_number(word) {
            Some(number) => Some(BgpLine::MaximumInternalPaths(number)),
            None => None,
        },
        _ => None,
    }
}

/// The prefix of the network of an address by its class.
fn natural_prefix(address: Option<Addr>) -> Option<Prefix>
    ensures { result ≡ lines.natural_prefix address }
{
    match address {
        Some(address) => match natural_len(address) {
            Some(len) => Prefix::new(address, len),
            None => None,
        },
        None => None,
    }
}

fn network_of(prefix: Option<Prefix>) -> Option<BgpLine>
    ensures row { result ≡ lines.network_of prefix }
    ensures in_range { IfSome result IsLawfulBgpLine }
{
    match prefix {
        Some(prefix) => Some(BgpLine::Network(prefix)),
        None => None,
    }
}

/// `network A [mask M]`
pub(crate) fn network(mut words: Words) -> Option<BgpLine>
    ensures row { result ≡ lines.network (words_left words.entry) }
    ensures in_range { IfSome result IsLawfulBgpLine }
{
    let Some(address) = words.next_word() else {
        return None;
    };
    match (words.next_word(), words.next_word(), words.next_word()) {
        (None, _, _) => network_of(natural_prefix(word_addr(address))),
        (Some(word), Some(mask), None) if word == b"mask".as_slice() => {
            network_of(prefix_under(address, mask))
        }
        _ => None,
    }
}

/// What a line sets of a neighbour or of a peer group.
pub(crate) fn about(whom: Option<Peer>, setting: Option<NeighborSetting>) -> Option<BgpLine>
    ensures row { result ≡ lines.about whom setting }
    ensures in_range { IfSome result IsLawfulBgpLine }
{
    match (whom, setting) {
        (Some(whom), Some(setting)) => Some(BgpLine::Setting { whom, setting }),
        _ => None,
    }
}

/// `redistribute connected`
pub(crate) fn redistribute_connected(number: u64, words: Words) -> Option<BgpLine>
    ensures row { result ≡ lines.redistribute_connected number (words_left words.entry) }
    ensures in_range { IfSome result IsLawfulBgpLine }
{
    match options(number, words) {
        Some(redistribution) => Some(BgpLine::RedistributeConnected(redistribution)),
        None => None,
    }
}

/// `redistribute static`
pub(crate) fn redistribute_static(number: u64, words: Words) -> Option<BgpLine>
    ensures row { result ≡ lines.redistribute_static number (words_left words.entry) }
    ensures in_range { IfSome result IsLawfulBgpLine }
{
    match options(number, words) {
        Some(redistribution) => Some(BgpLine::RedistributeStatic(redistribution)),
        None => None,
    }
}

/// `redistribute ospf`
pub(crate) fn redistribute_ospf(number: u64, words: Words) -> Option<BgpLine>
    ensures row { result ≡ lines.redistribute_ospf number (words_left words.entry) }
    ensures in_range { IfSome result IsLawfulBgpLine }
{
    match ospf_redistribution(number, words) {
        Some(redistribution) => Some(BgpLine::RedistributeOspf(redistribution)),
        None => None,
    }
}
