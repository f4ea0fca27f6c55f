//! Whom a line is about, a neighbour or a peer group, and the lines about groups and activity. A line that fits no row is none.
ghost use Rattle.std.specs.Prelude.{◌≡◌, IfSome};
ghost use Rattle.std.specs.Option.{option_copied};
ghost use Rattle.rc_openings.specs.Words.{words_left};
ghost use Rattle.rc_config.specs.Bgp.{IsLawfulBgpLine};
ghost use Rattle.rc_config.specs.Named.{named};
ghost use Rattle.rc_gram_bgp.specs.Peers as peers;

use rc_base::{Addr, Name};
use rc_config::{BgpLine, Group, Peer, RouterText};
use rc_openings::{Words, word_addr, word_interface};

/// The peer group of this name, where the file has declared it so far.
fn group<'a>(file: &'a RouterText, name: &Name) -> Option<&'a Group>
    ensures { option_copied result ≡ named (peers.groups_of file.now) name.now }
{
    match &file.bgp {
        Some(process) => process.peering.groups.get(name),
        None => None,
    }
}

/// The name of a peer group that a word is, where the file has declared the group so far.
fn declared_group(file: &RouterText, word: &[u8]) -> Option<Name>
    ensures { result ≡ peers.declared_group (peers.groups_of file.now) word.now }
{
    match Name::new(word) {
        Some(name) if group(file, &name).is_some() => Some(name),
        _ => None,
    }
}

/// Whom a word names.
fn peer_of(file: &RouterText, word: &[u8]) -> Option<Peer>
    ensures { result ≡ peers.peer_of (peers.groups_of file.now) word.now }
{
    match word_addr(word) {
        Some(address) => Some(Peer::Address(address)),
        None => match declared_group(file, word) {
            Some(name) => Some(Peer::Group(name)),
            None => None,
        },
    }
}

/// Whom a line is about, by all words of the line: the opening fits any word in its place.
pub(crate) fn whom_of(file: &RouterText, mut line: Words) -> Option<Peer>
    ensures { result ≡ peers.whom_of (peers.groups_of file.now) (words_left line.entry) }
{
    match (line.next_word(), line.next_word()) {
        (Some(_), Some(word)) => peer_of(file, word),
        _ => None,
    }
}

/// Whom a line with `no` in front is about.
pub(crate) fn unsaid_of(file: &RouterText, mut line: Words) -> Option<Peer>
    ensures { result ≡ peers.unsaid_of (peers.groups_of file.now) (words_left line.entry) }
{
    match line.next_word() {
        Some(_) => whom_of(file, line),
        None => None,
    }
}

/// `neighbor * activate`, and `no neighbor * activate`
pub(crate) fn activity(is_active: bool, whom: Option<Peer>, mut words: Words) -> Option<BgpLine>
    ensures row { result ≡ peers.activity is_active whom (words_left words.entry) }
    ensures in_range { IfSome result IsLawfulBgpLine }
{
    match (whom, words.next_word()) {
        (Some(whom), None) => Some(BgpLine::Active { whom, is_active }),
        _ => None,
    }
}

/// `neighbor NAME peer-group`
fn declaration(mut line: Words) -> Option<BgpLine>
    ensures row { result ≡ peers.declaration (words_left line.entry) }
    ensures in_range { IfSome result IsLawfulBgpLine }
{
    match (line.next_word(), line.next_word()) {
        (Some(_), Some(word)) => match word_interface(word) {
            Some(name) => Some(BgpLine::GroupDeclared(name)),
            None => None,
        },
        _ => None,
    }
}

fn member_line(address: Option<Addr>, group: Option<Name>) -> Option<BgpLine>
    ensures row { result ≡ peers.member_line address group }
    ensures in_range { IfSome result IsLawfulBgpLine }
{
    match (address, group) {
        (Some(address), Some(group)) => Some(BgpLine::MemberOf { address, group }),
        _ => None,
    }
}

/// `neighbor A peer-group NAME`
fn membership(file: &RouterText, mut line: Words, name: &[u8]) -> Option<BgpLine>
    ensures row { result ≡ peers.membership (peers.groups_of file.now) (words_left line.entry) name.now }
    ensures in_range { IfSome result IsLawfulBgpLine }
{
    match (line.next_word(), line.next_word()) {
        (Some(_), Some(word)) => member_line(word_addr(word), declared_group(file, name)),
        _ => None,
    }
}

/// `neighbor NAME peer-group`, and `neighbor A peer-group NAME`
pub(crate) fn peer_group(file: &RouterText, line: Words, mut words: Words) -> Option<BgpLine>
    ensures row { result ≡ peers.peer_group (peers.groups_of file.now) (words_left line.entry) (words_left words.entry) }
    ensures in_range { IfSome result IsLawfulBgpLine }
{
    match (words.next_word(), words.next_word()) {
        (None, _) => declaration(line),
        (Some(name), None) => membership(file, line, name),
        _ => None,
    }
}

/// `no bgp default ipv4-unicast`
pub(crate) fn inactive_by_default(mut words: Words) -> Option<BgpLine>
    ensures row { result ≡ peers.inactive_by_default (words_left words.entry) }
    ensures in_range { IfSome result IsLawfulBgpLine }
{
    match words.next_word() {
        None => Some(BgpLine::InactiveByDefault),
        Some(_) => None,
    }
}
