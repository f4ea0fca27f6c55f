//! The rows of BGP: the line that opens the process of a router, and those in its block and its address families.
ghost use Rattle.std.specs.Prelude.{◌≡◌, IfOk, IfSome};
ghost use Rattle.rc_openings.specs.Values.{number_within};
ghost use Rattle.rc_openings.specs.Words.{words_left};
ghost use Rattle.rc_config.specs.Bgp.{IsAsn, IsLawfulBgpLine};
ghost use Rattle.rc_config.specs.Lawful.{FitsFile, IsInRange};
ghost use Rattle.rc_gram_bgp.specs.Peers.{groups_of};
ghost use Rattle.rc_gram_bgp.specs.Rows as rows;

use crate::lines::{
    about, maximum_paths, maximum_paths_ibgp, network, redistribute_connected, redistribute_ospf,
    redistribute_static, router_id,
};
use crate::neighbor_lines::{
    alone, ebgp_multihop, prefix_list, remote_as, route_map, send_community, update_source, weight,
};
use crate::peers::{activity, inactive_by_default, peer_group, unsaid_of, whom_of};
use rc_config::{BgpLine, Command, NeighborSetting, OpenBlock, Peer, RouterText};
use rc_openings::{BgpForm, LineRefusal, Words, number_in};

/// The number of an AS that a word is, from 1 on.
fn word_asn(word: &[u8]) -> Option<u32>
    ensures value { result ≡ number_within 1 4294967295 word.now }
    ensures within { IfSome result IsAsn }
{
    number_in(1, u32::MAX, word)
}

/// The AS of the process that is there.
fn known_as(file: &RouterText) -> Option<u32>
    ensures { result ≡ rows.known_as file.now }
{
    match &file.bgp {
        Some(process) => Some(process.asn),
        None => None,
    }
}

/// The process in this AS, where it is the one that is there or the first one.
fn opened(known: Option<u32>, asn: u32) -> Result<Command, LineRefusal>
    requires { IsAsn asn }
    ensures row { result ≡ rows.opened known asn }
    ensures in_range { IfOk result IsInRange }
    ensures fits { (file : RouterText) → IfOk result (FitsFile file) }
{
    match known {
        Some(known) if known != asn => Err(LineRefusal::Unsupported),
        _ => Ok(Command::BgpOpened { asn }),
    }
}

/// `router bgp N`; a second AS isn't modelled.
fn router_bgp(known: Option<u32>, mut words: Words) -> Result<Command, LineRefusal>
    ensures row { result ≡ rows.router_bgp known (words_left words.entry) }
    ensures in_range { IfOk result IsInRange }
    ensures fits { (file : RouterText) → IfOk result (FitsFile file) }
{
    match (words.next_word(), words.next_word()) {
        (Some(word), None) => match word_asn(word) {
            Some(asn) => opened(known, asn),
            None => Err(LineRefusal::BadValue),
        },
        _ => Err(LineRefusal::BadValue),
    }
}

/// A line in the block of the process.
fn in_block(line: Option<BgpLine>) -> Result<Command, LineRefusal>
    requires { IfSome line IsLawfulBgpLine }
    ensures row { result ≡ rows.in_block line }
    ensures in_range { IfOk result IsInRange }
    ensures fits { (file : RouterText) → IfOk result (FitsFile file) }
{
    match line {
        Some(line) => Ok(Command::BgpLine { line }),
        None => Err(LineRefusal::BadValue),
    }
}

/// What a line sets of the neighbour or the peer group that it is about.
fn sets(whom: Option<Peer>, setting: Option<NeighborSetting>) -> Result<Command, LineRefusal>
    ensures row { result ≡ rows.sets whom setting }
    ensures in_range { IfOk result IsInRange }
    ensures fits { (file : RouterText) → IfOk result (FitsFile file) }
{
    in_block(about(whom, setting))
}

fn is_extended(mut words: Words) -> bool
    ensures { result ≡ rows.is_extended (words_left words.entry) }
{
    match (words.next_word(), words.next_word()) {
        (Some(word), None) => word == b"extended".as_slice(),
        _ => false,
    }
}

/// A line that has no effect, where it is about a neighbour or a peer group.
fn without_effect(whom: Option<Peer>) -> Result<Command, LineRefusal>
    ensures row { result ≡ rows.without_effect whom }
    ensures in_range { IfOk result IsInRange }
    ensures fits { (file : RouterText) → IfOk result (FitsFile file) }
{
    match whom {
        Some(_) => Ok(Command::Remark),
        None => Err(LineRefusal::BadValue),
    }
}

/// `neighbor * send-community [standard|both|extended]`
fn communities(whom: Option<Peer>, behind: Words) -> Result<Command, LineRefusal>
    ensures row { result ≡ rows.communities whom (words_left behind.entry) }
    ensures in_range { IfOk result IsInRange }
    ensures fits { (file : RouterText) → IfOk result (FitsFile file) }
{
    if is_extended(behind) {
        without_effect(whom)
    } else {
        sets(whom, send_community(behind))
    }
}

/// `address-family ipv4 [unicast]`
fn ipv4_family(mut words: Words) -> Result<Command, LineRefusal>
    ensures row { result ≡ rows.ipv4_family (words_left words.entry) }
    ensures in_range { IfOk result IsInRange }
    ensures fits { (file : RouterText) → IfOk result (FitsFile file) }
{
    match words.next_word() {
        None => Ok(Command::FamilyOpened),
        Some(_) => Err(LineRefusal::BadValue),
    }
}

/// `exit-address-family`, in the block of a family.
fn family_end(block: &OpenBlock, mut words: Words) -> Result<Command, LineRefusal>
    ensures row { result ≡ rows.family_end block.now (words_left words.entry) }
    ensures in_range { IfOk result IsInRange }
    ensures fits { (file : RouterText) → IfOk result (FitsFile file) }
{
    if words.next_word().is_none() {
        return Ok(Command::FamilyClosed);
    }
    match block {
        OpenBlock::InOtherFamily => Ok(Command::Passed),
        _ => Err(LineRefusal::BadValue),
    }
}

/// What a line of a form says that sets something of a neighbour or a peer group, by its number and the words behind the opening.
/// A line of another form sets nothing.
fn about_peer(
    form: BgpForm,
    whom: Option<Peer>,
    number: u64,
    behind: Words,
) -> Result<Command, LineRefusal>
    ensures row { result ≡ rows.about_peer whom number form (words_left behind.entry) }
    ensures in_range { IfOk result IsInRange }
    ensures fits { (file : RouterText) → IfOk result (FitsFile file) }
{
    match form {
        BgpForm::NeighborRemoteAs => sets(whom, remote_as(behind)),
        BgpForm::NeighborUpdateSource => sets(whom, update_source(behind)),
        BgpForm::NeighborEbgpMultihop => sets(whom, ebgp_multihop(behind)),
        BgpForm::NeighborNextHopSelf => sets(whom, alone(NeighborSetting::NextHopSelf, behind)),
        BgpForm::NeighborShutdown => sets(whom, alone(NeighborSetting::Shutdown, behind)),
        BgpForm::NeighborDefaultOriginate => {
            sets(whom, alone(NeighborSetting::DefaultOriginate, behind))
        }
        BgpForm::NeighborSendCommunity => communities(whom, behind),
        BgpForm::NeighborRouteMap => sets(whom, route_map(number, behind)),
        BgpForm::NeighborPrefixList => sets(whom, prefix_list(number, behind)),
        BgpForm::NeighborWeight => sets(whom, weight(behind)),
        _ => Err(LineRefusal::BadValue),
    }
}

/// What a line of a form says in a block, by its number and all its words, and by those behind the opening.
pub(crate) fn row(
    form: BgpForm,
    block: &OpenBlock,
    file: &RouterText,
    number: u64,
    line: Words,
    behind: Words,
) -> Result<Command, LineRefusal>
    ensures row { result ≡ rows.row block.now (rows.known_as file.now) (groups_of file.now) number (words_left line.entry) form (words_left behind.entry) }
    ensures in_range { IfOk result IsInRange }
    ensures fits { IfOk result (FitsFile file.now) }
{
    match form {
        BgpForm::RouterBgp => router_bgp(known_as(file), behind),
        BgpForm::RouterId => in_block(router_id(behind)),
        BgpForm::MaximumPaths => in_block(maximum_paths(behind)),
        BgpForm::MaximumPathsIbgp => in_block(maximum_paths_ibgp(behind)),
        BgpForm::Network => in_block(network(behind)),
        BgpForm::NeighborActivate => in_block(activity(true, whom_of(file, line), behind)),
        BgpForm::NoNeighborActivate => in_block(activity(false, unsaid_of(file, line), behind)),
        BgpForm::NeighborPeerGroup => in_block(peer_group(file, line, behind)),
        BgpForm::NoDefaultIpv4Unicast => in_block(inactive_by_default(behind)),
        BgpForm::RedistributeConnected => in_block(redistribute_connected(number, behind)),
        BgpForm::RedistributeStatic => in_block(redistribute_static(number, behind)),
        BgpForm::RedistributeOspf => in_block(redistribute_ospf(number, behind)),
        BgpForm::AddressFamilyIpv4 => ipv4_family(behind),
        BgpForm::AddressFamilyIpv6 => Ok(Command::OtherFamilyOpened),
        BgpForm::ExitAddressFamily => family_end(block, behind),
        _ => about_peer(form, whom_of(file, line), number, behind),
    }
}
