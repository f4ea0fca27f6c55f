//! The sets of access lists.
ghost use Rattle.std.specs.Prelude.{◌≡◌, ◌⊎◌, ◌^◌, ◌<◌, ◌≤◌, ◌+◌, IfOk, IfErr, ℕ};
ghost use Rattle.rc_base.specs.Header.{bit_count};
ghost use Rattle.rc_bdd.specs.Work.{IsCause, IsWantOfRoom};
ghost use Rattle.rc_nodes.specs.Seats.{IsSeatOf, Keeps, SeatKnows};
ghost use Rattle.rc_sets.specs.AccessLists.{address_set, line_set, lines_set, protocol_set, way_set, with_line};
ghost use Rattle.rc_sets.specs.Builds.{MayAdd};
ghost use Rattle.rc_trees.specs.Recipes.{Recipe, parts, tree};
ghost use Rattle.rc_trees.specs.Trees.{HasNodes};

use crate::further::{code_set, flag_set, type_set};
use crate::number::{exact_set, masked_set};
use crate::ports::port_set;
use rc_base::{DPORT_LAST, DST_LAST, PROTO_LAST, SPORT_LAST, SRC_LAST};
use rc_bdd::{SetError, Work};
use rc_config::{AccessList, AccessListLine, Action, AddressTest, ProtocolTest};
use rc_nodes::{ALWAYS, May, NEVER, Nodes, Ref};

/// The headers whose address, the last bit of which is the header's bit `last`, passes a test.
fn address_set<M: May>(
    work: &mut Work<M>,
    nodes: &Nodes<M>,
    last: u8,
    test: AddressTest,
) -> Result<Ref, SetError>
    requires seat { IsSeatOf nodes.now work.old }
    requires bits { (31 ≤ last) × (last < bit_count) }
    requires may { HasNodes nodes.now.may (parts (address_set last test)) }
    ensures seat { IsSeatOf nodes.now work.new }
    ensures keeps { Keeps work.old work.new }
    ensures set { IfOk result (λ r. SeatKnows work.new r.index (tree (address_set last test))) }
    ensures room { IfErr result (IsWantOfRoom nodes.now work.new) }
{
    match masked_set(
        work,
        nodes,
        last,
        32,
        test.wildcard.bits(),
        test.addr.bits(),
    ) {
        Ok(set) => Ok(set),
        Err(_) => Err(SetError::Full),
    }
}

/// The headers whose protocol passes a test.
fn protocol_set<M: May>(
    work: &mut Work<M>,
    nodes: &Nodes<M>,
    test: ProtocolTest,
) -> Result<Ref, SetError>
    requires seat { IsSeatOf nodes.now work.old }
    requires may { HasNodes nodes.now.may (parts (protocol_set test)) }
    ensures seat { IsSeatOf nodes.now work.new }
    ensures keeps { Keeps work.old work.new }
    ensures set { IfOk result (λ r. SeatKnows work.new r.index (tree (protocol_set test))) }
    ensures room { IfErr result (IsWantOfRoom nodes.now work.new) }
{
    match test {
        ProtocolTest::Any => Ok(ALWAYS),
        ProtocolTest::Is(number) => exact_set(work, nodes, PROTO_LAST, 8, u32::from(number)),
    }
}

/// The headers that pass the line's tests of the way: protocol, addresses and ports.
fn way_set<M: May>(
    work: &mut Work<M>,
    nodes: &Nodes<M>,
    line: &AccessListLine,
) -> Result<Ref, SetError>
    requires seat { IsSeatOf nodes.now work.old }
    requires may { HasNodes nodes.now.may (parts (way_set line.now)) }
    ensures seat { IsSeatOf nodes.now work.new }
    ensures keeps { Keeps work.old work.new }
    ensures set { IfOk result (λ r. SeatKnows work.new r.index (tree (way_set line.now))) }
    ensures cause { IfErr result (IsCause nodes.now work.new) }
{
    let protocol = protocol_set(work, nodes, line.protocol)?;
    let source = address_set(work, nodes, SRC_LAST, line.source)?;
    let sources = work.and(nodes, protocol, source)?;
    let source_port = port_set(work, nodes, SPORT_LAST, &line.source_port)?;
    let senders = work.and(nodes, sources, source_port)?;
    let destination = address_set(work, nodes, DST_LAST, line.destination)?;
    let ways = work.and(nodes, senders, destination)?;
    let destination_port = port_set(work, nodes, DPORT_LAST, &line.destination_port)?;
    work.and(nodes, ways, destination_port)
}

/// The headers that a line matches.
pub(crate) fn line_set<M: May>(
    work: &mut Work<M>,
    nodes: &Nodes<M>,
    line: &AccessListLine,
) -> Result<Ref, SetError>
    requires seat { IsSeatOf nodes.now work.old }
    requires may { HasNodes nodes.now.may (parts (line_set line.now)) }
    ensures seat { IsSeatOf nodes.now work.new }
    ensures keeps { Keeps work.old work.new }
    ensures set { IfOk result (λ r. SeatKnows work.new r.index (tree (line_set line.now))) }
    ensures cause { IfErr result (IsCause nodes.now work.new) }
{
    let way = way_set(work, nodes, line)?;
    let icmp_type = type_set(work, nodes, line.further)?;
    let typed = work.and(nodes, way, icmp_type)?;
    let code = code_set(work, nodes, line.further)?;
    let coded = work.and(nodes, typed, code)?;
    let flags = flag_set(work, nodes, line.further)?;
    work.and(nodes, coded, flags)
}

/// A line in front of a set: permit adds what it matches, deny takes it away.
fn with_line<M: May>(
    work: &mut Work<M>,
    nodes: &Nodes<M>,
    action: Action,
    matched: Ref,
    set: Ref,
) -> Result<Ref, SetError>
    requires seat { IsSeatOf nodes.now work.old }
    requires may { MayAdd nodes.now work.old action matched.index set.index }
    ensures seat { IsSeatOf nodes.now work.new }
    ensures keeps { Keeps work.old work.new }
    ensures set { IfOk result (λ r. (m t : Recipe) → SeatKnows work.old matched.index (tree m) → SeatKnows work.old set.index (tree t) → SeatKnows work.new r.index (tree (with_line action m t))) }
    ensures cause { IfErr result (IsCause nodes.now work.new) }
{
    match action {
        Action::Permit => work.or(nodes, set, matched),
        Action::Deny => work.minus(nodes, set, matched),
    }
}

/// The headers that an access list permits, made of its lines from the last to the first.
pub fn filter_set<M: May>(
    work: &mut Work<M>,
    nodes: &Nodes<M>,
    access_list: &AccessList,
) -> Result<Ref, SetError>
    requires seat { IsSeatOf nodes.now work.old }
    requires may { HasNodes nodes.now.may (parts (lines_set access_list.now.lines)) }
    ensures seat { IsSeatOf nodes.now work.new }
    ensures keeps { Keeps work.old work.new }
    ensures set { IfOk result (λ r. SeatKnows work.new r.index (tree (lines_set access_list.now.lines))) }
    ensures cause { IfErr result (IsCause nodes.now work.new) }
{
    let mut set = NEVER;
    for line in access_list.lines.iter().rev() {
        let matched = line_set(work, nodes, line)?;
        set = with_line(work, nodes, line.action, matched, set)?;
    }
    Ok(set)
}
