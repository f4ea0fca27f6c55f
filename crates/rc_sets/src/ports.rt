//! The sets of an access list's tests of ports.
ghost use Rattle.std.specs.Prelude.{◌≡◌, ◌⊎◌, ◌^◌, ◌<◌, ◌≤◌, ◌+◌, IfOk, IfErr, ℕ};
ghost use Rattle.rc_bdd.specs.Work.{IsCause, IsWantOfRoom};
ghost use Rattle.rc_nodes.specs.Seats.{IsSeatOf, Keeps, SeatKnows};
ghost use Rattle.rc_sets.specs.AccessLists.{port_set};
ghost use Rattle.rc_sets.specs.Intervals.{IsPort, between};
ghost use Rattle.rc_trees.specs.Fields.{exact};
ghost use Rattle.rc_trees.specs.Recipes.{given, minus, parts, tree, union_of};
ghost use Rattle.rc_trees.specs.Trees.{HasNodes, HasNodesOf, always};

use crate::interval::interval;
use crate::number::exact_set;
use rc_bdd::{SetError, Work};
use rc_config::PortTest;
use rc_nodes::{ALWAYS, May, NEVER, Nodes, Ref};

/// How many ports there are.
const PORTS: u32 = 65536;

/// The headers of which a port is one of these.
fn one_of<M: May>(
    work: &mut Work<M>,
    nodes: &Nodes<M>,
    last: u8,
    ports: &[u16],
) -> Result<Ref, SetError>
    requires seat { IsSeatOf nodes.now work.old }
    requires port { IsPort last }
    requires may { HasNodes nodes.now.may (parts (union_of (λ n. given (exact last 16 n)) ports.now)) }
    ensures seat { IsSeatOf nodes.now work.new }
    ensures keeps { Keeps work.old work.new }
    ensures set { IfOk result (λ r. SeatKnows work.new r.index (tree (union_of (λ n. given (exact last 16 n)) ports.now))) }
    ensures cause { IfErr result (IsCause nodes.now work.new) }
{
    let mut set = NEVER;
    for port in ports {
        let alone = exact_set(work, nodes, last, 16, u32::from(*port))?;
        set = work.or(nodes, set, alone)?;
    }
    Ok(set)
}

/// The headers of which a port is none of these.
fn none_of<M: May>(
    work: &mut Work<M>,
    nodes: &Nodes<M>,
    last: u8,
    ports: &[u16],
) -> Result<Ref, SetError>
    requires seat { IsSeatOf nodes.now work.old }
    requires port { IsPort last }
    requires may { HasNodes nodes.now.may (parts (minus (given always) (union_of (λ n. given (exact last 16 n)) ports.now))) }
    ensures seat { IsSeatOf nodes.now work.new }
    ensures keeps { Keeps work.old work.new }
    ensures set { IfOk result (λ r. SeatKnows work.new r.index (tree (minus (given always) (union_of (λ n. given (exact last 16 n)) ports.now)))) }
    ensures cause { IfErr result (IsCause nodes.now work.new) }
{
    let some = one_of(work, nodes, last, ports)?;
    work.minus(nodes, ALWAYS, some)
}

/// The headers of which a port is at least `low` and lower than `end`.
fn from_to<M: May>(
    work: &mut Work<M>,
    nodes: &Nodes<M>,
    last: u8,
    low: u32,
    end: u32,
) -> Result<Ref, SetError>
    requires seat { IsSeatOf nodes.now work.old }
    requires port { IsPort last }
    requires may { HasNodesOf nodes.now.may (between last 16 low end) }
    ensures seat { IsSeatOf nodes.now work.new }
    ensures keeps { Keeps work.old work.new }
    ensures set { IfOk result (λ r. SeatKnows work.new r.index (between last 16 low end)) }
    ensures room { IfErr result (IsWantOfRoom nodes.now work.new) }
{
    match interval(work, nodes, last, 16, low, end) {
        Ok(set) => Ok(set),
        Err(_) => Err(SetError::Full),
    }
}

/// The headers of which a port, the last bit of which is the header's bit `last`, passes a test.
pub(crate) fn port_set<M: May>(
    work: &mut Work<M>,
    nodes: &Nodes<M>,
    last: u8,
    test: &PortTest,
) -> Result<Ref, SetError>
    requires seat { IsSeatOf nodes.now work.old }
    requires port { IsPort last }
    requires may { HasNodes nodes.now.may (parts (port_set last test.now)) }
    ensures seat { IsSeatOf nodes.now work.new }
    ensures keeps { Keeps work.old work.new }
    ensures set { IfOk result (λ r. SeatKnows work.new r.index (tree (port_set last test.now))) }
    ensures cause { IfErr result (IsCause nodes.now work.new) }
{
    match test {
        PortTest::Any => Ok(ALWAYS),
        PortTest::Equal(ports) => one_of(work, nodes, last, ports.as_slice()),
        PortTest::NotEqual(ports) => none_of(work, nodes, last, ports.as_slice()),
        PortTest::Below(port) => from_to(work, nodes, last, 0, u32::from(*port)),
        PortTest::Above(port) => from_to(work, nodes, last, u32::from(*port) + 1, PORTS),
        PortTest::Within(low, high) => {
            let end = u32::from(*high) + 1;
            from_to(work, nodes, last, u32::from(*low), end)
        }
    }
}
