//! What each line of an access list decides.
ghost use Rattle.std.specs.Prelude.{◌≡◌, List, [], ℕ, true, false, not, IfOk, IfErr};
ghost use Rattle.rc_bdd.specs.Work.{IsCause};
ghost use Rattle.rc_config.specs.declared.access_list.AccessListLine.{AccessListLine as Line};
ghost use Rattle.rc_filter.specs.Verdict.{matches_address, matches_protocol};
ghost use Rattle.rc_nodes.specs.Seats.{IsSeatOf, Keeps, SeatKnows};
ghost use Rattle.rc_sets.specs.Deciding.{AreApart, AreDecided, IsDecided, KnowsDecided};
ghost use Rattle.rc_sets.specs.IdleLines.{all_parts, decided, idle_sets, is_empty, seen, shared};
ghost use Rattle.rc_trees.specs.Recipes.{parts, tree};
ghost use Rattle.rc_trees.specs.Trees.{HasNodes};

use crate::access_list::line_set;
use rc_base::Addr;
use rc_bdd::{SetError, Work};
use rc_config::{AccessListLine, AddressTest, ByNumber, ProtocolTest};
use rc_filter::matches_address;
use rc_nodes::{May, NEVER, Nodes, Ref};
use std::alloc::Global;

/// A line, and what it decides.
#[derive(Clone, Copy)]
pub(crate) struct Decided {
    /// The line's sequence number.
    pub sequence: u32,
    pub protocol: ProtocolTest,
    pub source: AddressTest,
    pub destination: AddressTest,
    /// The headers that it matches.
    pub matched: Ref,
    /// Of these the ones that no line before it matches.
    pub own: Ref,
}

/// Whether some address may pass both tests: none does where they ask for another value of one bit.
fn agree_on_address(one: &AddressTest, other: &AddressTest) -> bool
    ensures { result ≡ false → (a : ℕ) → matches_address one.now a ≡ true → matches_address other.now a ≡ true → ⊥ }
{
    let both = AddressTest {
        addr: one.addr,
        wildcard: Addr::new(one.wildcard.bits() | other.wildcard.bits()),
    };
    matches_address(&both, other.addr)
}

/// Whether some protocol passes both tests.
fn agree_on_protocol(one: ProtocolTest, other: ProtocolTest) -> bool
    ensures { result ≡ false → (p : ℕ) → matches_protocol one p ≡ true → matches_protocol other p ≡ true → ⊥ }
{
    match one {
        ProtocolTest::Any => true,
        ProtocolTest::Is(number) => match other {
            ProtocolTest::Any => true,
            ProtocolTest::Is(another) => number == another,
        },
    }
}

impl Decided {
    /// Whether some header may match both lines, by their protocols and addresses.
    fn may_share(&self, other: &Decided) -> bool
        ensures { result ≡ false → AreApart self.now other.now }
    {
        agree_on_protocol(self.protocol, other.protocol)
            && agree_on_address(&self.source, &other.source)
            && agree_on_address(&self.destination, &other.destination)
    }

    /// Whether it decides something that a later line matches.
    pub fn decides_of<M: May>(&self, work: &mut Work<M>, nodes: &Nodes<M>, later: &Decided) -> bool
        requires seat { IsSeatOf nodes.now work.old }
        requires known { KnowsDecided work.old self.now × KnowsDecided work.old later.now }
        ensures seat { IsSeatOf nodes.now work.new }
        ensures keeps { Keeps work.old work.new }
        ensures decides { (before all : List Line) (l k : Line) → IsDecided work.old before l self.now → IsDecided work.old all k later.now → result ≡ not (is_empty (shared k before l)) }
    {
        if !self.may_share(later) {
            return false;
        }
        work.meets(nodes, later.matched, self.own)
    }
}

/// A line, where the headers that the lines before it match are known, and what it decides.
fn decide<M: May>(
    work: &mut Work<M>,
    nodes: &Nodes<M>,
    line: &AccessListLine,
    earlier: Ref,
) -> Result<Decided, SetError>
    requires seat { IsSeatOf nodes.now work.old }
    requires may { (before : List Line) × SeatKnows work.old earlier.index (tree (seen before)) × HasNodes nodes.now.may (parts (decided before line.now)) }
    ensures seat { IsSeatOf nodes.now work.new }
    ensures keeps { Keeps work.old work.new }
    ensures decided { IfOk result (λ one. (before : List Line) → SeatKnows work.old earlier.index (tree (seen before)) → IsDecided work.new before line.now one) }
    ensures cause { IfErr result (IsCause nodes.now work.new) }
{
    let matched = line_set(work, nodes, line)?;
    let own = work.minus(nodes, matched, earlier)?;
    Ok(Decided {
        sequence: line.sequence,
        protocol: line.protocol,
        source: line.source,
        destination: line.destination,
        matched,
        own,
    })
}

/// What each line decides, from the first line to the last.
pub(crate) fn decide_all<M: May>(
    alloc: Global,
    work: &mut Work<M>,
    nodes: &Nodes<M>,
    lines: &ByNumber<AccessListLine>,
) -> Result<Vec<Decided>, SetError>
    requires seat { IsSeatOf nodes.now work.old }
    requires may { HasNodes nodes.now.may (all_parts (idle_sets lines.now)) }
    ensures seat { IsSeatOf nodes.now work.new }
    ensures keeps { Keeps work.old work.new }
    ensures decided { IfOk result (λ all. AreDecided work.new [] lines.now all.items) }
    ensures cause { IfErr result (IsCause nodes.now work.new) }
{
    let mut all = Vec::new(alloc);
    let mut seen = NEVER;
    let mut last = NEVER;
    for line in lines.iter() {
        seen = work.or(nodes, seen, last)?;
        let one = decide(work, nodes, line, seen)?;
        last = one.matched;
        let Ok(()) = all.push(one) else {
            return Err(SetError::Memory);
        };
    }
    Ok(all)
}
