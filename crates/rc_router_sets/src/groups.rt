//! What access groups let pass.
ghost use Rattle.std.specs.Prelude.{◌≡◌, IfOk, IfErr};
ghost use Rattle.rc_bdd.specs.Work.{IsCause};
ghost use Rattle.rc_config.specs.declared.interface.Direction.TheVariants.{Out};
ghost use Rattle.rc_router_sets.specs.Sent.{let_in, passing_at};
ghost use Rattle.rc_nodes.specs.Seats.{IsSeatOf, Keeps, SeatKnows};
ghost use Rattle.rc_sets.specs.AccessLists.{group_set, passing_set};
ghost use Rattle.rc_trees.specs.Recipes.{parts, tree};
ghost use Rattle.rc_trees.specs.Trees.{HasNodes};
ghost use Rattle.std.specs.Option.{option_copied};

use rc_base::{IfId, Name, Pos};
use rc_bdd::{SetError, Work};
use rc_config::{AccessList, Direction, Named, Network};
use rc_nodes::{ALWAYS, May, Nodes, Ref};
use rc_sets::filter_set;

/// What a list passes as an access group: everything where it has no line.
fn list_set<M: May>(
    work: &mut Work<M>,
    nodes: &Nodes<M>,
    list: &AccessList,
) -> Result<Ref, SetError>
    requires seat { IsSeatOf nodes.now work.old }
    requires may { HasNodes nodes.now.may (parts (group_set list.now.lines)) }
    ensures seat { IsSeatOf nodes.now work.new }
    ensures keeps { Keeps work.old work.new }
    ensures set { IfOk result (λ r. SeatKnows work.new r.index (tree (group_set list.now.lines))) }
    ensures cause { IfErr result (IsCause nodes.now work.new) }
{
    if list.lines.is_empty() {
        return Ok(ALWAYS);
    }
    filter_set(work, nodes, list)
}

/// What an access group passes: everything where there is none, or none of its name is there.
fn group_set<M: May>(
    work: &mut Work<M>,
    nodes: &Nodes<M>,
    lists: &Named<AccessList>,
    group: Option<&Name>,
) -> Result<Ref, SetError>
    requires seat { IsSeatOf nodes.now work.old }
    requires may { HasNodes nodes.now.may (parts (passing_set lists.now (option_copied group))) }
    ensures seat { IsSeatOf nodes.now work.new }
    ensures keeps { Keeps work.old work.new }
    ensures set { IfOk result (λ r. SeatKnows work.new r.index (tree (passing_set lists.now (option_copied group.entry)))) }
    ensures cause { IfErr result (IsCause nodes.now work.new) }
{
    let Some(name) = group else {
        return Ok(ALWAYS);
    };
    let Some(list) = lists.get(name) else {
        return Ok(ALWAYS);
    };
    list_set(work, nodes, list)
}

/// What an interface lets pass in a direction.
fn interface_group_set<M: May>(
    work: &mut Work<M>,
    nodes: &Nodes<M>,
    net: &Network,
    direction: Direction,
    interface: &IfId,
) -> Result<Ref, SetError>
    requires seat { IsSeatOf nodes.now work.old }
    requires may { HasNodes nodes.now.may (parts (passing_at net.now direction interface.now)) }
    ensures seat { IsSeatOf nodes.now work.new }
    ensures keeps { Keeps work.old work.new }
    ensures set { IfOk result (λ r. SeatKnows work.new r.index (tree (passing_at net.now direction interface.now))) }
    ensures cause { IfErr result (IsCause nodes.now work.new) }
{
    let Some(router) = net.router_at(interface.router) else {
        return Ok(ALWAYS);
    };
    let Some((_, block)) = router.interfaces.at(interface.index) else {
        return Ok(ALWAYS);
    };
    group_set(
        work,
        nodes,
        &router.lists.access_lists,
        block.group(direction),
    )
}

/// What the router at a position takes in.
pub fn let_in_set<M: May>(
    work: &mut Work<M>,
    nodes: &Nodes<M>,
    net: &Network,
    position: &Pos,
) -> Result<Ref, SetError>
    requires seat { IsSeatOf nodes.now work.old }
    requires may { HasNodes nodes.now.may (parts (let_in net.now position.now)) }
    ensures seat { IsSeatOf nodes.now work.new }
    ensures keeps { Keeps work.old work.new }
    ensures set { IfOk result (λ r. SeatKnows work.new r.index (tree (let_in net.now position.now))) }
    ensures cause { IfErr result (IsCause nodes.now work.new) }
{
    match position {
        Pos::Own(_) => Ok(ALWAYS),
        Pos::Entering(interface) => {
            interface_group_set(work, nodes, net, Direction::In, interface)
        }
    }
}

/// What an interface lets out.
pub fn let_out_set<M: May>(
    work: &mut Work<M>,
    nodes: &Nodes<M>,
    net: &Network,
    interface: &IfId,
) -> Result<Ref, SetError>
    requires seat { IsSeatOf nodes.now work.old }
    requires may { HasNodes nodes.now.may (parts (passing_at net.now Out interface.now)) }
    ensures seat { IsSeatOf nodes.now work.new }
    ensures keeps { Keeps work.old work.new }
    ensures set { IfOk result (λ r. SeatKnows work.new r.index (tree (passing_at net.now Out interface.now))) }
    ensures cause { IfErr result (IsCause nodes.now work.new) }
{
    interface_group_set(work, nodes, net, Direction::Out, interface)
}
