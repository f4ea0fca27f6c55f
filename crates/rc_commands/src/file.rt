//! What a command changes in the model of a file, and what holds of it in the end.
ghost use Rattle.std.specs.Prelude.{◌≡◌, IfOk, OnOk, Some, unwrap_or, ◌++◌, ◌∷◌, []};
ghost use Rattle.std.specs.Option.{option_map};
ghost use Rattle.rc_config.specs.Bgp.{with_line as with_bgp_line};
ghost use Rattle.rc_config.specs.Lawful.{FitsFile, HasLawfulBgp, HasLawfulInterfaces, HasLawfulLists, HasLawfulOspf, HasLawfulRoutes, IsInRange, IsLawfulFile};
ghost use Rattle.rc_config.specs.Named.{index_of, named, with_value};
ghost use Rattle.rc_config.specs.Ospf.{with_line as with_ospf_line};
ghost use Rattle.rc_config.specs.RouteMap.{no_entries, opened, with_line};
ghost use Rattle.rc_config.specs.Interface.{fresh};
ghost use Rattle.rc_config.specs.Update.{after, bgp_opened, ospf_opened, settled_router, with_interface_line, with_interface_opened};

use crate::lift::lift;
use crate::route_map::{route_map_opened, route_map_with};
use crate::{bgp, interface, lists, ospf};
use rc_base::{Items, Name};
use rc_config::{
    Action, BgpLine, BgpProcess, Command, HostLine, Interface, InterfaceLine, MapLine, Named,
    OspfLine, OspfProcess, RouteMap, RouterText, StaticRoute, Target,
};
use std::alloc::{AllocError, Global};

/// Puts one more command: a later line of a block counts in place of an earlier one, a secondary address is one more, a
/// known interface, list or route map keeps its index, a static route or a line of a community list goes behind the
/// others, and a line of an access list, of a prefix list or an entry of a route map stands by its number. Where memory
/// runs out what is left is no model of the file.
///
/// Where all interfaces are lawful and the command's values are in range, all interfaces are lawful again, and so it is
/// with static routes and the OSPF and BGP processes; and with lists and route maps, where a line of an access list is
/// one of a list of its kind and its number is new there.
pub fn apply(file: &mut RouterText, command: Command) -> Result<(), AllocError>
    ensures value { OnOk result (file.new ≡ after file.old command) }
    ensures lawful { OnOk result (HasLawfulInterfaces file.old → IsInRange command → HasLawfulInterfaces file.new) }
    ensures routes { OnOk result (HasLawfulRoutes file.old → IsInRange command → HasLawfulRoutes file.new) }
    ensures lists { OnOk result (HasLawfulLists file.old → IsInRange command → FitsFile file.old command → HasLawfulLists file.new) }
    ensures ospf { OnOk result (HasLawfulOspf file.old → IsInRange command → HasLawfulOspf file.new) }
    ensures bgp { OnOk result (HasLawfulBgp file.old → IsInRange command → HasLawfulBgp file.new) }
{
    put_into(file, command)
}

/// Gives each BGP neighbour what holds of it in the end: its own settings over those of its peer group, and whether it is
/// active. Peer groups are gone then. Where memory runs out what is left is no model of the file.
pub fn settle(file: &mut RouterText, alloc: Global) -> Result<(), AllocError>
    ensures value { OnOk result (file.new ≡ settled_router file.old) }
    ensures lawful { OnOk result (IsLawfulFile file.old → IsLawfulFile file.new) }
{
    settle_bgp(file, alloc)
}

/// Settles the BGP process, where there is one.
fn settle_bgp(file: &mut RouterText, alloc: Global) -> Result<(), AllocError>
    ensures { OnOk result (file.new ≡ settled_router file.old) }
{
    match &mut file.bgp {
        Some(process) => bgp::settle(process, alloc),
        None => Ok(()),
    }
}

/// The model after one more command (`apply`).
pub fn put(mut file: RouterText, command: Command) -> Result<RouterText, AllocError>
    ensures value { IfOk result (λ r. r ≡ after file command) }
    ensures lawful { IfOk result (λ r. HasLawfulInterfaces file → IsInRange command → HasLawfulInterfaces r) }
    ensures routes { IfOk result (λ r. HasLawfulRoutes file → IsInRange command → HasLawfulRoutes r) }
    ensures lists { IfOk result (λ r. HasLawfulLists file → IsInRange command → FitsFile file command → HasLawfulLists r) }
    ensures ospf { IfOk result (λ r. HasLawfulOspf file → IsInRange command → HasLawfulOspf r) }
    ensures bgp { IfOk result (λ r. HasLawfulBgp file → IsInRange command → HasLawfulBgp r) }
{
    apply(&mut file, command)?;
    Ok(file)
}

/// One more command.
fn put_into(file: &mut RouterText, command: Command) -> Result<(), AllocError>
    ensures { OnOk result (file.new ≡ after file.old command) }
{
    match command {
        Command::Passed => Ok(()),
        Command::Remark => Ok(()),
        Command::Hostname { name, line } => {
            file.host = Some(HostLine { name, line });
            Ok(())
        }
        Command::Interface { name, line: _ } => put_opened(&mut file.interfaces, name),
        Command::InterfaceLine { interface, line } => {
            put_interface_line(&mut file.interfaces, interface, line)
        }
        Command::StaticRoute { route } => put_route(&mut file.static_routes, route),
        Command::ListLine { list, line } => lists::put_line(&mut file.lists, list, line),
        Command::MapOpened {
            map,
            number,
            action,
        } => put_map_opened(&mut file.route_maps, map, number, action),
        Command::MapLine { map, number, line } => {
            put_map_line(&mut file.route_maps, map, number, line)
        }
        Command::OspfOpened { process } => {
            let alloc = file.interfaces.allocator();
            put_ospf_opened(alloc, &mut file.ospf, process);
            Ok(())
        }
        Command::OspfLine { line } => put_ospf_line(&mut file.ospf, line),
        Command::BgpOpened { asn } => {
            let alloc = file.interfaces.allocator();
            put_bgp_opened(alloc, &mut file.bgp, asn);
            Ok(())
        }
        Command::BgpLine { line } => put_bgp_line(&mut file.bgp, line),
        Command::FamilyOpened => Ok(()),
        Command::OtherFamilyOpened => Ok(()),
        Command::FamilyClosed => Ok(()),
    }
}

/// The index of the block of a name, which is opened where it isn't there.
fn opened_at(blocks: &mut Named<Interface>, name: Name) -> Result<usize, AllocError>
    ensures blocks { OnOk result (blocks.new ≡ with_value blocks.old name (unwrap_or (named blocks.old name) fresh)) }
    ensures index { IfOk result (λ i. index_of blocks.new name ≡ Some i) }
{
    if let Some(index) = blocks.index_of(&name) {
        return Ok(index);
    }
    let last = blocks.len();
    let block = Interface::new(blocks.allocator());
    blocks.push(name, block)?;
    Ok(last)
}

/// `interface IF`
fn put_opened(blocks: &mut Named<Interface>, name: Name) -> Result<(), AllocError>
    ensures { OnOk result (blocks.new ≡ with_interface_opened blocks.old name) }
{
    opened_at(blocks, name)?;
    Ok(())
}

/// A line in the block of an interface, which is opened where it isn't there.
#[tactic(auto, using(crate::proofs::IndexLaws::written, crate::proofs::IndexLaws::held))]
fn put_interface_line(
    blocks: &mut Named<Interface>,
    name: Name,
    line: InterfaceLine,
) -> Result<(), AllocError>
    ensures { OnOk result (blocks.new ≡ with_interface_line blocks.old name line) }
{
    let index = opened_at(blocks, name)?;
    match blocks.at_mut(index) {
        Some(block) => interface::put_line(block, line),
        None => Ok(()),
    }
}

/// `route-map`
#[tactic(auto, using(crate::proofs::NamedLaws::with_value_again))]
fn put_map_opened(
    maps: &mut Named<RouteMap>,
    name: Name,
    number: u32,
    action: Action,
) -> Result<(), AllocError>
    ensures { OnOk result (maps.new ≡ with_value maps.old name (opened (unwrap_or (named maps.old name) no_entries) number action)) }
{
    let alloc = maps.allocator();
    let known = lift(maps, name, RouteMap::new(alloc), RouteMap::new(alloc))?;
    let known = route_map_opened(known, alloc, number, action)?;
    maps.insert(name, known)?;
    Ok(())
}

/// A line in the block of an entry of a route map.
#[tactic(auto, using(crate::proofs::NamedLaws::with_value_again))]
fn put_map_line(
    maps: &mut Named<RouteMap>,
    name: Name,
    number: u32,
    line: MapLine,
) -> Result<(), AllocError>
    ensures { OnOk result (maps.new ≡ with_value maps.old name (with_line (unwrap_or (named maps.old name) no_entries) number line)) }
{
    let alloc = maps.allocator();
    let known = lift(maps, name, RouteMap::new(alloc), RouteMap::new(alloc))?;
    let known = route_map_with(known, number, line)?;
    maps.insert(name, known)?;
    Ok(())
}

/// `router ospf`
fn put_ospf_opened(alloc: Global, ospf: &mut Option<OspfProcess>, process: u32)
    ensures { ospf.new ≡ Some (ospf_opened ospf.old process) }
{
    if ospf.is_none() {
        *ospf = Some(OspfProcess::new(alloc, process));
    }
}

/// A line in the block of the OSPF process, where there is one.
fn put_ospf_line(ospf: &mut Option<OspfProcess>, line: OspfLine) -> Result<(), AllocError>
    ensures { OnOk result (ospf.new ≡ option_map (λ p. with_ospf_line p line) ospf.old) }
{
    match ospf {
        Some(process) => ospf::put_line(process, line),
        None => Ok(()),
    }
}

/// `router bgp`
fn put_bgp_opened(alloc: Global, bgp: &mut Option<BgpProcess>, asn: u32)
    ensures { bgp.new ≡ Some (bgp_opened bgp.old asn) }
{
    if bgp.is_none() {
        *bgp = Some(BgpProcess::new(alloc, asn));
    }
}

/// A line in the block of the BGP process, where there is one.
fn put_bgp_line(bgp: &mut Option<BgpProcess>, line: BgpLine) -> Result<(), AllocError>
    ensures { OnOk result (bgp.new ≡ option_map (λ p. with_bgp_line p line) bgp.old) }
{
    match bgp {
        Some(process) => bgp::put_line(process, line),
        None => Ok(()),
    }
}

/// The static routes with this one behind the others.
fn put_route(routes: &mut Items<StaticRoute>, route: StaticRoute) -> Result<(), AllocError>
    ensures { OnOk result (routes.new ≡ routes.old ++ route ∷ []) }
{
    // The generated proof of a push wants each enum within the element named in the function.
    let _target: Target = Target::Null;
    routes.push(route)?;
    Ok(())
}
