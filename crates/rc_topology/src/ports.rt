//! What is kept of the interfaces of all routers.
ghost use Rattle.std.specs.Prelude.{◌≡◌, ◌++◌, [], OnOk, IfOk, map, slice_get, ◌∷◌};
ghost use Rattle.std.specs.Option.{option_map_or};
ghost use Rattle.rc_config.specs.declared.router_text.RouterText.{RouterText as FileModel};
ghost use Rattle.rc_topology.specs.Ports.{all_ports, port_of, ports_of};

use crate::Port;
use rc_base::Items;
use rc_config::{IfType, Network, RouterText};
use std::alloc::{AllocError, Global};

/// Appends a port.
fn push(ports: &mut Items<Port>, port: Port) -> Result<(), AllocError>
    ensures { OnOk result (ports.new ≡ ports.old ++ port ∷ []) }
{
    // For the proof: that of a push wants each enum within the element named in the function.
    let _kind: Option<IfType> = None;
    ports.push(port)?;
    Ok(())
}

/// Appends what is kept of the interface at an index.
fn add_port(
    alloc: Global,
    file: &RouterText,
    index: usize,
    ports: &mut Items<Port>,
) -> Result<(), AllocError>
    ensures { OnOk result (ports.new ≡ ports.old ++ option_map_or (λ e. port_of file.now.interfaces e ∷ []) (slice_get file.now.interfaces index) []) }
{
    let found = file.interfaces.at(index);
    match found {
        None => Ok(()),
        Some((name, interface)) => push(ports, Port::of(alloc, file, name, interface)?),
    }
}

/// What is kept of the interfaces of a file.
#[tactic(auto, using(crate::proofs::ListLaws::mapped_more))]
fn ports_of(alloc: Global, file: &RouterText) -> Result<Items<Port>, AllocError>
    ensures { IfOk result (λ ports. ports ≡ ports_of file.now) }
{
    let mut ports = Items::new(alloc);
    for index in 0..file.interfaces.len() {
        add_port(alloc, file, index, &mut ports)?;
    }
    Ok(ports)
}

/// Appends what is kept of the interfaces of the router at an index.
fn add_router(
    alloc: Global,
    net: &Network,
    index: usize,
    links: &mut Items<Items<Port>>,
) -> Result<(), AllocError>
    ensures { OnOk result (links.new ≡ links.old ++ option_map_or (λ e. ports_of e.1 ∷ []) (slice_get net.now.routers index) []) }
{
    // For the proof: that of a push wants each enum within the element named in the function.
    let _kind: Option<IfType> = None;
    let found = net.routers.at(index);
    match found {
        None => Ok(()),
        Some((_, file)) => {
            let ports = ports_of(alloc, file)?;
            links.push(ports)?;
            Ok(())
        }
    }
}

/// What is kept of the interfaces of each router.
#[tactic(auto, using(crate::proofs::ListLaws::mapped_more), unfolding(crate::specs::Ports::all_ports))]
pub(crate) fn all_ports(alloc: Global, net: &Network) -> Result<Items<Items<Port>>, AllocError>
    ensures { IfOk result (λ ports. ports ≡ all_ports net.now) }
{
    let mut links = Items::new(alloc);
    for index in 0..net.routers.len() {
        add_router(alloc, net, index, &mut links)?;
    }
    Ok(links)
}
