//! What the lines of OSPF change: those of a process, and those in the blocks of interfaces.
ghost use Rattle.std.specs.Prelude.{◌≡◌, IfOk, OnOk};
ghost use Rattle.rc_config.specs.Ospf as spec;

use rc_base::Items;
use rc_config::{
    Mention, OspfLine, OspfProcess, OspfSetting, OspfSettings, RedistributedSource, Redistribution,
};
use std::alloc::{AllocError, Global};

/// Puts one more line, which counts in place of an earlier one of the same kind, and an area in place of one of the same
/// process.
pub(crate) fn put_setting(
    settings: &mut OspfSettings,
    setting: OspfSetting,
) -> Result<(), AllocError>
    ensures { OnOk result (settings.new ≡ spec.with_setting settings.old setting) }
{
    match setting {
        OspfSetting::Cost(cost) => settings.cost = Some(cost),
        OspfSetting::HelloInterval(seconds) => settings.hello = Some(seconds),
        OspfSetting::DeadInterval(seconds) => settings.dead = Some(seconds),
        OspfSetting::NetworkType(network) => settings.network = Some(network),
        OspfSetting::Area(area) => {
            settings.areas.insert(area)?;
        }
    }
    Ok(())
}

/// Whether two are one source, whatever the number of an AS: of a file's lines about one source the last counts.
fn is_same_source(a: RedistributedSource, b: RedistributedSource) -> bool
    ensures { result ≡ spec.is_same_source a b }
{
    match (a, b) {
        (RedistributedSource::Connected, RedistributedSource::Connected) => true,
        (RedistributedSource::Static, RedistributedSource::Static) => true,
        (RedistributedSource::Bgp(_), RedistributedSource::Bgp(_)) => true,
        _ => false,
    }
}

/// What is redistributed with one more line, which counts in place of an earlier one from the same source.
fn with_redistribution(
    alloc: Global,
    known: &[Redistribution],
    line: Redistribution,
) -> Result<Items<Redistribution>, AllocError>
    ensures { IfOk result (λ made. made ≡ spec.with_redistribution known.now line) }
{
    // For the proof: that of a push wants each enum within the element named in the function.
    let _named: Option<Mention> = None;
    let mut made = Items::new(alloc);
    for other in known {
        if !is_same_source(other.source, line.source) {
            made.push(*other)?;
        }
    }
    made.push(line)?;
    Ok(made)
}

/// Puts a `redistribute` line.
fn put_redistribution(process: &mut OspfProcess, line: Redistribution) -> Result<(), AllocError>
    ensures { OnOk result (process.new ≡ record process.old { redistributions = spec.with_redistribution process.old.redistributions line }) }
{
    let alloc = process.passive.allocator();
    let made = with_redistribution(alloc, process.redistributions.as_slice(), line)?;
    process.redistributions = made;
    Ok(())
}

/// Puts one more line: a `network` line goes behind the others, and any other counts in place of an earlier one of the same
/// kind, with its own options alone: of `passive-interface` lines in place of one about the same interface, of `area` lines of
/// one about the same area, and of `redistribute` lines of one about the same source.
pub(crate) fn put_line(process: &mut OspfProcess, line: OspfLine) -> Result<(), AllocError>
    ensures { OnOk result (process.new ≡ spec.with_line process.old line) }
{
    match line {
        OspfLine::RouterId(id) => process.router_id = Some(id),
        OspfLine::Network(network) => process.networks.push(network)?,
        OspfLine::PassiveDefault => process.passive_default = true,
        OspfLine::Passive { interface, passive } => {
            process.passive.insert(interface, passive)?;
        }
        OspfLine::ReferenceBandwidth(mbits) => process.reference_bandwidth = mbits,
        OspfLine::Stub(area) => {
            process.stub_areas.insert(area)?;
        }
        OspfLine::Redistribute(line) => put_redistribution(process, line)?,
        OspfLine::DefaultInformation(line) => process.default_information = Some(line),
    }
    Ok(())
}
