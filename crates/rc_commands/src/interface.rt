//! What a line in the block of an interface changes.
ghost use Rattle.std.specs.Prelude.{◌≡◌, OnOk};
ghost use Rattle.rc_config.specs.Interface.{with_address, with_group, with_line};

use crate::ospf::put_setting;
use rc_base::Name;
use rc_config::{Direction, IfAddr, Interface, InterfaceLine};
use std::alloc::AllocError;

/// Puts one more secondary address, or this primary address in place of any other.
fn put_address(
    interface: &mut Interface,
    address: IfAddr,
    secondary: bool,
) -> Result<(), AllocError>
    ensures { OnOk result (interface.new ≡ with_address interface.old address secondary) }
{
    if secondary {
        interface.secondary.push(address)?;
    } else {
        interface.primary = Some(address);
    }
    Ok(())
}

/// Puts this list in a direction, in place of any other.
fn put_group(interface: &mut Interface, list: Name, direction: Direction)
    ensures { interface.new ≡ with_group interface.old list direction }
{
    match direction {
        Direction::In => interface.access_group_in = Some(list),
        Direction::Out => interface.access_group_out = Some(list),
    }
}

/// Puts one more line of the block: a secondary address goes behind the others, and any other line counts in place of an
/// earlier one of the same kind, and of `ip access-group` lines in place of one of the same direction.
pub(crate) fn put_line(interface: &mut Interface, line: InterfaceLine) -> Result<(), AllocError>
    ensures { OnOk result (interface.new ≡ with_line interface.old line) }
{
    match line {
        InterfaceLine::Address { address, secondary } => put_address(interface, address, secondary),
        InterfaceLine::Shutdown(down) => {
            interface.shutdown = down;
            Ok(())
        }
        InterfaceLine::Bandwidth(kbits) => {
            interface.bandwidth = Some(kbits);
            Ok(())
        }
        InterfaceLine::AccessGroup { list, direction } => {
            put_group(interface, list, direction);
            Ok(())
        }
        InterfaceLine::Ospf(setting) => put_setting(&mut interface.ospf, setting),
    }
}
