//! Interfaces and their addresses.
ghost use Rattle.std.specs.Prelude.{◌≡◌};
ghost use Rattle.std.specs.Option.{option_copied, SomeIff};
ghost use Rattle.rc_base.specs.Prefix.{prefix_at};
ghost use Rattle.rc_config.specs.MaskedAddr.{IsMaskLen};

use crate::{OspfSetting, OspfSettings};
use rc_base::{Addr, Items, Name, Prefix};
use std::alloc::Global;
use std::marker::Model;

/// An address of an interface with the length of its mask, from 1 to 32, seen as the record of the two.
///
/// The address is kept whole, its host bits too.
#[derive(Clone, Copy)]
pub struct IfAddr {
    addr: Addr,
    len: u8,
}

impl Model for IfAddr {
    ghost use Rattle.rc_config.specs.MaskedAddr.{MaskedAddr, IsMaskLen};

    ghost Value = { MaskedAddr };

    ghost view = { λ a. record { addr = a.addr; len = a.len } };

    ghost invariant = { λ a. IsMaskLen a.len };

    ghost inverse = { λ a. record { addr = a.addr; len = a.len } };
}

impl IfAddr {
    /// The address with a mask of this length, or `None` exactly where the length isn't from 1 to 32.
    pub fn new(addr: Addr, len: u8) -> Option<IfAddr>
        ensures { SomeIff result (IsMaskLen len) (record { addr = addr; len = len }) }
    {
        if len == 0 || len > 32 {
            return None;
        }
        Some(IfAddr { addr, len })
    }

    /// The address.
    pub fn addr(&self) -> Addr
        ensures { result ≡ self.now.addr }
    {
        self.addr
    }

    /// The length of its mask, from 1 to 32.
    pub fn len(&self) -> u8
        ensures value { result ≡ self.now.len }
        ensures range { IsMaskLen result }
    {
        self.len
    }

    /// The prefix that it makes connected: the address without its host bits, under its mask.
    pub fn prefix(&self) -> Prefix
        ensures { result ≡ prefix_at self.now.addr self.now.len }
    {
        Prefix::new(self.addr, self.len).unwrap()
    }
}

/// The direction in which a list filters at an interface, or at a neighbour.
#[derive(Clone, Copy)]
pub enum Direction {
    /// What enters there, or comes from the neighbour.
    In,
    /// What goes out there, or to the neighbour.
    Out,
}

/// What the block of an interface says.
#[derive(Drop)]
pub struct Interface {
    /// The address of the last `ip address` line without `secondary`.
    pub primary: Option<IfAddr>,
    /// The secondary addresses as written, in order, the same one twice too.
    pub secondary: Items<IfAddr>,
    /// Whether the last of the lines `shutdown` and `no shutdown` is `shutdown`.
    pub shutdown: bool,
    /// The bandwidth that the block sets, from 1 to 10,000,000 kbit/s.
    pub bandwidth: Option<u32>,
    /// The list of the last line `ip access-group NAME in`. The file may have no list of this name.
    pub access_group_in: Option<Name>,
    /// The list of the last line `ip access-group NAME out`, likewise.
    pub access_group_out: Option<Name>,
    /// What the `ip ospf` lines set.
    pub ospf: OspfSettings,
}

/// What one line in the block of an interface says.
#[derive(Clone, Copy)]
pub enum InterfaceLine {
    /// `ip address A M`, or `ip address A M secondary`.
    Address { address: IfAddr, secondary: bool },
    /// `shutdown`, or `no shutdown`.
    Shutdown(bool),
    /// `bandwidth N`, in kbit/s.
    Bandwidth(u32),
    /// `ip access-group NAME in`, or `ip access-group NAME out`. The list need not be there.
    AccessGroup { list: Name, direction: Direction },
    /// An `ip ospf` line.
    Ospf(OspfSetting),
}

impl Interface {
    ghost use Rattle.rc_config.specs.Interface.{fresh, group_of};

    /// An interface with no line in its block. It takes no memory.
    pub fn new(alloc: Global) -> Interface
        ensures { result ≡ fresh }
    {
        Interface {
            primary: None,
            secondary: Items::new(alloc),
            shutdown: false,
            bandwidth: None,
            access_group_in: None,
            access_group_out: None,
            ospf: OspfSettings::new(alloc),
        }
    }

    /// The list that filters in a direction, or `None` exactly where no line names one.
    pub fn group(&self, direction: Direction) -> Option<&Name>
        ensures { option_copied result ≡ group_of self.now direction }
    {
        match direction {
            Direction::In => self.access_group_in.as_ref(),
            Direction::Out => self.access_group_out.as_ref(),
        }
    }
}
