//! The types of interfaces that may have addresses.
ghost use Rattle.std.specs.Prelude.{◌≡◌, position};
ghost use Rattle.std.specs.Char.{is_ascii_digit};
ghost use Rattle.rc_config.specs.IfType.{all_types, front_of, main_name, main_within, nominal_bandwidth, type_of, type_word};

use crate::down::parent_of;
use rc_base::Name;

/// A type of interfaces that may have addresses. An interface of any other type is taken, and has none.
#[derive(Clone, Copy, PartialEq, Eq)]
pub enum IfType {
    Ethernet,
    FastEthernet,
    GigabitEthernet,
    TenGigabitEthernet,
    Serial,
    Loopback,
    Vlan,
    PortChannel,
}

impl IfType {
    /// The bandwidth in kbit/s of an interface whose block sets none.
    pub fn nominal_bandwidth(self) -> u32
        ensures { result ≡ nominal_bandwidth self }
    {
        match self {
            IfType::Ethernet => 10_000,
            IfType::FastEthernet => 100_000,
            IfType::GigabitEthernet => 1_000_000,
            IfType::TenGigabitEthernet => 10_000_000,
            IfType::Serial => 1_544,
            IfType::Loopback => 8_000_000,
            IfType::Vlan => 1_000_000,
            IfType::PortChannel => 1_000_000,
        }
    }

    /// The front of the names of its interfaces.
    fn word(self) -> &'static [u8]
        ensures { result.now ≡ type_word self }
    {
        match self {
            IfType::Ethernet => b"Ethernet",
            IfType::FastEthernet => b"FastEthernet",
            IfType::GigabitEthernet => b"GigabitEthernet",
            IfType::TenGigabitEthernet => b"TenGigabitEthernet",
            IfType::Serial => b"Serial",
            IfType::Loopback => b"Loopback",
            IfType::Vlan => b"Vlan",
            IfType::PortChannel => b"Port-channel",
        }
    }
}

static ALL: [IfType; 8] = [
    IfType::Ethernet,
    IfType::FastEthernet,
    IfType::GigabitEthernet,
    IfType::TenGigabitEthernet,
    IfType::Serial,
    IfType::Loopback,
    IfType::Vlan,
    IfType::PortChannel,
];

/// All types.
fn all() -> &'static [IfType]
    ensures { result.now ≡ all_types }
{
    &ALL
}

/// The index of the first digit.
fn digit_at(text: &[u8]) -> Option<usize>
    ensures { result ≡ position is_ascii_digit text.now }
{
    text.iter().position(|b| b.is_ascii_digit())
}

/// What stands before the first digit.
fn front(text: &[u8]) -> &[u8]
    ensures { result.now ≡ front_of text.now }
{
    match digit_at(text) {
        Some(end) => &text[..end],
        None => text,
    }
}

/// The name above so many parents, or above as many as there are.
fn main_within(parents: usize, name: &Name) -> Name
    ensures { result ≡ main_within parents name.now }
{
    if parents == 0 {
        return *name;
    }
    let parent = parent_of(name);
    match parent {
        Some(parent) => main_within(parents - 1, &parent),
        None => *name,
    }
}

/// The name of the main interface: that of a subinterface is its parent's.
fn main_name(name: &Name) -> Name
    ensures { result ≡ main_name name.now }
{
    main_within(name.as_bytes().len(), name)
}

/// The type of the interfaces of this name, or `None` exactly where it is none of the types that have addresses. The
/// type is the front of the name of the main interface up to its first digit, so that a subinterface has its parent's.
#[tactic(auto, unfolding(crate::specs::IfType::type_of))]
pub fn type_of_name(name: &Name) -> Option<IfType>
    ensures { result ≡ type_of name.now }
{
    let main = main_name(name);
    let front = front(main.as_bytes());
    for kind in all() {
        if kind.word() == front {
            return Some(*kind);
        }
    }
    None
}
