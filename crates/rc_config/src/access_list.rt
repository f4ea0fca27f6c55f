//! Access lists (IOS `access-list` and `ip access-list`).
ghost use Rattle.std.specs.Prelude.{◌≡◌, ◌≤◌, All, IfSome};
ghost use Rattle.rc_config.specs.AccessList.{any_address, host_address, has_sequence, last_sequence, IsLawfulAccessList};
ghost use Rattle.rc_config.specs.declared.access_list.AccessListLine.{AccessListLine};

use crate::{ByNumber, Numbered, Ports};
use rc_base::Addr;
use std::alloc::Global;

/// What the lines of a list may test.
#[derive(Clone, Copy)]
pub enum AccessListKind {
    /// The source address alone.
    Standard,
    /// The protocol and both addresses, and the ports where the protocol is tcp or udp.
    Extended,
}

/// What becomes of a packet that a line matches.
#[derive(Clone, Copy)]
pub enum Action {
    Permit,
    Deny,
}

/// A test of the protocol (RFC 791 s.3.1).
#[derive(Clone, Copy)]
pub enum ProtocolTest {
    /// `ip`: every protocol.
    Any,
    /// The protocol of this number, and no other.
    Is(u8),
}

/// A test of an address: the bits whose wildcard bit is 0 are compared. The ones of a wildcard may stand anywhere, and
/// the bits of the address under them don't count.
#[derive(Clone, Copy)]
pub struct AddressTest {
    pub addr: Addr,
    pub wildcard: Addr,
}

impl AddressTest {
    /// `any`: every address.
    pub fn any() -> AddressTest
        ensures { result ≡ any_address }
    {
        AddressTest {
            addr: Addr::new(0),
            wildcard: Addr::new(u32::MAX),
        }
    }

    /// `host A`: this address alone.
    pub fn host(addr: Addr) -> AddressTest
        ensures { result ≡ host_address addr }
    {
        AddressTest {
            addr,
            wildcard: Addr::new(0),
        }
    }
}

/// A test of a port (RFC 9293 s.3.1, RFC 768).
#[derive(Clone, Copy)]
pub enum PortTest {
    /// Every port.
    Any,
    /// `eq`: one of these.
    Equal(Ports),
    /// `neq`: none of these.
    NotEqual(Ports),
    /// `lt`: lower than this.
    Below(u16),
    /// `gt`: higher than this.
    Above(u16),
    /// `range`: from the first to the second, both included.
    Within(u16, u16),
}

/// A test of what the packets of one protocol carry further. It is the line's last test.
#[derive(Clone, Copy)]
pub enum FurtherTest {
    /// Nothing more.
    Any,
    /// `established`: ACK or RST is 1 (RFC 9293 s.3.1). It stands in tcp lines alone.
    Established,
    /// The ICMP type, and the code where the line gives one (RFC 792). It stands in icmp lines alone.
    Icmp { icmp_type: u8, code: Option<u8> },
}

/// A line of a list, which matches the headers that pass all of its tests.
#[derive(Clone, Copy)]
pub struct AccessListLine {
    /// The sequence number, from 1 to 2147483647.
    pub sequence: u32,
    pub action: Action,
    pub protocol: ProtocolTest,
    pub source: AddressTest,
    pub source_port: PortTest,
    pub destination: AddressTest,
    pub destination_port: PortTest,
    pub further: FurtherTest,
}

impl AccessListLine {
    ghost use Rattle.rc_config.specs.AccessList.{standard_line};

    /// A line of a standard list, which tests the source alone.
    pub fn standard(sequence: u32, action: Action, source: AddressTest) -> AccessListLine
        ensures { result ≡ standard_line sequence action source }
    {
        AccessListLine {
            sequence,
            action,
            protocol: ProtocolTest::Any,
            source,
            source_port: PortTest::Any,
            destination: AddressTest::any(),
            destination_port: PortTest::Any,
            further: FurtherTest::Any,
        }
    }
}

impl Numbered for AccessListLine {
    ghost number = { λ l. l.sequence };

    fn number(&self) -> u32 {
        self.sequence
    }
}

/// An access list: its lines by rising sequence number.
#[derive(Drop)]
pub struct AccessList {
    pub kind: AccessListKind,
    pub lines: ByNumber<AccessListLine>,
}

impl AccessList {
    ghost use Rattle.rc_config.specs.AccessList.{no_lines};

    /// A list without lines. It takes no memory.
    #[tactic(auto, using(crate::proofs::AccessListLaws::no_lines_lawful))]
    pub fn new(alloc: Global, kind: AccessListKind) -> AccessList
        ensures value { result ≡ no_lines kind }
        ensures lawful { IsLawfulAccessList result }
    {
        AccessList {
            kind,
            lines: ByNumber::new(alloc),
        }
    }

    /// The number of the last line, which is the greatest, or `None` exactly where there are no lines.
    pub fn greatest(&self) -> Option<u32>
        ensures value { result ≡ last_sequence self.now.lines }
        ensures greatest { IfSome result (λ n. All (λ (l : AccessListLine). l.sequence ≤ n) self.now.lines) }
    {
        self.lines.greatest()
    }

    /// Whether a line has this number.
    pub fn has_line(&self, sequence: u32) -> bool
        ensures { result ≡ has_sequence self.now.lines sequence }
    {
        self.lines.has(sequence)
    }
}
