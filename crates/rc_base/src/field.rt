//! The fields of a packet header.
ghost use Rattle.std.specs.Prelude.{◌≡◌, ◌<◌, ◌≤◌, ◌^◌};
ghost use Rattle.rc_base.specs.Fields as table;
ghost use Rattle.rc_base.specs.Header as spec;

use crate::{Addr, Header};

/// How many bits a header has: those of its fields.
pub const HEADER_BITS: u8 = 122;

/// The number of the destination's last bit, the least significant one, among the bits of a header.
pub const DST_LAST: u8 = 31;

/// That of the source's.
pub const SRC_LAST: u8 = 63;

/// That of the protocol's.
pub const PROTO_LAST: u8 = 71;

/// That of the source port's.
pub const SPORT_LAST: u8 = 87;

/// That of the destination port's.
pub const DPORT_LAST: u8 = 103;

/// That of the ICMP type's.
pub const ICMP_TYPE_LAST: u8 = 111;

/// That of the ICMP code's.
pub const ICMP_CODE_LAST: u8 = 119;

/// That of ACK's, its only one.
pub const ACK_LAST: u8 = 120;

/// That of RST's, its only one.
pub const RST_LAST: u8 = 121;

/// A field of a packet header: one more has a row in each function here, and one in each definition of its table.
#[derive(Clone, Copy)]
pub enum Field {
    Dst,
    Src,
    Proto,
    Sport,
    Dport,
    IcmpType,
    IcmpCode,
    Ack,
    Rst,
}

static FIELDS: [Field; 9] = [
    Field::Dst,
    Field::Src,
    Field::Proto,
    Field::Sport,
    Field::Dport,
    Field::IcmpType,
    Field::IcmpCode,
    Field::Ack,
    Field::Rst,
];

impl Field {
    /// All fields, in the order of their bits.
    pub fn all() -> &'static [Field]
        ensures { result.now ≡ table.fields }
    {
        &FIELDS
    }

    /// What it is called in texts.
    pub fn name(self) -> &'static [u8]
        ensures { result.now ≡ table.name self }
    {
        match self {
            Field::Dst => b"dst",
            Field::Src => b"src",
            Field::Proto => b"proto",
            Field::Sport => b"sport",
            Field::Dport => b"dport",
            Field::IcmpType => b"type",
            Field::IcmpCode => b"code",
            Field::Ack => b"ack",
            Field::Rst => b"rst",
        }
    }

    /// How many bits it has.
    pub fn width(self) -> u8
        ensures width { result ≡ table.width self }
        ensures few { result ≤ 32 }
    {
        match self {
            Field::Dst | Field::Src => 32,
            Field::Proto | Field::IcmpType | Field::IcmpCode => 8,
            Field::Sport | Field::Dport => 16,
            Field::Ack | Field::Rst => 1,
        }
    }

    /// The number of its last bit.
    pub fn last_bit(self) -> u8
        ensures { result ≡ spec.last_bit self }
    {
        match self {
            Field::Dst => DST_LAST,
            Field::Src => SRC_LAST,
            Field::Proto => PROTO_LAST,
            Field::Sport => SPORT_LAST,
            Field::Dport => DPORT_LAST,
            Field::IcmpType => ICMP_TYPE_LAST,
            Field::IcmpCode => ICMP_CODE_LAST,
            Field::Ack => ACK_LAST,
            Field::Rst => RST_LAST,
        }
    }

    /// Its number in a header.
    pub fn of(self, header: &Header) -> u32
        ensures number { result ≡ table.of self header.now }
        ensures small { result < 2 ^ table.width self }
    {
        match self {
            Field::Dst => header.dst.bits(),
            Field::Src => header.src.bits(),
            Field::Proto => u32::from(header.proto),
            Field::Sport => u32::from(header.sport),
            Field::Dport => u32::from(header.dport),
            Field::IcmpType => u32::from(header.icmp_type),
            Field::IcmpCode => u32::from(header.icmp_code),
            Field::Ack => u32::from(header.ack),
            Field::Rst => u32::from(header.rst),
        }
    }

    /// The header with another number in this field.
    pub fn with(self, number: u32, header: &Header) -> Header
        requires { number < 2 ^ table.width self }
        ensures { result ≡ table.with self number header.now }
    {
        let mut made = *header;
        match self {
            Field::Dst => made.dst = Addr::new(number),
            Field::Src => made.src = Addr::new(number),
            Field::Proto => made.proto = number as u8,
            Field::Sport => made.sport = number as u16,
            Field::Dport => made.dport = number as u16,
            Field::IcmpType => made.icmp_type = number as u8,
            Field::IcmpCode => made.icmp_code = number as u8,
            Field::Ack => made.ack = number == 1,
            Field::Rst => made.rst = number == 1,
        }
        made
    }
}
