//! Packet headers.
ghost use Rattle.std.specs.Prelude.{◌≡◌};
ghost use Rattle.rc_base.specs.Fields.{zeros};
ghost use Rattle.rc_base.specs.Header.{IsHeader};

use crate::Addr;

/// What access lists and routes read of a packet: the addresses and the protocol of RFC 791 s.3.1, the ports of RFC 9293 s.3.1 and
/// RFC 768, the type and code of an ICMP message (RFC 792), and the flags ACK and RST of TCP (RFC 9293 s.3.1). What the protocol
/// doesn't have is 0. Its fields are told as a table by `Field`.
#[derive(Clone, Copy)]
pub struct Header {
    pub dst: Addr,
    pub src: Addr,
    pub proto: u8,
    pub sport: u16,
    pub dport: u16,
    pub icmp_type: u8,
    pub icmp_code: u8,
    pub ack: bool,
    pub rst: bool,
}

impl Header {
    /// A header whose fields are 0.
    pub fn zeros() -> Header
        ensures { result ≡ zeros }
    {
        Header {
            dst: Addr::new(0),
            src: Addr::new(0),
            proto: 0,
            sport: 0,
            dport: 0,
            icmp_type: 0,
            icmp_code: 0,
            ack: false,
            rst: false,
        }
    }
}

/// A law: each field of a header fits its bits.
pub fn header_ranges(header: &Header)
    ensures { IsHeader header.now }
{
    let _dst = header.dst.bits();
    let _src = header.src.bits();
    let _proto = header.proto;
    let _sport = header.sport;
    let _dport = header.dport;
    let _type = header.icmp_type;
    let _code = header.icmp_code;
}
