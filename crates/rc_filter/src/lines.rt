//! Which headers the lines of a list match, and which line decides.
ghost use Rattle.std.specs.Prelude.{◌≡◌, ◌==◌, ◌∷◌, true};
ghost use Rattle.std.specs.List.{list_any};
ghost use Rattle.rc_filter.specs.Verdict.{first_action, matches, matches_address, matches_code, matches_further, matches_port, matches_protocol, permits, verdict};

use rc_base::{Addr, Header};
use rc_config::{
    AccessList, AccessListLine, Action, AddressTest, ByNumber, FurtherTest, PortTest, ProtocolTest,
};

/// Whether an address passes a test: each bit whose wildcard bit is 0 is that of the test's address.
#[tactic(auto, using(crate::proofs::BitLaws::same_by_mask))]
pub fn matches_address(test: &AddressTest, addr: Addr) -> bool
    ensures { result ≡ matches_address test.now addr }
{
    // A bit stays in the difference where the two addresses have different ones and the wildcard bit is 0.
    (test.addr.bits() ^ addr.bits()) & !test.wildcard.bits() == 0
}

/// Whether a protocol passes a test.
fn matches_protocol(test: ProtocolTest, protocol: u8) -> bool
    ensures { result ≡ matches_protocol test protocol }
{
    match test {
        ProtocolTest::Any => true,
        ProtocolTest::Is(number) => protocol == number,
    }
}

/// Whether a port is among these.
fn is_among(ports: &[u16], port: u16) -> bool
    ensures { result ≡ list_any (λ p. port == p) ports.now }
{
    ports.iter().any(|other| port == *other)
}

/// Whether a port passes a test.
fn matches_port(test: &PortTest, port: u16) -> bool
    ensures { result ≡ matches_port test.now port }
{
    match test {
        PortTest::Any => true,
        PortTest::Equal(ports) => is_among(ports.as_slice(), port),
        PortTest::NotEqual(ports) => !is_among(ports.as_slice(), port),
        PortTest::Below(limit) => port < *limit,
        PortTest::Above(limit) => port > *limit,
        PortTest::Within(low, high) => *low <= port && port <= *high,
    }
}

/// Whether an ICMP code is the one that a line gives, if it gives one.
fn matches_code(given: Option<u8>, code: u8) -> bool
    ensures { result ≡ matches_code given code }
{
    match given {
        None => true,
        Some(number) => code == number,
    }
}

/// Whether a header passes a test of ACK and RST, or of the ICMP type and code.
fn matches_further(test: FurtherTest, header: &Header) -> bool
    ensures { result ≡ matches_further test header.now }
{
    match test {
        FurtherTest::Any => true,
        FurtherTest::Established => header.ack || header.rst,
        FurtherTest::Icmp { icmp_type, code } => {
            header.icmp_type == icmp_type && matches_code(code, header.icmp_code)
        }
    }
}

/// Whether a header passes all tests of a line.
#[tactic(auto, unfolding(crate::specs::Verdict::matches))]
pub fn matches_line(line: &AccessListLine, header: &Header) -> bool
    ensures { result ≡ matches line.now header.now }
{
    matches_protocol(line.protocol, header.proto)
        && matches_address(&line.source, header.src)
        && matches_port(&line.source_port, header.sport)
        && matches_address(&line.destination, header.dst)
        && matches_port(&line.destination_port, header.dport)
        && matches_further(line.further, header)
}

/// Whether the first of the lines that matches permits.
fn first_permits(lines: &ByNumber<AccessListLine>, header: &Header) -> bool
    ensures { result ≡ first_action lines.now header.now }
{
    for line in lines.iter() {
        if matches_line(line, header) {
            return matches!(line.action, Action::Permit);
        }
    }
    false
}

/// Whether a list permits a header: the action of the first line that matches decides, and the end denies.
pub fn verdict(access_list: &AccessList, header: &Header) -> bool
    ensures { result ≡ verdict access_list.now header.now }
{
    first_permits(&access_list.lines, header)
}
