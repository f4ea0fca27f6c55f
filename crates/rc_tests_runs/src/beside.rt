//! Sets of headers beside walks. Where each route has one hop, a header is in the set of the ending of its walk, and in no other. From a
//! router with two ways it loops where it does so on one of them, and it is uneven where it arrives on the one and fails on the other.
use crate::answers::{Host, NamedText, folder_of, ran, sink_of};
use rc_openings::{word_addr, word_u32};
use rc_outside::OpenGate;
use std::alloc::Global;
use std::str::from_utf8;
use std::test::Fail;

/// A router with lists at some of its interfaces, and one behind it. What goes to 10.2.64.0/18 goes round between them. In front of the first one
/// stands a router that sends all to it, and to another one too.
const FILES: [NamedText<'_>; 4] = [
    (
        "a.cfg",
        "hostname R1
interface GigabitEthernet0/0
 ip address 10.0.0.1 255.255.255.0
 ip access-group 101 in
interface GigabitEthernet0/1
 ip address 10.0.1.1 255.255.255.0
 ip access-group 102 out
interface GigabitEthernet0/2
 ip address 10.0.12.1 255.255.255.252
interface GigabitEthernet0/3
 ip address 192.0.2.2 255.255.255.252
 ip access-group 101 in
interface Loopback0
 ip address 1.1.1.1 255.255.255.0
access-list 101 permit tcp any any established
access-list 101 deny tcp any any lt 1024
access-list 101 deny icmp any any unreachable
access-list 101 deny icmp any any 8 1
access-list 101 deny ip 128.0.0.0 127.255.255.255 any
access-list 101 permit ip any any
access-list 102 permit tcp any any
ip route 192.168.0.0 255.255.0.0 Null0
ip route 8.0.0.0 255.0.0.0 10.0.0.9
ip route 10.2.0.0 255.255.0.0 10.0.12.2
",
    ),
    (
        "b.cfg",
        "hostname R2
interface GigabitEthernet0/0
 ip address 10.0.12.2 255.255.255.252
interface GigabitEthernet0/1
 ip address 10.2.0.1 255.255.255.0
ip route 10.2.64.0 255.255.192.0 10.0.12.1
ip route 10.2.128.0 255.255.128.0 Null0
",
    ),
    (
        "c.cfg",
        "hostname R0
interface GigabitEthernet0/0
 ip address 192.0.2.1 255.255.255.252
interface GigabitEthernet0/1
 ip address 192.0.2.5 255.255.255.252
ip route 0.0.0.0 0.0.0.0 192.0.2.2
ip route 0.0.0.0 0.0.0.0 192.0.2.6
",
    ),
    (
        "d.cfg",
        "hostname R3
interface GigabitEthernet0/0
 ip address 192.0.2.6 255.255.255.252
 ip access-group 103 in
interface GigabitEthernet0/1
 ip address 192.168.0.1 255.255.255.0
interface Loopback0
 ip address 10.0.0.1 255.255.255.255
access-list 103 deny udp any any
access-list 103 permit ip any any
ip route 10.2.0.0 255.255.0.0 GigabitEthernet0/1
ip route 8.0.0.0 255.0.0.0 192.168.0.9
",
    ),
];

const PLACE: &str = "R1:GigabitEthernet0/0";

const ENDINGS: [&str; 8] = [
    "denied-in",
    "accepted",
    "no-route",
    "null-routed",
    "denied-out",
    "unreachable",
    "exits",
    "delivered",
];

/// The first and the last address of each prefix of the folder.
const PREFIXES: [(u32, u32); 12] = [
    (0x0a00_0000, 0x0a00_00ff),
    (0x0a00_0001, 0x0a00_0001),
    (0x0a00_0100, 0x0a00_01ff),
    (0x0a00_0101, 0x0a00_0101),
    (0x0a00_0c00, 0x0a00_0c03),
    (0x0101_0100, 0x0101_01ff),
    (0x0101_0101, 0x0101_0101),
    (0xc0a8_0000, 0xc0a8_ffff),
    (0x0800_0000, 0x08ff_ffff),
    (0x0a02_0000, 0x0a02_00ff),
    (0x0a02_4000, 0x0a02_7fff),
    (0x0a02_8000, 0x0a02_ffff),
];

/// Source, protocol, destination port, ICMP type and code, ACK and RST at the corners of the lists' lines.
const CORNERS: [(u32, u32, u32, u32, u32, u32, u32); 14] = [
    (0, 6, 1023, 0, 0, 0, 0),
    (0, 6, 1024, 0, 0, 0, 0),
    (0, 5, 0, 0, 0, 1, 1),
    (0x7fff_ffff, 17, 0, 0, 0, 0, 0),
    (0x8000_0000, 17, 65535, 3, 0, 0, 0),
    (0x7fff_ffff, 7, 1023, 8, 1, 0, 0),
    (0xffff_ffff, 6, 65535, 0, 0, 0, 0),
    (0, 6, 1023, 8, 1, 1, 0),
    (0xffff_ffff, 6, 0, 0, 0, 0, 1),
    (0, 1, 0, 3, 255, 0, 0),
    (0, 1, 0, 2, 0, 0, 0),
    (0, 1, 0, 4, 0, 1, 0),
    (0, 1, 0, 8, 1, 0, 1),
    (0, 1, 0, 8, 0, 0, 0),
];

/// The fields of a header, as cubes name them.
const FIELDS: [&str; 9] = [
    "dst", "src", "proto", "sport", "dport", "type", "code", "ack", "rst",
];

/// The number that a word is, also as an address.
fn number_of(word: &str) -> Option<u32> {
    match word_addr(word.as_bytes()) {
        Some(address) => Some(address.bits()),
        None => word_u32(word.as_bytes()),
    }
}

/// The field of this name.
fn field_of(header: &[u32; 9], name: &str) -> Option<u32> {
    for (field, value) in FIELDS.iter().zip(header.iter()) {
        if *field == name {
            return Some(*value);
        }
    }
    None
}

/// Whether the header passes a test, as `dport=23&65535`. There is no answer where the text isn't one.
fn passes(header: &[u32; 9], test: &str) -> Option<bool> {
    let (name, pattern) = test.split_once('=')?;
    let (value, mask) = pattern.split_once('&')?;
    let field = field_of(header, name)?;
    Some(field & number_of(mask)? == number_of(value)?)
}

/// Whether a line is a cube that holds the header.
fn is_cube_of(header: &[u32; 9], line: &str) -> bool {
    let Some(tests) = line.strip_prefix("cube ") else {
        return false;
    };
    tests
        .split(' ')
        .all(|test| passes(header, test) == Some(true))
}

/// Whether a cube among these lines holds the header.
fn is_held(header: &[u32; 9], cubes: &str) -> bool {
    cubes.lines().any(|line| is_cube_of(header, line))
}

/// What the words of a line say over the files.
fn said(rt: &impl Host, line: &str) -> Result<String, Fail> {
    let words: Vec<&str> = line.split(' ').collect(rt.alloc())?;
    let mut folder = folder_of(rt.alloc(), &FILES, &[])?;
    let mut out = sink_of(rt.alloc(), 1_048_576)?;
    let _ = ran(rt, words.as_slice(), &mut folder, &mut out, &OpenGate);
    let text = from_utf8(out.bytes.as_slice()).unwrap_or("");
    Ok(String::from_str(rt.alloc(), text)?)
}

/// An address in dotted decimal.
fn dotted(alloc: Global, bits: u32) -> Result<String, Fail> {
    let (first, second) = (bits >> 24, (bits >> 16) & 255);
    let (third, fourth) = ((bits >> 8) & 255, bits & 255);
    Ok(format!(in alloc; "{first}.{second}.{third}.{fourth}")?)
}

/// How many headers are tried.
const HEADERS: usize = 7 * 12 * 4;

/// One of the headers, by its number: its destination is at an end of a prefix or beside it. Each corner stands at half of the
/// prefixes.
fn header_at(number: usize) -> [u32; 9] {
    let (first, last) = PREFIXES[number / 4 % 12];
    let (source, protocol, port, kind, code, ack, rst) = CORNERS[number / 24 % 14];
    let destination = match number % 4 {
        0 => first.wrapping_sub(1),
        1 => first,
        2 => last,
        _ => last.wrapping_add(1),
    };
    [destination, source, protocol, 5, port, kind, code, ack, rst]
}

/// What is said of the walk of a packet from a place.
fn walk_of(rt: &impl Host, place: &str, header: &[u32; 9]) -> Result<String, Fail> {
    let destination = dotted(rt.alloc(), header[0])?;
    let source = dotted(rt.alloc(), header[1])?;
    let line = format!(in rt.alloc();
        "trace d --from {place} --workers 1 --dst {destination} --src {source} --proto {} --sport {} --dport {} --type {} --code {} --ack {} --rst {}",
        header[2], header[3], header[4], header[5], header[6], header[7], header[8]
    )?;
    said(rt, line.as_str())
}

/// The walks of all headers from a place.
fn walks_of_all(rt: &impl Host, place: &str) -> Result<Vec<String>, Fail> {
    let mut walks = Vec::new(rt.alloc());
    for number in 0..HEADERS {
        walks.push(walk_of(rt, place, &header_at(number))?)?;
    }
    Ok(walks)
}

/// Whether a walk ends so.
fn ends_at(walk: &str, ending: &str) -> bool {
    walk.lines()
        .any(|line| line.strip_prefix("end ") == Some(ending))
}

/// The first header that the cubes hold though its walk ends otherwise, or don't hold though it ends so. Without one it is their number.
fn first_wrong(ending: &str, cubes: &str, walks: &[String]) -> usize {
    for (number, walk) in walks.iter().enumerate() {
        if is_held(&header_at(number), cubes) != ends_at(walk.as_str(), ending) {
            return number;
        }
    }
    walks.len()
}

/// Whether one of the walks ends so.
fn some_end(ending: &str, walks: &[String]) -> bool {
    for walk in walks {
        if ends_at(walk.as_str(), ending) {
            return true;
        }
    }
    false
}

/// Asserts that the set of an ending holds just the headers whose walks end so, and that there are some.
fn check_ending(rt: &impl Host, ending: &str, walks: &[String]) -> Result<(), Fail> {
    let line = format!(in rt.alloc(); "reach d --from {PLACE} --workers 1 --end {ending}")?;
    let cubes = said(rt, line.as_str())?;
    let wrong = first_wrong(ending, cubes.as_str(), walks);
    assert!(rt;
        wrong == HEADERS && some_end(ending, walks),
        "{ending}: header {wrong}"
    );
    Ok(())
}

/// Asserts it of each of these endings.
fn check_endings(rt: &impl Host, endings: &[&str], walks: &[String]) -> Result<(), Fail> {
    for ending in endings {
        check_ending(rt, ending, walks)?;
    }
    Ok(())
}

#[test]
fn walks_end_where_their_headers_are_held(rt: HostRuntime) -> Result<(), Fail> {
    let walks = walks_of_all(&rt, PLACE)?;
    check_endings(&rt, &ENDINGS, walks.as_slice())
}

/// Whether a walk brings the packet to its destination.
fn arrives(walk: &str) -> bool {
    ends_at(walk, "accepted") || ends_at(walk, "delivered")
}

fn goes_round(walk: &str) -> bool {
    ends_at(walk, "loop")
}

/// Whether `loops` and `uneven` say of a header what its walks on two ways say.
fn agree(header: &[u32; 9], first: &str, second: &str, loops: &str, uneven: &str) -> bool {
    let round = goes_round(first) || goes_round(second);
    let differs = arrives(first) != arrives(second) && !round;
    is_held(header, loops) == round && is_held(header, uneven) == differs
}

/// The first header of which they say otherwise. Without one it is their number.
fn first_other(first: &[String], second: &[String], loops: &str, uneven: &str) -> usize {
    for (number, (one, other)) in first.iter().zip(second.iter()).enumerate() {
        if !agree(
            &header_at(number),
            one.as_str(),
            other.as_str(),
            loops,
            uneven,
        ) {
            return number;
        }
    }
    first.len()
}

#[test]
fn two_ways_loop_or_differ_as_their_walks_do(rt: HostRuntime) -> Result<(), Fail> {
    let first = walks_of_all(&rt, "R1:GigabitEthernet0/3")?;
    let second = walks_of_all(&rt, "R3:GigabitEthernet0/0")?;
    let loops = said(&rt, "loops d --from R0 --workers 2")?;
    let uneven = said(&rt, "uneven d --from R0 --workers 2")?;
    let other = first_other(
        first.as_slice(),
        second.as_slice(),
        loops.as_str(),
        uneven.as_str(),
    );
    assert!(&rt; other == HEADERS, "header {other}");
    Ok(())
}
