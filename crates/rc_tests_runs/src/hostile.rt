//! Folders and sinks that fail at each of their calls, tables of each small size, and files that are cut or hold any bytes.
use crate::answers::{BASE, Host, NamedText, file_in, folder_of, ran, sink_of};
use rc_analyse::Status;
use rc_outside::{MemFolder, MemSink, OpenGate};
use std::test::Fail;

/// Two routers of two ASes, of which one announces a prefix.
const TWO_ASES: [NamedText<'_>; 2] = [
    (
        "r1.cfg",
        "hostname R1
interface GigabitEthernet0/0
 ip address 10.0.12.1 255.255.255.0
interface GigabitEthernet0/1
 ip address 10.9.1.1 255.255.255.0
router bgp 65001
 network 10.9.1.0 mask 255.255.255.0
 neighbor 10.0.12.2 remote-as 65002
",
    ),
    (
        "r2.cfg",
        "hostname R2
interface GigabitEthernet0/0
 ip address 10.0.12.2 255.255.255.0
router bgp 65002
 neighbor 10.0.12.1 remote-as 65001
",
    ),
];

/// Two files that are both refused.
const REFUSED: [NamedText<'_>; 2] = [
    ("a.cfg", "hostname X\nfrobnicate\n"),
    ("B.cfg", "hostname X\nfrobnicate\n"),
];

/// Asserts that a run over the files ends with the source's fault, and says nothing, where this call of the folder fails.
fn check_source(rt: &impl Host, files: &[NamedText<'_>], call: u64) -> Result<(), Fail> {
    let mut folder = folder_of(rt.alloc(), files, &[call])?;
    let mut out = sink_of(rt.alloc(), 4096)?;
    let status = ran(rt, &["routes", "d"], &mut folder, &mut out, &OpenGate);
    assert!(rt;
        status == Status::Source && out.calls == 0 && folder.calls == call && folder.faults == 1,
        "call {call}"
    );
    Ok(())
}

/// The listing fails, or the first or the second read.
#[test]
fn each_call_of_a_folder_fails(rt: HostRuntime) -> Result<(), Fail> {
    check_source(&rt, &TWO_ASES, 1)?;
    check_source(&rt, &TWO_ASES, 2)?;
    check_source(&rt, &TWO_ASES, 3)
}

/// A call that would fail isn't made behind a file that is refused.
#[test]
fn no_call_behind_a_refused_file(rt: HostRuntime) -> Result<(), Fail> {
    let mut folder = folder_of(rt.alloc(), &REFUSED, &[3])?;
    let mut out = sink_of(rt.alloc(), 4096)?;
    let status = ran(&rt, &["routes", "d"], &mut folder, &mut out, &OpenGate);
    assert!(rt;
        status == Status::Refused
            && out.bytes.as_slice() == "refused B.cfg:2: 1\n".as_bytes()
            && folder.calls == 2
            && folder.faults == 0
    );
    Ok(())
}

/// Three routers, over which a packet may go round or arrive.
const SQUARE: [NamedText<'_>; 3] = [
    (
        "r1.cfg",
        "hostname R1
interface GigabitEthernet0/0
 ip address 10.0.1.1 255.255.255.0
interface GigabitEthernet0/1
 ip address 10.0.2.1 255.255.255.0
interface GigabitEthernet0/2
 ip address 10.0.3.1 255.255.255.0
ip route 9.9.9.0 255.255.255.0 10.0.1.2
ip route 9.9.9.0 255.255.255.0 10.0.3.3
",
    ),
    (
        "r2.cfg",
        "hostname R2
interface GigabitEthernet0/0
 ip address 10.0.1.2 255.255.255.0
interface GigabitEthernet0/1
 ip address 10.0.2.2 255.255.255.0
ip route 9.9.9.0 255.255.255.0 10.0.2.1
",
    ),
    (
        "r3.cfg",
        "hostname R3
interface GigabitEthernet0/0
 ip address 10.0.3.3 255.255.255.0
interface GigabitEthernet0/1
 ip address 9.9.9.1 255.255.255.0
",
    ),
];

/// What is said of the packets from R1 with one example, a line for each call of the sink.
const LINES: [&str; 8] = [
    "outcome fixed 3\n",
    "cube dst=9.9.9.0&255.255.255.0\n",
    "example dst=9.9.9.0 src=0.0.0.0 proto=0 sport=0 dport=0\n",
    "at R1 self\n",
    "at R3 GigabitEthernet0/0\n",
    "end delivered\n",
    "cube dst=10.0.1.0&255.255.255.0\n",
    "cube dst=10.0.2.0&255.255.254.0\n",
];

/// Asserts that the lines before `text` and so many of its bytes are written where the sink takes no more of the call of this number.
fn check_piece(
    rt: &impl Host,
    before: &str,
    text: &str,
    call: u64,
    taken: usize,
) -> Result<(), Fail> {
    let mut folder = folder_of(rt.alloc(), &SQUARE, &[])?;
    let failures = Vec::from_slice(rt.alloc(), &[(call, taken)])?;
    let mut out = MemSink::new(rt.alloc(), 4096, failures)?;
    let words = ["reach", "d", "--from", "R1", "--examples", "1"];
    let status = ran(rt, &words, &mut folder, &mut out, &OpenGate);
    let (front, _) = text.as_bytes().split_at(text.len().min(taken));
    let mut wanted = Vec::from_slice(rt.alloc(), before.as_bytes())?;
    wanted.extend_from_slice(front)?;
    assert!(rt;
        status == Status::Sink && out.bytes.as_slice() == wanted.as_slice() && out.calls == call,
        "call {call} after {taken}"
    );
    Ok(())
}

/// Asserts it of each line, of which the sink takes nothing or one byte.
fn check_pieces(rt: &impl Host, lines: &[&str]) -> Result<(), Fail> {
    let mut before = String::new(rt.alloc());
    let mut call = 1;
    for line in lines {
        check_piece(rt, before.as_str(), line, call, 0)?;
        check_piece(rt, before.as_str(), line, call, 1)?;
        before.push_str(line)?;
        call = call.saturating_add(1);
    }
    Ok(())
}

#[test]
fn each_call_of_a_sink_fails(rt: HostRuntime) -> Result<(), Fail> {
    check_pieces(&rt, &LINES)
}

/// A line of more than one piece, of which the sink takes the first.
#[test]
fn a_sink_fails_within_a_line(rt: HostRuntime) -> Result<(), Fail> {
    let name = format!(in rt.alloc(); "{:a>600}", "")?;
    let front = format!(in rt.alloc(); "no place {:a>503}", "")?;
    let mut folder = folder_of(rt.alloc(), &[("a.cfg", BASE)], &[])?;
    let failures = Vec::from_slice(rt.alloc(), &[(2, 0)])?;
    let mut out = MemSink::new(rt.alloc(), 4096, failures)?;
    let words = ["routes", "d", "--router", name.as_str()];
    let status = ran(&rt, &words, &mut folder, &mut out, &OpenGate);
    assert!(rt; status == Status::Sink && out.bytes.as_slice() == front.as_str().as_bytes());
    Ok(())
}

/// A refusal of which the sink takes nothing.
#[test]
fn a_sink_fails_at_a_refusal(rt: HostRuntime) -> Result<(), Fail> {
    let mut folder = folder_of(rt.alloc(), &REFUSED, &[])?;
    let failures = Vec::from_slice(rt.alloc(), &[(1, 0)])?;
    let mut out = MemSink::new(rt.alloc(), 4096, failures)?;
    let status = ran(&rt, &["routes", "d"], &mut folder, &mut out, &OpenGate);
    assert!(rt; status == Status::Sink && out.bytes.is_empty() && out.calls == 1);
    Ok(())
}

const ARRIVING: &str = "outcome fixed 2\ncube dst=10.0.0.0&255.255.255.0\n";

/// What a run with a table of so many nodes says, and how it ends.
fn with_nodes(rt: &impl Host, nodes: u32) -> Result<(Status, Vec<u8>), Fail> {
    let number = format!(in rt.alloc(); "{nodes}")?;
    let place = "R1:GigabitEthernet0/0";
    let words = ["reach", "d", "--from", place, "--nodes", number.as_str()];
    let mut folder = folder_of(rt.alloc(), &[("a.cfg", BASE)], &[])?;
    let mut out = sink_of(rt.alloc(), 4096)?;
    let status = ran(rt, &words, &mut folder, &mut out, &OpenGate);
    Ok((status, out.bytes))
}

/// Asserts that the run ends with a full table and says nothing, or with its answer, as far as these may be.
fn check_nodes(rt: &impl Host, nodes: u32, may_end: bool, may_fill: bool) -> Result<(), Fail> {
    let (status, text) = with_nodes(rt, nodes)?;
    let is_full = may_fill && status == Status::Nodes && text.is_empty();
    let is_answer = may_end && status == Status::Done && text.as_slice() == ARRIVING.as_bytes();
    assert!(rt; is_full || is_answer, "{nodes} nodes");
    Ok(())
}

/// A table that has to be too small, each that may be, and one that isn't.
#[test]
fn tables_of_each_size(rt: HostRuntime) -> Result<(), Fail> {
    for nodes in 16..24 {
        check_nodes(&rt, nodes, false, true)?;
    }
    for nodes in 24..201 {
        check_nodes(&rt, nodes, true, true)?;
    }
    check_nodes(&rt, 1_048_576, true, false)
}

/// A file as a device writes it.
const LISTING: &str = "Building configuration...

Current configuration : 1492 bytes
!
version 15.7
service timestamps debug datetime msec
no service password-encryption
!
hostname R1
!
boot-start-marker
boot-end-marker
!
enable secret 5 $1$abcd
no aaa new-model
ip cef
no ipv6 cef
crypto pki certificate chain self
 certificate self-signed 01
  30820240 308201A9
  \tquit
username admin privilege 15 secret 5 $1$abcd
!
interface Embedded-Service-Engine0/0
 no ip address
 shutdown
!
interface GigabitEthernet0/0
 description LAN
 ip address 10.0.0.1 255.255.255.0
 duplex auto
 speed auto
!
ip forward-protocol nd
no ip http server
banner motd ^C
interface text in a banner
^C
line con 0
line vty 0 4
 login
 transport input ssh
!
end
";

/// Asserts that a file of these bytes is answered or refused, with a text.
fn check_bytes(rt: &impl Host, bytes: &[u8]) -> Result<(), Fail> {
    let mut held = Vec::new(rt.alloc());
    held.push(file_in(rt.alloc(), "d", "a.cfg", bytes)?)?;
    let mut folder = MemFolder::new(held, Vec::new(rt.alloc()));
    let mut out = sink_of(rt.alloc(), 4096)?;
    let status = ran(rt, &["routes", "d"], &mut folder, &mut out, &OpenGate);
    let is_told = status == Status::Done || status == Status::Refused;
    assert!(rt; is_told && !out.bytes.is_empty(), "{} bytes", bytes.len());
    Ok(())
}

/// The file cut after each of its bytes.
#[test]
fn a_file_that_is_cut(rt: HostRuntime) -> Result<(), Fail> {
    let bytes = LISTING.as_bytes();
    for length in 0..=bytes.len() {
        let (front, _) = bytes.split_at(bytes.len().min(length));
        check_bytes(&rt, front)?;
    }
    Ok(())
}
