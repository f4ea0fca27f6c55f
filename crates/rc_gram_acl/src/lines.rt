//! What the lines of access lists test, by their words behind `permit` or `deny`.
ghost use Rattle.std.specs.Prelude.{◌≡◌, ◌≤◌, false, IfSome};
ghost use Rattle.rc_openings.specs.Words.{words_left};
ghost use Rattle.rc_openings.specs.Part.{IsPart};
ghost use Rattle.rc_config.specs.AccessList.{IsPortTest, IsSequence, has_ports};
ghost use Rattle.rc_gram_acl.specs.Lines as lines;

use crate::addresses::read_source;
use crate::further::read_further;
use crate::ports::{EndPoint, Side, read_end_point};
use crate::values::word_protocol;
use rc_config::{
    AccessListKind, AccessListLine, Action, AddressTest, FurtherTest, PortTest, ProtocolTest,
};
use rc_openings::Words;

/// All tests of a line, which has a number and an action beside them.
#[derive(Clone, Copy)]
pub(crate) struct LineTests {
    pub protocol: ProtocolTest,
    pub source: EndPoint,
    pub destination: EndPoint,
    pub further: FurtherTest,
}

impl LineTests {
    /// The tests of a standard line, which asks for the source alone.
    fn of_source(addr: AddressTest) -> LineTests
        ensures { result ≡ lines.of_source addr }
    {
        LineTests {
            protocol: ProtocolTest::Any,
            source: EndPoint {
                addr,
                port: PortTest::Any,
            },
            destination: EndPoint {
                addr: AddressTest::any(),
                port: PortTest::Any,
            },
            further: FurtherTest::Any,
        }
    }

    /// The line of these tests.
    pub(crate) fn line(self, sequence: u32, action: Action) -> AccessListLine
        ensures { result ≡ lines.line_with sequence action self }
    {
        AccessListLine {
            sequence,
            action,
            protocol: self.protocol,
            source: self.source.addr,
            source_port: self.source.port,
            destination: self.destination.addr,
            destination_port: self.destination.port,
            further: self.further,
        }
    }
}

/// Whether a standard line ends here, or with `log`.
fn ends_standard(mut words: Words) -> bool
    ensures { result ≡ lines.ends_standard (words_left words.entry) }
{
    match (words.next_word(), words.next_word()) {
        (None, _) => true,
        (Some(word), None) => word == b"log".as_slice(),
        (Some(_), Some(_)) => false,
    }
}

/// `SRC [log]`
pub(crate) fn standard(words: Words) -> Option<LineTests>
    ensures row { result ≡ lines.standard (words_left words.entry) }
    ensures lawful { IfSome result (lines.MakeLawfulLines AccessListKind.Standard) }
{
    match read_source(words) {
        Some((source, rest)) => {
            if ends_standard(rest) {
                Some(LineTests::of_source(source))
            } else {
                None
            }
        }
        None => None,
    }
}

/// The protocol with which an extended line begins.
pub(crate) fn read_protocol(words: Words) -> Option<(ProtocolTest, Words)>
    ensures { IsPart (lines.protocol (words_left words.entry)) result }
{
    let mut rest = words;
    match rest.next_word() {
        Some(word) => match word_protocol(word) {
            Some(protocol) => Some((protocol, rest)),
            None => None,
        },
        None => None,
    }
}

/// `ADDR [PORT] [MORE] [log|log-input]`, behind a protocol and the source.
fn from_destination(protocol: ProtocolTest, source: EndPoint, words: Words) -> Option<LineTests>
    requires lawful_port { IsPortTest source.port }
    requires no_port { has_ports protocol ≡ false → source.port ≡ PortTest.Any }
    ensures row { result ≡ lines.from_destination protocol source (words_left words.entry) }
    ensures lawful { IfSome result (lines.MakeLawfulLines AccessListKind.Extended) }
{
    let Some((destination, rest)) = read_end_point(protocol, Side::Destination, words) else {
        return None;
    };
    match read_further(protocol, rest) {
        Some(further) => Some(LineTests {
            protocol,
            source,
            destination,
            further,
        }),
        None => None,
    }
}

/// `PROTO ADDR [PORT] ADDR [PORT] [MORE] [log|log-input]`
pub(crate) fn extended(words: Words) -> Option<LineTests>
    ensures row { result ≡ lines.extended (words_left words.entry) }
    ensures lawful { IfSome result (lines.MakeLawfulLines AccessListKind.Extended) }
{
    let Some((protocol, behind)) = read_protocol(words) else {
        return None;
    };
    match read_end_point(protocol, Side::Source, behind) {
        Some((source, rest)) => from_destination(protocol, source, rest),
        None => None,
    }
}
