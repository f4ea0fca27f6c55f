//! What of a network is asked about.
ghost use Rattle.std.specs.Prelude.{◌≡◌, IfSome, Some};
ghost use Rattle.rc_reach.specs.Uneven.{arrivals};
ghost use Rattle.rc_writing.specs.Places.{sample_place};
ghost use Rattle.rc_answers.specs.Subject.{position_at, position_named, question_of, router_of_text};

use rc_base::{Ends, Header, Name, Pos, RouterId};
use rc_config::Network;
use rc_reach::{Asked, arrivals};
use rc_words::{Ask, PlaceName, WordText};

/// Which cubes of a set of packets are shown.
#[derive(Clone, Copy)]
pub enum Detail {
    /// All of them, and examples of the first ones, so many.
    Examples(u32),
    /// The first one alone, behind the number of all routes.
    First,
}

/// The packets that a question is about, and which of their cubes are shown.
#[derive(Clone, Copy)]
pub struct PacketSet {
    pub asked: Asked,
    pub detail: Detail,
}

/// What of a network is asked about, once its rounds have ended.
#[derive(Clone, Copy)]
pub enum Subject {
    /// The routes of all routers.
    AllRouters,
    /// The routes of this router.
    OneRouter(RouterId),
    /// The walk of a packet with this header from this position.
    Packet(Pos, Header),
    /// These packets.
    Packets(PacketSet),
}

/// That a packet arrives: from where, which one, and at which endings.
#[derive(Clone, Copy)]
pub struct Arrival {
    /// Where the packet starts.
    pub place: Pos,
    /// What the packet's header says.
    pub header: Header,
    /// The endings at which it arrives.
    pub ends: Ends,
}

/// What of a network is asked about.
#[derive(Clone, Copy)]
pub enum Question {
    /// Its access lists: those of this router, or of all. No tables are asked about.
    OfLists(Option<RouterId>),
    /// Whether this holds without each single link.
    OfFailures(Arrival),
    /// Its tables, once the rounds have ended.
    OfTables(Subject),
}

/// The router that a text names. A text that is no name names none.
fn router_of_text(net: &Network, text: &str) -> Option<RouterId>
    ensures { result ≡ router_of_text net.now text.now }
{
    let name = Name::new(text.as_bytes())?;
    net.router(&name)
}

/// At a router, or entering it by the interface of a name.
fn position_at(net: &Network, router: RouterId, interface: &Option<Name>) -> Option<Pos>
    ensures { result ≡ position_at net.now router interface.now }
{
    match interface {
        None => Some(Pos::Own(router)),
        Some(name) => {
            let found = net.interface(router, name)?;
            Some(Pos::Entering(found))
        }
    }
}

/// The position of a place, or `None` exactly where the network has no such router or interface.
fn position_named(net: &Network, place: &PlaceName) -> Option<Pos>
    ensures { result ≡ position_named net.now place.now }
{
    let router = net.router(&place.router)?;
    position_at(net, router, &place.interface)
}

/// The text of a place, as names; both fit a name.
fn sample_place() -> Option<PlaceName>
    ensures { result ≡ Some sample_place }
{
    let router = Name::new(b"r000")?;
    let interface = Name::new(b"GigabitEthernet0/3")?;
    Some(PlaceName {
        router,
        interface: Some(interface),
    })
}

/// The routes of the router that a text names, or of all where there is none.
fn routes_asked(net: &Network, router: &Option<WordText>) -> Option<Question>
    ensures { result ≡ question_of net.now (Ask.Routes router.now) }
{
    match router {
        None => Some(Question::OfTables(Subject::AllRouters)),
        Some(text) => {
            let router = router_of_text(net, text.as_str())?;
            Some(Question::OfTables(Subject::OneRouter(router)))
        }
    }
}

/// The access lists of the router that a text names, or of all where there is none.
fn lists_asked(net: &Network, router: &Option<WordText>) -> Option<Question>
    ensures { result ≡ question_of net.now (Ask.Lines router.now) }
{
    match router {
        None => Some(Question::OfLists(None)),
        Some(text) => {
            let router = router_of_text(net, text.as_str())?;
            Some(Question::OfLists(Some(router)))
        }
    }
}

/// The packets from a place that a question is about, with so many examples.
fn packets(asked: Asked, examples: u32) -> Question
    ensures { result ≡ Question.OfTables (Subject.Packets (record { asked = asked; detail = Detail.Examples examples })) }
{
    let detail = Detail::Examples(examples);
    Question::OfTables(Subject::Packets(PacketSet { asked, detail }))
}

/// The packets that `sample` asks about, from its place.
fn summary(place: Pos) -> Question
    ensures { result ≡ Question.OfTables (Subject.Packets (record { asked = Asked.Reaching place arrivals; detail = Detail.First })) }
{
    let asked = Asked::Reaching(place, arrivals());
    let detail = Detail::First;
    Question::OfTables(Subject::Packets(PacketSet { asked, detail }))
}

/// Whether a packet from a place has one of these endings, without each single link.
fn failures_asked(place: Pos, header: &Header, ends: &Ends) -> Question
    ensures { result ≡ Question.OfFailures (record { place = place; header = header.now; ends = ends.now }) }
{
    Question::OfFailures(Arrival {
        place,
        header: *header,
        ends: *ends,
    })
}

/// What of the network is asked about, or `None` exactly where it has no such router or interface.
pub fn question_of(net: &Network, ask: &Ask) -> Option<Question>
    ensures { result ≡ question_of net.now ask.now }
{
    // For the proof: that of a place that is let go wants the name within it named in the function.
    let _name: Option<Name> = None;
    match ask {
        Ask::Routes { router } => routes_asked(net, router),
        Ask::Trace { place, header } => {
            let position = position_named(net, place)?;
            Some(Question::OfTables(Subject::Packet(position, *header)))
        }
        Ask::Reach {
            place,
            ends,
            examples,
        } => {
            let position = position_named(net, place)?;
            Some(packets(Asked::Reaching(position, *ends), *examples))
        }
        Ask::Loops { place, examples } => {
            let position = position_named(net, place)?;
            Some(packets(Asked::Looping(position), *examples))
        }
        Ask::Uneven { place, examples } => {
            let position = position_named(net, place)?;
            Some(packets(Asked::Uneven(position), *examples))
        }
        Ask::Lines { router } => lists_asked(net, router),
        Ask::Failures {
            place,
            header,
            ends,
        } => {
            let place = position_named(net, place)?;
            Some(failures_asked(place, header, ends))
        }
        Ask::Summary => {
            let place = sample_place()?;
            Some(summary(position_named(net, &place)?))
        }
    }
}
