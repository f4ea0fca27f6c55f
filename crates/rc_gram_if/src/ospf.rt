//! The rows of `ip ospf` lines, by the words behind their openings.
ghost use Rattle.std.specs.Prelude.{◌≡◌, ◌≤◌, IfOk, IfSome};
ghost use Rattle.rc_openings.specs.Words.{words_left};
ghost use Rattle.rc_config.specs.Ospf.{IsLawfulSetting, IsOspfNumber};
ghost use Rattle.rc_gram_if.specs.Own.{IsOwn};
ghost use Rattle.rc_gram_if.specs.Ospf as rows;

use rc_base::Name;
use rc_config::{Command, InterfaceLine, NetworkType, OspfArea, OspfSetting};
use rc_openings::{LineRefusal, Words, number_in, word_area};

/// What a line sets for its interface.
pub(crate) fn sets(owner: Name, setting: Option<OspfSetting>) -> Result<Command, LineRefusal>
    requires { IfSome setting IsLawfulSetting }
    ensures row { result ≡ rows.sets owner setting }
    ensures own { IfOk result IsOwn }
{
    match setting {
        Some(setting) => Ok(Command::InterfaceLine {
            interface: owner,
            line: InterfaceLine::Ospf(setting),
        }),
        None => Err(LineRefusal::BadValue),
    }
}

/// One number from 1 to 65535.
fn value_of(mut words: Words) -> Option<u16>
    ensures value { result ≡ rows.value_of (words_left words.entry) }
    ensures within { IfSome result IsOspfNumber }
{
    match (words.next_word(), words.next_word()) {
        (Some(word), None) => match number_in(1, 65535, word) {
            Some(number) => Some(number as u16),
            None => None,
        },
        _ => None,
    }
}

/// `ip ospf cost N`
pub(crate) fn cost(words: Words) -> Option<OspfSetting>
    ensures row { result ≡ rows.cost (words_left words.entry) }
    ensures lawful { IfSome result IsLawfulSetting }
{
    match value_of(words) {
        Some(cost) => Some(OspfSetting::Cost(cost)),
        None => None,
    }
}

/// `ip ospf hello-interval N`
pub(crate) fn hello_interval(words: Words) -> Option<OspfSetting>
    ensures row { result ≡ rows.hello_interval (words_left words.entry) }
    ensures lawful { IfSome result IsLawfulSetting }
{
    match value_of(words) {
        Some(seconds) => Some(OspfSetting::HelloInterval(seconds)),
        None => None,
    }
}

/// `ip ospf dead-interval N`
pub(crate) fn dead_interval(words: Words) -> Option<OspfSetting>
    ensures row { result ≡ rows.dead_interval (words_left words.entry) }
    ensures lawful { IfSome result IsLawfulSetting }
{
    match value_of(words) {
        Some(seconds) => Some(OspfSetting::DeadInterval(seconds)),
        None => None,
    }
}

/// `ip ospf network broadcast`, or `ip ospf network point-to-point`
pub(crate) fn network_type(network: NetworkType, mut words: Words) -> Option<OspfSetting>
    ensures row { result ≡ rows.network_type network (words_left words.entry) }
    ensures lawful { IfSome result IsLawfulSetting }
{
    match words.next_word() {
        None => Some(OspfSetting::NetworkType(network)),
        Some(_) => None,
    }
}

fn area_in(process: Option<u32>, area: Option<u32>) -> Option<OspfSetting>
    requires { IfSome process IsOspfNumber }
    ensures row { result ≡ rows.area_in process area }
    ensures lawful { IfSome result IsLawfulSetting }
{
    match (process, area) {
        (Some(process), Some(area)) => Some(OspfSetting::Area(OspfArea { process, area })),
        _ => None,
    }
}

/// `ip ospf P area N`, by all words of the line: the opening fits any word in the place of P.
pub(crate) fn area(mut line: Words) -> Option<OspfSetting>
    ensures row { result ≡ rows.area (words_left line.entry) }
    ensures lawful { IfSome result IsLawfulSetting }
{
    let (Some(_), Some(_), Some(process)) = (line.next_word(), line.next_word(), line.next_word())
    else {
        return None;
    };
    match (line.next_word(), line.next_word(), line.next_word()) {
        (Some(_), Some(area), None) => area_in(number_in(1, 65535, process), word_area(area)),
        _ => None,
    }
}

/// The words that make a line of the opening `ip ospf network` one that isn't modelled, where it fits no row.
#[tactic(auto, unfolding(rc_openings::specs::Words::words_of))]
pub(crate) fn refused_types() -> Words<'static>
    ensures { words_left result ≡ rows.refused_types }
{
    Words::new(b"non-broadcast point-to-multipoint")
}

/// The same of the opening `ip ospf dead-interval`.
#[tactic(auto, unfolding(rc_openings::specs::Words::words_of))]
pub(crate) fn refused_intervals() -> Words<'static>
    ensures { words_left result ≡ rows.refused_intervals }
{
    Words::new(b"minimal")
}
