//! What files are found to be, and what is asked of them.
ghost use Rattle.std.specs.Prelude.{◌≡◌};
ghost use Rattle.rc_answers.specs.Subject.{before_rounds};

use crate::{Arrival, Question, Subject, question_of};
use rc_base::{Items, RouterId};
use rc_config::Network;
use rc_network::NetRefusal;
use rc_report::FailRow;
use rc_route::{Outcome, RoundsEnd};
use rc_words::Ask;

/// What files alone tell, without rounds.
#[derive(Drop)]
pub enum FileFindings {
    /// The first refusal.
    Refused(NetRefusal),
    /// The network has no router or interface of the name that is asked for.
    NoPlace,
    /// The network, of whose access lists is asked: of those of this router, or of all.
    Lists(Network, Option<RouterId>),
}

/// What the files that are asked about are found to be.
#[derive(Drop)]
pub enum Findings {
    /// What they alone tell.
    OfFiles(FileFindings),
    /// The network, how its rounds end, and what of it is asked about.
    Ended(Network, Outcome, Subject),
    /// The network, how its rounds end, and, at a fixed point, what each single link's failure does.
    Failures(Network, RoundsEnd, Items<FailRow>),
}

/// What is known of files before any rounds are run.
#[derive(Drop)]
pub enum BeforeRounds {
    /// All that is asked: they alone tell it.
    OfFiles(FileFindings),
    /// Their network, and what of it is asked about once its rounds have ended.
    OfRounds(Network, Subject),
    /// Their network, and what is asked of it once its rounds have ended, and of it without each single link.
    OfFailures(Network, Arrival),
}

/// What the files alone tell, or their network and what of it is asked about.
pub fn before_rounds(net: Result<Network, NetRefusal>, ask: &Ask) -> BeforeRounds
    ensures { result ≡ before_rounds net ask.now }
{
    let net = match net {
        Ok(net) => net,
        Err(refusal) => return BeforeRounds::OfFiles(FileFindings::Refused(refusal)),
    };
    match question_of(&net, ask) {
        Some(Question::OfTables(subject)) => BeforeRounds::OfRounds(net, subject),
        Some(Question::OfLists(routers)) => {
            BeforeRounds::OfFiles(FileFindings::Lists(net, routers))
        }
        Some(Question::OfFailures(arrival)) => BeforeRounds::OfFailures(net, arrival),
        None => BeforeRounds::OfFiles(FileFindings::NoPlace),
    }
}
