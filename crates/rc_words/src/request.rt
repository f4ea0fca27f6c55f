//! What is asked for.
ghost use Rattle.std.specs.Prelude.{◌≡◌, IfOk, string_bytes};

use rc_base::{Ends, Header, Name};
use std::alloc::{AllocError, Global};
use std::marker::Model;

/// A word of the command line, kept; seen as the list of its bytes.
#[derive(Drop)]
pub struct WordText {
    text: String,
}

impl Model for WordText {
    ghost use Rattle.std.specs.Prelude.{List, ℕ, string_bytes};

    ghost Value = { List ℕ };

    ghost view = { λ w. string_bytes w.text };
}

impl WordText {
    /// The same text, kept. It errs only where memory is short.
    pub fn new(alloc: Global, text: &str) -> Result<WordText, AllocError>
        ensures { IfOk result (λ word. word ≡ text.now) }
    {
        Ok(WordText {
            text: String::from_str(alloc, text)?,
        })
    }

    /// Its text.
    pub fn as_str(&self) -> &str
        ensures { result.now ≡ self.now }
    {
        self.text.as_str()
    }
}

/// Where a packet starts, by names: at a router that sends it by itself, or entering a router by an interface.
#[derive(Clone, Copy, PartialEq, Eq)]
pub struct PlaceName {
    /// The router's host name.
    pub router: Name,
    /// The interface by which the packet enters, and none where the router sends it by itself.
    pub interface: Option<Name>,
}

/// The numbers that bound a run.
#[derive(Clone, Copy, PartialEq, Eq)]
pub struct Limits {
    /// How many rounds the tables may take, from 1 to 100000; 1000 where nothing is said.
    pub rounds: u32,
    /// How many workers share a round, from 1 to 64; 4 where nothing is said.
    pub workers: u32,
    /// How many nodes the table of shared nodes may hold, from 16 to 16777216; 1048576 where nothing is said.
    pub nodes: u32,
}

/// Where the network that is asked about comes from.
#[derive(Drop)]
pub enum Source {
    /// The configurations of this folder.
    Folder(WordText),
    /// A made network of so many routers, from 4 to 512. No folder is asked.
    Made(u32),
}

/// What is to be answered of a network.
#[derive(Drop)]
pub enum Ask {
    /// The routes of every router, or of one.
    Routes {
        /// The router that is asked about, as it was typed; every router where nothing is said.
        router: Option<WordText>,
    },
    /// The walk of a packet.
    Trace {
        /// Where the packet starts.
        place: PlaceName,
        /// What the packet's header says.
        header: Header,
    },
    /// Which packets get from a place to an ending.
    Reach {
        /// Where the packets start.
        place: PlaceName,
        /// The endings that are asked for.
        ends: Ends,
        /// How many cubes get an example, from 0 to 1000; 0 where nothing is said.
        examples: u32,
    },
    /// Which packets never stop: of these a walk comes back to a position of its own.
    Loops {
        /// Where the packets start.
        place: PlaceName,
        /// How many cubes get an example, from 0 to 1000; 0 where nothing is said.
        examples: u32,
    },
    /// Which packets get to their destination on one walk, and are dropped or leave on another.
    Uneven {
        /// Where the packets start.
        place: PlaceName,
        /// How many cubes get an example, from 0 to 1000; 0 where nothing is said.
        examples: u32,
    },
    /// Which lines of the access lists of every router, or of one, never decide.
    Lines {
        /// The router that is asked about, as it was typed; every router where nothing is said.
        router: Option<WordText>,
    },
    /// Whether a packet gets from a place to an ending without each of the links, one at a time.
    Failures {
        /// Where the packet starts.
        place: PlaceName,
        /// What the packet's header says.
        header: Header,
        /// The endings that are asked for.
        ends: Ends,
    },
    /// How many routes there are, and the first of the packets that get from outside to a router or a host: what
    /// `sample` asks of a made network.
    Summary,
}

/// What the words of a command line ask for.
#[derive(Drop)]
pub struct Request {
    /// Of which network.
    pub source: Source,
    /// What is to be answered.
    pub ask: Ask,
    /// Within which bounds.
    pub limits: Limits,
}

/// Why words give no request.
#[derive(Clone, Copy, PartialEq, Eq)]
pub enum WordsFault {
    /// They are no command line of this program.
    Usage,
    /// Memory was short.
    Memory,
}
