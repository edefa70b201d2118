//! What a command line asks for, and why one asks for nothing.
ghost use Rattle.std.specs.Prelude.{◌≡◌};
ghost use Rattle.tc_words.specs.Lines.{ends_with_desk};

use crate::layers::Layer;
use clap::error::ErrorKind;
use tc_types::{LoadKind, Moment};
use tc_world::Config;
use thiserror::Error;

/// What is told of the lines of a script besides what they are answered.
#[derive(Clone, Copy, Debug, PartialEq, Eq)]
pub struct Telling {
    /// Whether each line is shown before its answer.
    pub echo: bool,
    /// Whether all is told.
    pub verbose: bool,
}

/// The numbers of the calls of a script's lines.
#[derive(Clone, Copy, Debug, PartialEq, Eq)]
pub struct Numbers {
    /// The number of the first line that is sent, 1 to 4,294,967,295. Each line after it has the next.
    pub first: u32,
    /// Whether nothing is sent if one of them was used before.
    pub only_new: bool,
}

/// How a desk is served over HTTP.
#[derive(Clone, Copy, Debug, PartialEq, Eq)]
pub struct Service<'a> {
    /// The port of 127.0.0.1, 1 to 65,535.
    pub port: u16,
    /// After how many connections it ends, 1 to 1,000,000; `None` if after none.
    pub count: Option<u32>,
    /// A name besides 127.0.0.1 and localhost by which clients call it.
    pub host: Option<&'a str>,
    /// Whether it ends when the standard input does.
    pub until_eof: bool,
    /// Whether it ends when the desk has stopped, also if it has a count.
    pub end_when_stopped: bool,
    /// Whether the standard error says how each connection ended.
    pub verbose: bool,
}

impl Service<'_> {
    /// Whether it ends once its desk has stopped: if it has no count, or if that is asked for.
    pub fn ends_with_desk(&self) -> bool
        ensures { result ≡ ends_with_desk self.now }
    {
        self.count.is_none() || self.end_when_stopped
    }
}

/// What the words of a command line ask the program to do.
#[derive(Clone, Copy, Debug, PartialEq, Eq)]
pub enum CommandLine<'a> {
    /// Run the script at this path, or the standard input where it is `-`, on a new desk with this window, channel and links.
    Run {
        script: &'a str,
        config: Config,
        telling: Telling,
    },
    /// The same on the desk that a database file keeps, opened at a moment.
    RunKept {
        script: &'a str,
        config: Config,
        database: &'a str,
        moment: Moment,
        telling: Telling,
    },
    /// The shift report of the desk that a database file keeps, of the moves of `from` and later, and before `to`.
    Report {
        database: &'a str,
        from: Moment,
        to: Moment,
    },
    /// Copy the desk that a database file keeps to another file, which is not there yet. The desk may be open meanwhile.
    Backup {
        database: &'a str,
        copy: &'a str,
    },
    /// The page of the wall of the desk that a database file keeps.
    Wall {
        database: &'a str,
    },
    /// Whether the file at this path, or the standard input where it is `-`, can be loaded as a stack or as a procedure.
    Check {
        kind: LoadKind,
        file: &'a str,
    },
    /// What is wrong with the lines of the script at this path, or of the standard input where it is `-`, of which none is run.
    CheckScript {
        file: &'a str,
    },
    /// Say what octets of a layer of the link mean, in hexadecimal digits, or each line of the standard input if they are `-`. The text of the
    /// file `profile` says how the link is set; without one it is set as the standard profile is.
    Octets {
        profile: Option<&'a str>,
        layer: Layer,
        octets: &'a str,
    },
    /// Serve the desk that a database file keeps, opened at a moment, over HTTP on this machine alone.
    Serve {
        database: &'a str,
        service: Service<'a>,
        config: Config,
        moment: Moment,
    },
    /// Send the lines of the script at this path, or of the standard input where it is `-`, over HTTP to the desk that a database file keeps,
    /// opened at a moment, as the calls of these numbers.
    Loop {
        database: &'a str,
        script: &'a str,
        config: Config,
        moment: Moment,
        numbers: Numbers,
        telling: Telling,
    },
}

/// Why the words of a command line ask for nothing. Where that is not what `clap` says, the word that is wrong.
#[derive(Debug, Drop, Error)]
pub enum UsageFault<'a> {
    /// The words are not a command line of the program, or ask for help or for the version: the text for the user.
    #[error(transparent)]
    Words(clap::Error),
    /// The window is odd.
    #[error("--w must be even")]
    OddWindow,
    /// What stands for FROM or TO spells no moment.
    #[error("FROM and TO are Unix seconds, 0 to 4102444799, or instants such as 2031-05-04T10:00:00Z: {0}")]
    NoMoment(&'a str),
    /// What stands for the moment of an opening spells none.
    #[error("--at is Unix seconds, 0 to 4102444799 (for now: $(date +%s)), or an instant such as 2031-05-04T10:00:00Z: {0}")]
    NoOpening(&'a str),
    /// What stands for KIND is none of `script`, `stack` and `procedure`.
    #[error("KIND is script, stack or procedure: {0}")]
    NoKind(&'a str),
    /// What stands for LAYER is none of `frame`, `cltu`, `packet` and `tm`.
    #[error("LAYER is frame, cltu, packet or tm: {0}")]
    NoLayer(&'a str),
    /// There was no memory to read the words.
    #[error("cannot use memory")]
    Memory,
}

impl<'a> From<clap::Error> for UsageFault<'a> {
    ghost use Rattle.tc_words.specs.Lines.{IsToldAs};

    ghost from_gives = { λ error fault. IsToldAs error fault };

    /// Refused memory, and nothing else, as such; any other error of `clap` as it is.
    fn from(error: clap::Error) -> UsageFault<'a> {
        if error.kind() == ErrorKind::OutOfMemory {
            UsageFault::Memory
        } else {
            UsageFault::Words(error)
        }
    }
}
