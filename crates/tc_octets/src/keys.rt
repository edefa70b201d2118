//! The sixteen keys of a profile's text.
ghost use Rattle.std.specs.Prelude.{◌≡◌};
ghost use Rattle.tc_octets.specs.ProfileKeys.{default_of, name_of};

/// A key of a profile's text.
#[derive(Clone, Copy, Debug, PartialEq, Eq)]
pub enum Key {
    /// The spacecraft id of all frames.
    Scid,
    /// The virtual channel of telecommand frames.
    TcVcid,
    /// The MAP of the segment header.
    TcMap,
    /// The width W of FARM-1's sliding window.
    TcWindow,
    /// Whether telecommand frames end with a CRC.
    TcFecf,
    /// Whether telecommand frames are randomized.
    TcRandomizer,
    /// The idle octets before each CLTU.
    TcIdle,
    /// Whether the spacecraft's decoder corrects.
    TcCorrect,
    /// The octets of each telemetry frame.
    TmLength,
    /// The virtual channel whose packets are read.
    TmVcid,
    /// Whether telemetry frames end with a CRC.
    TmFecf,
    /// The APID of the rehearsal spacecraft's reports.
    Apid,
    /// The source id of telecommands.
    Source,
    /// The Unix second of time 0 on board.
    TimeEpoch,
    /// The octets of the fraction of a second.
    TimeFine,
    /// Whether outcomes fly.
    Rehearsal,
}

/// All keys, in the order in which a profile is printed.
pub const KEYS: [Key; 16] = [
    Key::Scid,
    Key::TcVcid,
    Key::TcMap,
    Key::TcWindow,
    Key::TcFecf,
    Key::TcRandomizer,
    Key::TcIdle,
    Key::TcCorrect,
    Key::TmLength,
    Key::TmVcid,
    Key::TmFecf,
    Key::Apid,
    Key::Source,
    Key::TimeEpoch,
    Key::TimeFine,
    Key::Rehearsal,
];

impl Key {
    /// Returns the key's name, as a text spells it.
    pub fn name(self) -> &'static str
        ensures { result.now ≡ name_of self }
    {
        match self {
            Key::Scid => "scid",
            Key::TcVcid => "tc.vcid",
            Key::TcMap => "tc.map",
            Key::TcWindow => "tc.window",
            Key::TcFecf => "tc.fecf",
            Key::TcRandomizer => "tc.randomizer",
            Key::TcIdle => "tc.idle",
            Key::TcCorrect => "tc.correct",
            Key::TmLength => "tm.length",
            Key::TmVcid => "tm.vcid",
            Key::TmFecf => "tm.fecf",
            Key::Apid => "apid",
            Key::Source => "source",
            Key::TimeEpoch => "time.epoch",
            Key::TimeFine => "time.fine",
            Key::Rehearsal => "rehearsal",
        }
    }

    /// Returns the value of the key if a text does not give it.
    pub fn default_value(self) -> &'static str
        ensures { result.now ≡ default_of self }
    {
        match self {
            Key::Scid | Key::Apid => "1",
            Key::TcVcid => "3",
            Key::TcMap => "none",
            Key::TcWindow => "20",
            Key::TcFecf | Key::TmFecf | Key::Rehearsal => "yes",
            Key::TcRandomizer | Key::TcCorrect => "no",
            Key::TcIdle | Key::TmVcid | Key::Source | Key::TimeEpoch | Key::TimeFine => "0",
            Key::TmLength => "1115",
        }
    }
}
