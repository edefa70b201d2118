//! How a link is set.
ghost use Rattle.std.specs.Prelude.{◌≡◌, ◌≤◌, ◌%◌};
ghost use Rattle.tc_octets.specs.Epochs.{IsEpoch};

/// A multiplexer access point (MAP) of a telecommand channel.
#[derive(Clone, Copy, Debug, PartialEq, Eq)]
pub struct Map {
    /// 0 to 63.
    pub id: u8,
    ghost id_fits: { id ≤ 63 },
}

/// The telecommand channel: what goes up (CCSDS 232.0-B, 231.0-B).
#[derive(Clone, Copy, Debug, PartialEq, Eq)]
pub struct TcChannel {
    /// The virtual channel, 0 to 63.
    pub vcid: u8,
    /// The MAP of the segment header; `None`: type-AD frames have no segment header.
    pub map: Option<Map>,
    /// The width W of FARM-1's sliding window, even, 2 to 254.
    pub window: u8,
    /// Whether frames end with a frame error control field.
    pub fecf: bool,
    /// Whether frames are randomized.
    pub randomizer: bool,
    /// How many octets 55 go before each CLTU.
    pub idle: u8,
    /// Whether the spacecraft's decoder mends a wrong bit of a codeblock.
    pub correct: bool,
    ghost vcid_fits: { vcid ≤ 63 },
    ghost window_fits: { window ≤ 254 },
    ghost window_stands: { 2 ≤ window },
    ghost window_even: { window % 2 ≡ 0 },
}

/// The telemetry channel: what comes down (CCSDS 132.0-B).
#[derive(Clone, Copy, Debug, PartialEq, Eq)]
pub struct TmChannel {
    /// Octets of each frame, 32 to 2048.
    pub length: u16,
    /// The virtual channel whose packets are read, 0 to 7.
    pub vcid: u8,
    /// Whether frames end with a frame error control field.
    pub fecf: bool,
    ghost length_fits: { length ≤ 2048 },
    ghost length_stands: { 32 ≤ length },
    ghost vcid_fits: { vcid ≤ 7 },
}

/// How a link is set: the numbers that both of its ends have to agree on.
#[derive(Clone, Copy, Debug, PartialEq, Eq)]
pub struct Profile {
    /// The spacecraft, 0 to 1023.
    pub scid: u16,
    /// The telecommand channel.
    pub tc: TcChannel,
    /// The telemetry channel.
    pub tm: TmChannel,
    /// The application of the rehearsal spacecraft that reports, 1 to 2046.
    pub apid: u16,
    /// The source of requests, to which reports go.
    pub source: u16,
    /// Time 0 on board, in Unix seconds: 1 January 1958 to 31 December 2099.
    pub epoch: i64,
    /// Whether times have two octets of fraction.
    pub fine: bool,
    /// Whether the outcomes of a rehearsal fly.
    pub rehearsal: bool,
    ghost scid_fits: { scid ≤ 1023 },
    ghost apid_fits: { apid ≤ 2046 },
    ghost apid_stands: { 1 ≤ apid },
    ghost epoch_fits: { IsEpoch epoch },
}

impl Profile {
    ghost use Rattle.std.specs.Prelude.{◌≡◌, [], Ok};
    ghost use Rattle.tc_octets.specs.ProfileKeys.{default_of, spelled};
    ghost use Rattle.tc_octets.specs.ProfileTexts.{ProfileReads};
    ghost use Rattle.tc_octets.specs.declared.keys.Key.{Key as SomeKey};

    /// Returns the profile of the defaults, which is the one of the empty text.
    #[tactic(auto, using(crate::proofs::StandardLemmas::standard_spelled, crate::proofs::StandardLemmas::standard_read))]
    pub fn standard() -> Profile
        ensures defaults { (key : SomeKey) → spelled result key ≡ default_of key }
        ensures empty { ProfileReads [] (Ok result) }
    {
        Profile {
            scid: 1,
            tc: TcChannel {
                vcid: 3,
                map: None,
                window: 20,
                fecf: true,
                randomizer: false,
                idle: 0,
                correct: false,
            },
            tm: TmChannel {
                length: 1115,
                vcid: 0,
                fecf: true,
            },
            apid: 1,
            source: 0,
            epoch: 0,
            fine: false,
            rehearsal: true,
        }
    }
}
