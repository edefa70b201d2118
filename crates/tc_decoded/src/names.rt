//! The names of fields, as the standards have them.
ghost use Rattle.std.specs.Prelude.{◌≡◌};
ghost use Rattle.tc_decoded.specs.Names.{text_of};

/// The name of a line.
#[derive(Clone, Copy)]
pub(crate) enum Name {
    /// A transfer frame as a whole.
    TransferFrame,
    /// A packet as a whole.
    Packet,
    /// The version of a transfer frame.
    Version,
    /// Type A or type B.
    BypassFlag,
    /// Data or a control command.
    ControlCommandFlag,
    /// Bits of no meaning.
    Spare,
    /// The spacecraft.
    SpacecraftId,
    /// The virtual channel.
    VirtualChannel,
    /// The octets of a frame less 1.
    FrameLength,
    /// N(S).
    FrameSequenceNumber,
    /// Which part of a packet a segment is.
    SegmentSequenceFlags,
    /// The multiplexer access point.
    Map,
    /// Unlock or Set V(R).
    ControlCommand,
    /// The new V(R).
    Vr,
    /// The CRC-16 of a frame.
    FrameErrorControl,
    /// The version of a space packet.
    PacketVersion,
    /// Telemetry or telecommand.
    PacketType,
    /// Whether there is a secondary header.
    SecondaryHeaderFlag,
    /// The application process.
    Apid,
    /// Which part of a group a packet is.
    SequenceFlags,
    /// The count of a packet.
    SequenceCount,
    /// The octets after the primary header less 1.
    PacketDataLength,
    /// The version of the packet utilization standard.
    PusVersion,
    /// Whether a report of completion is asked for.
    Completion,
    /// Whether reports of progress are asked for.
    Progress,
    /// Whether a report of start is asked for.
    Start,
    /// Whether a report of acceptance is asked for.
    Acceptance,
    /// The service.
    ServiceType,
    /// The message of the service.
    MessageSubtype,
    /// The source of a request.
    SourceId,
    /// The content of a request.
    ApplicationData,
    /// How a rehearsal spacecraft behaves.
    Outcome,
    /// How many steps it reports.
    Steps,
    /// Why something failed.
    FailureCode,
    /// How many activities follow.
    NumberOfActivities,
    /// An activity of an insert.
    Activity,
    /// When an activity is released.
    ReleaseTime,
    /// The fraction of a second.
    Fraction,
    /// How many names follow.
    NumberOfNames,
    /// By how much a time is shifted.
    TimeOffset,
    /// The CRC-16 of a packet.
    PacketErrorControl,
    /// The content of an idle packet.
    IdleData,
    /// The state of the clock on board.
    TimeReferenceStatus,
    /// The count of messages of this type.
    MessageTypeCounter,
    /// For whom a report is.
    DestinationId,
    /// The time on board.
    Time,
    /// The content of a report.
    SourceData,
    /// The step of a request.
    Step,
    /// Whether the schedule is enabled.
    ScheduleStatus,
    /// Whether there is an operational control field.
    ControlFieldFlag,
    /// The count of frames of the spacecraft.
    MasterChannelFrameCount,
    /// The count of frames of the channel.
    VirtualChannelFrameCount,
    /// Whether the data field holds something else than packets.
    SynchronizationFlag,
    /// Whether packets come in another order.
    PacketOrderFlag,
    /// Always 3 if packets are not segmented.
    SegmentLengthId,
    /// The place of the first packet.
    FirstHeaderPointer,
    /// The content of a frame.
    DataField,
    /// Octets of a packet whose other octets are in other frames.
    PacketInProgress,
    /// Octets that begin no packet.
    BetweenPackets,
    /// 0 of a CLCW.
    ControlWordType,
    /// The version of a CLCW.
    ControlWordVersion,
    /// For local use.
    StatusField,
    /// 1 of COP-1.
    CopInEffect,
    /// Whether the physical channel is down.
    NoRfAvailable,
    /// Whether the receiver has no bit lock.
    NoBitLock,
    /// Whether FARM-1 is locked out.
    Lockout,
    /// Whether FARM-1 waits.
    Wait,
    /// Whether FARM-1 asks for frames again.
    Retransmit,
    /// The count of type-B frames.
    FarmBCounter,
    /// V(R).
    ReportValue,
    /// The first two octets of a CLTU.
    StartSequence,
    /// How many codeblocks a CLTU has.
    Codeblocks,
    /// The last octets of a CLTU.
    TailSequence,
    /// A block that is no codeblock, and not the tail sequence.
    EndingBlock,
    /// All octets that were given.
    Octets,
}

impl Name {
    /// Returns the name, as it is printed.
    pub(crate) fn text(self) -> &'static str
        ensures { result.now ≡ text_of self }
    {
        match self {
            Name::TransferFrame => "transfer frame",
            Name::Packet => "packet",
            Name::Version => "version",
            Name::BypassFlag => "bypass flag",
            Name::ControlCommandFlag => "control command flag",
            Name::Spare => "spare",
            Name::SpacecraftId => "spacecraft id",
            Name::VirtualChannel => "virtual channel",
            Name::FrameLength => "frame length",
            Name::FrameSequenceNumber => "frame sequence number",
            Name::SegmentSequenceFlags => "segment sequence flags",
            Name::Map => "MAP",
            Name::ControlCommand => "control command",
            Name::Vr => "V(R)",
            Name::FrameErrorControl => "frame error control",
            Name::PacketVersion => "packet version",
            Name::PacketType => "packet type",
            Name::SecondaryHeaderFlag => "secondary header flag",
            Name::Apid => "APID",
            Name::SequenceFlags => "sequence flags",
            Name::SequenceCount => "sequence count",
            Name::PacketDataLength => "packet data length",
            Name::PusVersion => "PUS version",
            Name::Completion => "completion acknowledgement",
            Name::Progress => "progress acknowledgement",
            Name::Start => "start acknowledgement",
            Name::Acceptance => "acceptance acknowledgement",
            Name::ServiceType => "service type",
            Name::MessageSubtype => "message subtype",
            Name::SourceId => "source id",
            Name::ApplicationData => "application data",
            Name::Outcome => "outcome",
            Name::Steps => "steps",
            Name::FailureCode => "failure code",
            Name::NumberOfActivities => "number of activities",
            Name::Activity => "activity",
            Name::ReleaseTime => "release time",
            Name::Fraction => "fraction",
            Name::NumberOfNames => "number of names",
            Name::TimeOffset => "time offset",
            Name::PacketErrorControl => "packet error control",
            Name::IdleData => "idle data",
            Name::TimeReferenceStatus => "time reference status",
            Name::MessageTypeCounter => "message type counter",
            Name::DestinationId => "destination id",
            Name::Time => "time",
            Name::SourceData => "source data",
            Name::Step => "step",
            Name::ScheduleStatus => "schedule status",
            Name::ControlFieldFlag => "control field flag",
            Name::MasterChannelFrameCount => "master channel frame count",
            Name::VirtualChannelFrameCount => "virtual channel frame count",
            Name::SynchronizationFlag => "synchronization flag",
            Name::PacketOrderFlag => "packet order flag",
            Name::SegmentLengthId => "segment length id",
            Name::FirstHeaderPointer => "first header pointer",
            Name::DataField => "data field",
            Name::PacketInProgress => "packet in progress",
            Name::BetweenPackets => "octets between packets",
            Name::ControlWordType => "control word type",
            Name::ControlWordVersion => "control word version",
            Name::StatusField => "status field",
            Name::CopInEffect => "COP in effect",
            Name::NoRfAvailable => "no RF available",
            Name::NoBitLock => "no bit lock",
            Name::Lockout => "lockout",
            Name::Wait => "wait",
            Name::Retransmit => "retransmit",
            Name::FarmBCounter => "FARM-B counter",
            Name::ReportValue => "report value",
            Name::StartSequence => "start sequence",
            Name::Codeblocks => "codeblocks",
            Name::TailSequence => "tail sequence",
            Name::EndingBlock => "block that ends it",
            Name::Octets => "octets",
        }
    }
}
