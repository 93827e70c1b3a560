// Every refusal of documents 01 and 02 that the code gives so far, lowest number first, and the number that the papers give it; no other
// file of Rattle code writes one as a numeral. (In specs/ it is the other way round: there the refusal lists have the paper's numerals, so
// that they can be held against its table.)
#![tactic(auto)]

ghost use Rattle.std.specs.Prelude.{◌≡◌};
ghost use Rattle.refusal.specs.Number.{number_of, code_of};

// Why something is refused. What can be refused answers a `Result` with this error.
#[derive(Clone, Copy, PartialEq, Eq)]
pub enum Refusal {
    // The slices that are lent with a data call.
    SliceTooSmall = 1,

    // A packet, whatever its session.
    PacketTooShort = 2,
    PacketTooLong = 3,
    ControlMessage = 4,
    SessionNotOpen = 5,

    // What follows the session ID. (8 is not given any more: with it document 01 refused a PSP packet with S clear, which document 02, W2,
    // takes.)
    HeaderNotPlain = 6,
    FlowOutside = 7,
    NothingCarried = 9,
    LengthsDisagree = 10,
    ContentSpoilt = 11,

    // The sequence number.
    Late = 12,

    // The table.
    TableBroken = 13,

    // A segment that was asked for by its number.
    SegmentOutside = 14,

    // The four bytes before the session ID over UDP: T set, which marks a control message, or another version than 3.
    NotVersion3 = 15,

    // An open.
    OpenWithoutId = 21,
    AlreadyOpen = 22,
    AllRowsOpen = 23,

    // A number that stands for no kind, in a packet check, a segment request or an open; or for no transport.
    NumberUnknown = 24,

    // A close.
    CloseOfNone = 25,

    // A send: to whom, how much, what, from where, into what.
    AddressOutside = 31,
    LimitOutside = 32,
    FramesUnsound = 33,
    PositionOutside = 34,
    NothingLeft = 35,
    OutputTooSmall = 36,

    // A capture file.
    FileTooLong = 41,
    ContentsCut = 42,
    TooManyEntries = 43,
    EntryWrong = 44,
    BodiesDoNotFill = 45,

    // MPEG packets: what is written, what is read, and into what.
    MpegOutputTooSmall = 51,
    FrameNotWritten = 52,
    NoRunGivesIt = 53,

    // pcap files: the file's own header, a record of it, what an import would come to, and into what an import or an export goes.
    PcapHeaderWrong = 61,
    RecordCut = 62,
    ImportTooLarge = 63,
    PcapOutputTooSmall = 64,
}

impl From<Refusal> for u32 {
    ghost from_gives = { λ refusal number. number ≡ number_of refusal };

    fn from(refusal: Refusal) -> u32 {
        refusal as u32
    }
}

// What the answers that cross to C say in the place of a refusal's number where nothing was refused.
pub const NONE: u32 = 0;

// The number that C and the listing are told: that of the refusal, or `NONE`.
pub fn code(answer: Result<(), Refusal>) -> u32
    ensures { result ≡ code_of answer }
{
    match answer {
        Ok(()) => NONE,
        Err(refusal) => u32::from(refusal),
    }
}
