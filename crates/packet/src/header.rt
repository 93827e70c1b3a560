// The fixed part of a packet: over UDP four bytes of L2TP (RFC 3931, section 4.1.2.1), then the session ID, then the sub-layer header (DEPI
// I05, sections 8.1.3, 8.2 and 8.3). Which transport a packet came by is a number that its caller gives. `refuse_before_session` alone asks
// what it is, and whether there is a whole header: behind it a packet is a `DataPacket`, and what stands behind its session ID a `Sub`.
// Where nobody has asked, `lead_of`, `session_id` and `sub_of` take the number as it is.
ghost use Rattle.std.specs.Prelude.{◌≡◌, ◌+◌, ◌<◌, ◌≤◌, length, IfOk};
ghost use Rattle.refusal.specs.Refusal.{first};
ghost use Rattle.packet.specs.Header.{packet_by, udp_lead, lead_of, not_version3, id_length, session_id, sub, header_length, v_set, s_set};
ghost use Rattle.packet.specs.Header.{h_bits, flow_values, flow_id, count_values, segment_count, number, not_plain, before_session};
ghost use Rattle.packet.specs.Reading.{number_of, Reads, refused_by};

use refusal::Refusal;

// The transports as the host program numbers them. They stay numbers down to here: C gives any, and 24 for another has its place in the
// order of refusals, behind 1 and 13 and before 2 (`data_refusals`).
pub const IP: u32 = 1;

pub const UDP: u32 = 2;

// How many bytes stand before the session ID over UDP; over IP none do.
const UDP_LEAD: usize = 4;

// What T is worth in the first of these bytes, and how many values the version has, in the low bits of the second.
const T_BIT: u8 = 128;

const VERSION_VALUES: u8 = 16;

// The version of L2TP that these bytes must name.
const VERSION: u8 = 3;

pub const ID_LENGTH: usize = 4;

pub const HEADER_LENGTH: usize = 4;

// What V and S are worth in their byte, and the lower bit of H.
const V_BIT: u8 = 128;

pub const S_BIT: u8 = 64;

const H_BIT: u8 = 16;

// How many values H has, the flow ID, and the count of segments. The flow ID and the count stand in the low bits of their bytes.
const H_VALUES: u8 = 4;

const FLOW_VALUES: u8 = 8;

const COUNT_VALUES: u8 = 128;

// A packet over IP has 8 to 4,100 bytes, and over UDP four more.
const SHORTEST_PACKET: usize = 8;

const LONGEST_PACKET: usize = 4100;

// The transport that a packet came by.
#[derive(Clone, Copy)]
pub enum Transport {
    Ip,
    Udp,
}

// Here alone the number of a transport becomes a `Transport`.
impl TryFrom<u32> for Transport {
    type Error = Refusal;

    ghost try_from_gives = { Reads };

    fn try_from(number: u32) -> Result<Self, Refusal> {
        match number {
            IP => Ok(Transport::Ip),
            UDP => Ok(Transport::Udp),
            _ => Err(Refusal::NumberUnknown),
        }
    }
}

impl Transport {
    // How many bytes stand before the session ID.
    pub fn lead(self) -> usize
        ensures { (result ≡ lead_of (number_of self)) × (result ≤ udp_lead) }
    {
        match self {
            Transport::Ip => 0,
            Transport::Udp => UDP_LEAD,
        }
    }
}

// How many bytes stand before the session ID, by the number of a transport: 0 for what is none.
pub fn lead_of(transport: u32) -> usize
    ensures { (result ≡ lead_of transport) × (result ≤ udp_lead) }
{
    if transport == UDP { UDP_LEAD } else { 0 }
}

// The session ID of a packet that was asked nothing but its length; 0 marks a control message.
pub fn session_id(packet: &[u8], transport: u32) -> u32
    requires { lead_of transport + id_length ≤ length packet.now }
    ensures { result ≡ session_id (packet_by transport packet.now) }
{
    octets::read_u32(packet, lead_of(transport))
}

// .. and what follows it, which may be shorter than a sub-layer header.
#[tactic(auto, using(octets::proofs::Stretches::sliced_rest))]
pub fn sub_of(packet: &[u8], transport: u32) -> &[u8]
    requires { lead_of transport + id_length ≤ length packet.now }
    ensures { result.now ≡ sub (packet_by transport packet.now) }
{
    let from = lead_of(transport) + ID_LENGTH;
    &packet[from..]
}

// A packet that 24, 2, 3, 15 and 4 do not refuse, with the transport that it came by: it has a whole header.
#[derive(Clone, Copy)]
pub struct DataPacket<'a> {
    pub bytes: &'a [u8],
    pub transport: Transport,
    pub ghost whole_header: { lead_of (number_of transport) + id_length + header_length ≤ length bytes.now },
}

impl<'a> DataPacket<'a> {
    // The session ID.
    pub fn session_id(self) -> u32
        ensures { result ≡ session_id (packet_by (number_of self.entry.transport) self.entry.bytes.now) }
    {
        octets::read_u32(self.bytes, self.transport.lead())
    }

    // What follows the session ID.
    #[tactic(auto, using(octets::proofs::Stretches::sliced_rest))]
    pub fn sub(self) -> Sub<'a>
        ensures its_bytes { result.bytes.now ≡ sub (packet_by (number_of self.entry.transport) self.entry.bytes.now) }
        ensures its_length { lead_of (number_of self.entry.transport) + id_length + length result.bytes.now ≡ length self.entry.bytes.now }
    {
        let from = self.transport.lead() + ID_LENGTH;
        Sub {
            bytes: &self.bytes[from..],
        }
    }
}

// What stands behind the session ID: a whole sub-layer header, and all that follows it.
#[derive(Clone, Copy)]
pub struct Sub<'a> {
    pub bytes: &'a [u8],
    pub ghost whole_header: { header_length ≤ length bytes.now },
}

impl<'a> Sub<'a> {
    pub fn v_set(self) -> bool
        ensures { result ≡ v_set self.entry.bytes.now }
    {
        self.bytes[0] / V_BIT % 2 == 1
    }

    // Whether the sequence number is valid.
    pub fn s_set(self) -> bool
        ensures { result ≡ s_set self.entry.bytes.now }
    {
        self.bytes[0] / S_BIT % 2 == 1
    }

    pub fn h_bits(self) -> u8
        ensures { result ≡ h_bits self.entry.bytes.now }
    {
        self.bytes[0] / H_BIT % H_VALUES
    }

    pub fn flow_id(self) -> usize
        ensures { (result ≡ flow_id self.entry.bytes.now) × (result < flow_values) }
    {
        usize::from(self.bytes[0] % FLOW_VALUES)
    }

    pub fn segment_count(self) -> usize
        ensures { (result ≡ segment_count self.entry.bytes.now) × (result < count_values) }
    {
        usize::from(self.bytes[1] % COUNT_VALUES)
    }

    // The sequence number.
    pub fn number(self) -> u16
        ensures { result ≡ number self.entry.bytes.now }
    {
        octets::read_u16(self.bytes, 2)
    }

    // Refusal 6: V set, or H not 00.
    pub fn not_plain(self) -> bool
        ensures { result ≡ not_plain self.entry.bytes.now }
    {
        self.v_set() | (self.h_bits() != 0)
    }
}

// Refusal 15, over UDP alone: T set, which marks a control message, or another version than 3.
fn not_version_3(packet: &[u8], transport: Transport) -> bool
    requires { udp_lead ≤ length packet.now }
    ensures { result ≡ not_version3 (packet_by (number_of transport) packet.now) }
{
    match transport {
        Transport::Ip => false,
        Transport::Udp => (packet[0] / T_BIT % 2 == 1) | (packet[1] % VERSION_VALUES != VERSION),
    }
}

// Refusals 24, 2, 3, 15 and 4, which need no session; or the packet, which then has a whole header, with its transport.
pub fn refuse_before_session<'a>(
    packet: &'a [u8],
    transport: u32,
) -> Result<DataPacket<'a>, Refusal>
    ensures its_number { refused_by result ≡ first (before_session (packet_by transport packet.now)) }
    ensures same_packet { IfOk result (λ p. (p.bytes.now ≡ packet.now) × (number_of p.transport ≡ transport)) }
{
    let transport = Transport::try_from(transport)?;
    let lead = transport.lead();
    if packet.len() < lead + SHORTEST_PACKET {
        return Err(Refusal::PacketTooShort);
    }
    if lead + LONGEST_PACKET < packet.len() {
        return Err(Refusal::PacketTooLong);
    }
    if not_version_3(packet, transport) {
        return Err(Refusal::NotVersion3);
    }
    let packet = DataPacket {
        bytes: packet,
        transport,
    };
    if packet.session_id() == 0 {
        return Err(Refusal::ControlMessage);
    }
    Ok(packet)
}
