// Packets: a header of 20 bytes and the payload behind it.
#![tactic(auto)]

ghost use Rattle.std.specs.Prelude.{true, ◌≡◌, ◌+◌, ◌<◌, ◌≤◌, length};
ghost use Rattle.group.specs.Choice.{when◌then◌else◌, ◌and◌, ◌≤?◌, ◌=?◌};
ghost use Rattle.group.specs.Limits.{header_size, payload_most};
ghost use Rattle.group.specs.Members.{is_in};
ghost use Rattle.group.specs.Lent.{front, Laid};
ghost use Rattle.packet.specs.Packet.{accept_kind, invitation_kind, reply_kind, header_of, length_at, survivors_size, survivors_in, known_kind, payload_fits, message_obeys, obeys, fields_verdict, read_of, header_bytes, packet_of, write_verdict, write_of, content_of, fields_of, from_elected, Named};
ghost use Rattle.packet.specs.declared.Packet.TheVariants.{Invitation, Reply, Result};
ghost use Rattle.packet.specs.Wording.{reading_wording, writing_wording};

use group::{Group, MemberNumber, Refusal, SequenceNumber};

// The fields of a header as they stand in its bytes. L is not among them: it is the payload's length.
#[derive(Clone, Copy, Debug, PartialEq, Eq)]
pub struct Header {
    pub kind: u8,
    pub member: MemberNumber,
    pub group: u32,
    pub a: u32,
    pub b: u32,
    pub c: u32,
}

// What the fields of each kind mean.
#[derive(Clone, Copy, Debug, PartialEq, Eq)]
pub enum Packet {
    Request {
        sender: MemberNumber,
        taken: SequenceNumber,
        count: u32,
    },
    Broadcast {
        originator: MemberNumber,
        number: SequenceNumber,
        count: u32,
        floor: SequenceNumber,
    },
    Gap {
        sender: MemberNumber,
        taken: SequenceNumber,
        first: SequenceNumber,
        last: SequenceNumber,
    },
    Status {
        sender: MemberNumber,
        taken: SequenceNumber,
    },
    Poll {
        elected: MemberNumber,
        top: SequenceNumber,
        floor: SequenceNumber,
    },
    Offer {
        originator: MemberNumber,
        number: SequenceNumber,
        count: u32,
        floor: SequenceNumber,
    },
    Confirm {
        sender: MemberNumber,
        number: SequenceNumber,
    },
    Accept {
        elected: MemberNumber,
        number: SequenceNumber,
    },
    Invitation {
        sender: MemberNumber,
        attempt: u32,
    },
    Reply {
        sender: MemberNumber,
        attempt: u32,
        number: SequenceNumber,
    },
    Result {
        sender: MemberNumber,
        attempt: u32,
        elected: MemberNumber,
        number: SequenceNumber,
    },
}

#[tactic(auto, unfolding(crate::specs::Packet::header_of))]
fn header_at(packet: &[u8]) -> Header
    requires { header_size ≤ length packet.now }
    ensures { result ≡ header_of packet.now }
{
    Header {
        kind: packet[0],
        member: MemberNumber(packet[1]),
        group: big_endian::u32_at(packet, 4),
        a: big_endian::u32_at(packet, 8),
        b: big_endian::u32_at(packet, 12),
        c: big_endian::u32_at(packet, 16),
    }
}

// L, as it stands in bytes 2-3.
pub fn payload_length(packet: &[u8]) -> usize
    requires { header_size ≤ length packet.now }
    ensures { result ≡ length_at packet.now }
{
    big_endian::u16_at(packet, 2) as usize
}

impl Header {
    // The kinds of packet.
    pub const REQUEST: u8 = 1;

    pub const BROADCAST: u8 = 2;

    pub const GAP: u8 = 3;

    pub const STATUS: u8 = 4;

    pub const POLL: u8 = 5;

    pub const OFFER: u8 = 6;

    pub const CONFIRM: u8 = 7;

    pub const ACCEPT: u8 = 8;

    pub const INVITATION: u8 = 9;

    pub const REPLY: u8 = 10;

    pub const RESULT: u8 = 11;

    // The bytes of a result's payload.
    pub const SURVIVORS: usize = 2;

    // Of a message's packet A and B are at least 1 and C is below A.
    #[tactic(auto, using(group::proofs::Choice::choices), unfolding(crate::specs::Packet::message_obeys))]
    fn message_obeys(self) -> bool
        ensures { result ≡ message_obeys self }
    {
        1 <= self.a && 1 <= self.b && self.c < self.a
    }

    // Of a confirmation and of an acceptance A is at least 1, B and C are zero.
    #[tactic(auto, using(group::proofs::Choice::choices))]
    fn number_alone(self) -> bool
        ensures { result ≡ (1 ≤? self.a and self.b =? 0 and self.c =? 0) }
    {
        1 <= self.a && self.b == 0 && self.c == 0
    }

    // Of a result the sender and B are among the survivors that its payload names.
    #[tactic(auto, using(group::proofs::Choice::choices))]
    fn among(self, payload: &[u8]) -> bool
        requires { survivors_size ≤ length payload.now }
        ensures { result ≡ (is_in (survivors_in payload.now) self.member.0 and is_in (survivors_in payload.now) self.b) }
    {
        let survivors = big_endian::u16_at(payload, 0);
        group::is_in(survivors, self.member)
            && self.b < 16
            && group::is_in(survivors, MemberNumber(self.b as u8))
    }

    // Question 6: do A, B, C obey the kind, and are sender and B of kind 11 among its survivors?
    #[tactic(auto, using(group::proofs::Choice::choices), unfolding(crate::specs::Packet::obeys))]
    fn obeys(self, payload: &[u8]) -> bool
        requires { (known_kind self.kind ≡ true) × (payload_fits self.kind (length payload.now) (length payload.now) ≡ true) }
        ensures { result ≡ obeys self payload.now }
    {
        match self.kind {
            Header::REQUEST => 1 <= self.b && self.c == 0,
            Header::BROADCAST | Header::OFFER => self.message_obeys(),
            Header::GAP => self.a < self.b && self.b <= self.c,
            Header::STATUS | Header::INVITATION => self.b == 0 && self.c == 0,
            Header::POLL => self.b == 0 && self.c <= self.a,
            Header::CONFIRM | Header::ACCEPT => self.number_alone(),
            Header::REPLY => self.c == 0,
            _ => self.among(payload),
        }
    }
}

// Question 4: is the kind 1 to 11?
#[tactic(auto, using(group::proofs::Choice::choices), unfolding(crate::specs::Packet::known_kind))]
fn known(kind: u8) -> bool
    ensures { result ≡ known_kind kind }
{
    Header::REQUEST <= kind && kind <= Header::RESULT
}

// Question 5: is the payload L bytes long, L 2 in kind 11, and zero in kinds 3, 4, 5 and 7 to 10?
#[tactic(auto, using(group::proofs::Choice::choices), unfolding(crate::specs::Packet::payload_fits))]
fn fits(kind: u8, l: usize, size: usize) -> bool
    ensures { result ≡ payload_fits kind l size }
{
    size == l
        && match kind {
            0..=Header::BROADCAST | Header::OFFER => true,
            Header::RESULT => l == Header::SURVIVORS,
            _ => l == 0,
        }
}

// Questions 4 to 6 of fields and L before a payload.
#[tactic(auto, using(group::proofs::Choice::choices), unfolding(crate::specs::Packet::fields_verdict))]
fn ask_fields(h: Header, l: usize, payload: &[u8]) -> Result<(), Refusal>
    ensures { result ≡ fields_verdict h l payload.now }
{
    if !known(h.kind) {
        return Err(Refusal::UnknownKind);
    }
    if !fits(h.kind, l, payload.len()) {
        return Err(Refusal::PayloadLength);
    }
    if !h.obeys(payload) {
        return Err(Refusal::ForbiddenFields);
    }
    Ok(())
}

// Reads the fields of a packet: questions 3 to 6. Its payload is its part from byte 20 on.
#[tactic(auto, using(group::proofs::Choice::choices), unfolding(crate::specs::Packet::read_of, group::specs::Question::judged))]
pub fn read(packet: &[u8]) -> Result<Header, Refusal>
    ensures answer { result ≡ read_of packet.now }
    ensures wording { reading_wording result ≡ reading_wording (read_of packet.now) }
{
    if packet.len() < Group::HEADER || Group::PACKET < packet.len() {
        return Err(Refusal::PacketSize);
    }
    let header = header_at(packet);
    ask_fields(header, payload_length(packet), &packet[Group::HEADER..])?;
    Ok(header)
}

// The 20 bytes of fields and L.
fn header_bytes(h: Header, l: usize) -> [u8; Group::HEADER]
    requires { l ≤ payload_most }
    ensures { result ≡ header_bytes h l }
{
    let l = big_endian::u16_bytes(l as u16);
    let g = big_endian::u32_bytes(h.group);
    let a = big_endian::u32_bytes(h.a);
    let b = big_endian::u32_bytes(h.b);
    let c = big_endian::u32_bytes(h.c);
    [
        h.kind, h.member.0, l[0], l[1], g[0], g[1], g[2], g[3], a[0], a[1], a[2], a[3], b[0], b[1],
        b[2], b[3], c[0], c[1], c[2], c[3],
    ]
}

// Lays the packet of fields and a payload at the front of the output: the header, and the payload in the part behind it.
fn lay(h: Header, payload: &[u8], out: &mut [u8])
    requires { (length payload.now ≤ payload_most) × (header_size + length payload.now ≤ length out.old) }
    ensures { out.new ≡ front (packet_of h payload.now) out.old }
{
    let header = header_bytes(h, payload.len());
    message::copy(&header, out);
    message::copy(payload, &mut out[Group::HEADER..]);
}

// Questions 2, 4, 5, 6 and 13 of writing.
#[tactic(auto, using(group::proofs::Choice::choices), unfolding(crate::specs::Packet::write_verdict, group::specs::Question::judged))]
fn ask_writing(h: Header, payload: &[u8], room: usize) -> Result<(), Refusal>
    ensures { result ≡ write_verdict h payload.now room }
{
    if room < Group::PACKET {
        return Err(Refusal::ShortOutput);
    }
    ask_fields(h, payload.len(), payload)?;
    if Group::PAYLOAD < payload.len() {
        return Err(Refusal::LongPayload);
    }
    Ok(())
}

// Writes the packet of fields and a payload to the front of the output, and gives how many bytes it wrote.
#[tactic(auto, using(group::proofs::Choice::choices), unfolding(crate::specs::Packet::write_of, group::specs::Question::judged))]
pub fn write(h: Header, payload: &[u8], out: &mut [u8]) -> Result<usize, Refusal>
    ensures answer { result ≡ (write_of h payload.now (length out.old)).answer }
    ensures lent { out.new ≡ front (write_of h payload.now (length out.old)).bytes out.old }
    ensures wording { writing_wording result ≡ writing_wording (write_of h payload.now (length out.old)).answer }
{
    ask_writing(h, payload, out.len())?;
    lay(h, payload, out);
    Ok(Group::HEADER + payload.len())
}

impl Packet {
    // What the fields of each kind mean.
    #[tactic(auto, using(group::proofs::Choice::choices), unfolding(crate::specs::Packet::content_of))]
    pub fn of(h: Header) -> Self
        requires { Named h }
        ensures { result ≡ content_of h }
    {
        match h.kind {
            Header::REQUEST => Packet::Request {
                sender: h.member,
                taken: SequenceNumber(h.a),
                count: h.b,
            },
            Header::BROADCAST => Packet::Broadcast {
                originator: h.member,
                number: SequenceNumber(h.a),
                count: h.b,
                floor: SequenceNumber(h.c),
            },
            Header::GAP => Packet::Gap {
                sender: h.member,
                taken: SequenceNumber(h.a),
                first: SequenceNumber(h.b),
                last: SequenceNumber(h.c),
            },
            Header::STATUS => Packet::Status {
                sender: h.member,
                taken: SequenceNumber(h.a),
            },
            Header::POLL => Packet::Poll {
                elected: h.member,
                top: SequenceNumber(h.a),
                floor: SequenceNumber(h.c),
            },
            Header::OFFER => Packet::Offer {
                originator: h.member,
                number: SequenceNumber(h.a),
                count: h.b,
                floor: SequenceNumber(h.c),
            },
            Header::CONFIRM => Packet::Confirm {
                sender: h.member,
                number: SequenceNumber(h.a),
            },
            Header::ACCEPT => Packet::Accept {
                elected: h.member,
                number: SequenceNumber(h.a),
            },
            Header::INVITATION => Packet::Invitation {
                sender: h.member,
                attempt: h.a,
            },
            Header::REPLY => Packet::Reply {
                sender: h.member,
                attempt: h.a,
                number: SequenceNumber(h.b),
            },
            _ => Packet::Result {
                sender: h.member,
                attempt: h.a,
                elected: MemberNumber(h.b as u8),
                number: SequenceNumber(h.c),
            },
        }
    }

    // The fields that mean it, in the group of that number.
    #[tactic(auto, unfolding(crate::specs::Packet::fields_of))]
    pub fn fields(self, group: u32) -> Header
        ensures { result ≡ fields_of group self }
    {
        match self {
            Packet::Request {
                sender,
                taken,
                count,
            } => Header {
                kind: Header::REQUEST,
                member: sender,
                group,
                a: taken.0,
                b: count,
                c: 0,
            },
            Packet::Broadcast {
                originator,
                number,
                count,
                floor,
            } => Header {
                kind: Header::BROADCAST,
                member: originator,
                group,
                a: number.0,
                b: count,
                c: floor.0,
            },
            Packet::Gap {
                sender,
                taken,
                first,
                last,
            } => Header {
                kind: Header::GAP,
                member: sender,
                group,
                a: taken.0,
                b: first.0,
                c: last.0,
            },
            Packet::Status { sender, taken } => Header {
                kind: Header::STATUS,
                member: sender,
                group,
                a: taken.0,
                b: 0,
                c: 0,
            },
            Packet::Poll {
                elected,
                top,
                floor,
            } => Header {
                kind: Header::POLL,
                member: elected,
                group,
                a: top.0,
                b: 0,
                c: floor.0,
            },
            Packet::Offer {
                originator,
                number,
                count,
                floor,
            } => Header {
                kind: Header::OFFER,
                member: originator,
                group,
                a: number.0,
                b: count,
                c: floor.0,
            },
            Packet::Confirm { sender, number } => Header {
                kind: Header::CONFIRM,
                member: sender,
                group,
                a: number.0,
                b: 0,
                c: 0,
            },
            Packet::Accept { elected, number } => Header {
                kind: Header::ACCEPT,
                member: elected,
                group,
                a: number.0,
                b: 0,
                c: 0,
            },
            Packet::Invitation { sender, attempt } => Header {
                kind: Header::INVITATION,
                member: sender,
                group,
                a: attempt,
                b: 0,
                c: 0,
            },
            Packet::Reply {
                sender,
                attempt,
                number,
            } => Header {
                kind: Header::REPLY,
                member: sender,
                group,
                a: attempt,
                b: number.0,
                c: 0,
            },
            Packet::Result {
                sender,
                attempt,
                elected,
                number,
            } => Header {
                kind: Header::RESULT,
                member: sender,
                group,
                a: attempt,
                b: elected.0 as u32,
                c: number.0,
            },
        }
    }

    // Question 6 at an end: is byte 1 of a poll and of an acceptance the elected member?
    #[tactic(auto, using(group::proofs::Choice::choices), unfolding(crate::specs::Packet::from_elected))]
    pub fn from_elected(self, group: Group) -> bool
        ensures { result ≡ from_elected group self }
    {
        match self {
            Packet::Poll { elected, .. } => elected == group.elected,
            Packet::Accept { elected, .. } => elected == group.elected,
            _ => true,
        }
    }

    // Writes the packet to the front of the output, and gives its length. Where a question of writing says no, it writes nothing
    // and gives 0.
    pub fn put(self, group: u32, payload: &[u8], out: &mut [u8]) -> usize
        ensures { Laid (write_of (fields_of group self) payload.now (length out.old)).bytes result out.old out.new }
    {
        write(self.fields(group), payload, out).unwrap_or(0)
    }
}
