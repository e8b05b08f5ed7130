// The sequencer: it numbers every message, and keeps each until every member is known to have taken it.
// The work of each call is lent its state in parts: the numbers of its head by value, and all arrays. Here are the steps of that work.
#![tactic(auto)]

ghost use Rattle.std.specs.Prelude.{◌≡◌, [], ◌<◌, ◌≤◌, length, get_or, take};
ghost use Rattle.group.specs.Lent.{Laid};
ghost use Rattle.group.specs.Choice.{when◌then◌else◌, ◌and◌, ◌=?◌};
ghost use Rattle.group.specs.Fold.{all_above};
ghost use Rattle.group.specs.Limits.{members_most, places_most, payload_most, longest_packet, largest_number};
ghost use Rattle.group.specs.Members.{expected_of, needed_of};
ghost use Rattle.message.specs.Message.{blank, payload_of};
ghost use Rattle.packet.specs.Packet.{fields_of, packet_of, read_of, write_of};
ghost use Rattle.store.specs.Places.{messages_in, part_of, Lies};
ghost use Rattle.history.specs.Marks.{mark_sound};
ghost use Rattle.history.specs.Sound.{place_sound};
ghost use Rattle.history.specs.View.{Places, counts_only, listed};
ghost use Rattle.sequencer.specs.Sound.{sound_of};
ghost use Rattle.sequencer.specs.Calls.{announced, confirm_of, call_verdict};
ghost use Rattle.sequencer.specs.View.{Fits, Placed, whole, marks_only, view_of};
ghost use Rattle.sequencer.specs.Promise.{Changed};
ghost use Rattle.sequencer.specs.Owed.{MayBroadcast, MaySend, Left};
ghost use Rattle.sequencer.specs.Steps.{quiet, request_change, gap_answer, change_of, confirmation_of, decision_of, sent_of};

use group::{Group, MemberNumber, Refusal, SequenceNumber};
use packet::{Header, Packet};

// The numbers of the whole: the group's description, the last number given, the last accepted, and the number through which every
// member has everything.
#[repr(C)]
#[derive(Clone, Copy, Debug, PartialEq, Eq)]
pub struct Head {
    pub group: Group,
    pub top: SequenceNumber,
    pub accepted: SequenceNumber,
    pub floor: SequenceNumber,
}

// What a call answers.
#[derive(Clone, Copy, Debug, PartialEq, Eq)]
pub enum Answer {
    Refused(Refusal),
    Old,
    Again(SequenceNumber),
    Full,
    Numbered(SequenceNumber),
    Noted,
    Wanted(SequenceNumber, SequenceNumber),
    Sent,
    Marked,
    Accepted,
}

// What a call gives back: its answer, and how many bytes it wrote to the front of the lent output.
#[derive(Clone, Copy, Debug, PartialEq, Eq)]
pub struct Reply {
    pub answer: Answer,
    pub written: usize,
}

// What a call on the arrays gives back: the head that the state has next, and the reply.
#[derive(Clone, Copy, Debug, PartialEq, Eq)]
pub struct Step {
    pub head: Head,
    pub reply: Reply,
}

// What opening on the arrays gives back.
#[derive(Clone, Copy, Debug, PartialEq, Eq)]
pub struct Start {
    pub head: Head,
    pub verdict: Result<(), Refusal>,
}

// What a packet changes beside the noting: the number whose place is laid, top, the last accepted number, the sender's last count and
// repeat count.
#[derive(Clone, Copy, Debug, PartialEq, Eq)]
pub struct Change {
    pub number: SequenceNumber,
    pub top: SequenceNumber,
    pub accepted: SequenceNumber,
    pub count: u32,
    pub repeats: u32,
    pub answer: Answer,
}

// What becomes of a packet that no question refuses: it marks who confirms a number, or it is noted.
#[derive(Clone, Copy, Debug, PartialEq, Eq)]
pub enum Decision {
    Mark(MemberNumber, SequenceNumber),
    Note(Packet),
}

// Writes a packet with the first bytes of a place as its payload, if its questions allow it.
fn put_place(
    packet: Packet,
    group: u32,
    payloads: &[u8],
    at: usize,
    size: u8,
    out: &mut [u8],
) -> usize
    requires { Lies at payloads.now × (size ≤ payload_most) }
    ensures { Laid (write_of (fields_of group packet) (take size (part_of payloads.now at)) (length out.old)).bytes result out.old out.new }
{
    let base = at * Group::PAYLOAD;
    let end = base + (size as usize);
    packet.put(group, &payloads[base..end], out)
}

// A message goes out as a broadcast if its number is accepted, else as an offer.
#[tactic(auto, using(group::proofs::Choice::choices), unfolding(crate::specs::Calls::announced))]
fn announced(
    accepted: SequenceNumber,
    originator: MemberNumber,
    number: SequenceNumber,
    count: u32,
    floor: SequenceNumber,
) -> Packet
    ensures { result ≡ announced accepted originator number count floor }
{
    if number.0 <= accepted.0 {
        Packet::Broadcast {
            originator,
            number,
            count,
            floor,
        }
    } else {
        Packet::Offer {
            originator,
            number,
            count,
            floor,
        }
    }
}

// Writes the packet of a number, whose message lies in a place, with today's floor.
pub fn send(
    group: u32,
    accepted: SequenceNumber,
    floor: SequenceNumber,
    number: SequenceNumber,
    at: usize,
    kept: &[u32],
    originators: &[u8],
    lengths: &[u8],
    payloads: &[u8],
    out: &mut [u8],
) -> usize
    requires { (at < places_most) × MayBroadcast number floor (get_or (messages_in kept.now originators.now lengths.now payloads.now) at blank) × (longest_packet ≤ length out.old) × Places kept.now originators.now lengths.now payloads.now }
    ensures { Laid (packet_of (fields_of group (announced accepted (get_or (messages_in kept.now originators.now lengths.now payloads.now) at blank).originator number (get_or (messages_in kept.now originators.now lengths.now payloads.now) at blank).count floor)) (payload_of (get_or (messages_in kept.now originators.now lengths.now payloads.now) at blank))) result out.old out.new }
{
    let originator = MemberNumber(originators[at]);
    let packet = announced(accepted, originator, number, kept[at], floor);
    put_place(packet, group, payloads, at, lengths[at], out)
}

// Writes the poll packet.
pub fn send_poll(group: Group, top: SequenceNumber, floor: SequenceNumber, out: &mut [u8]) -> usize
    requires { (floor.0 ≤ top.0) × (longest_packet ≤ length out.old) }
    ensures { Laid (packet_of (fields_of group.number (Packet.Poll group.elected top floor)) []) result out.old out.new }
{
    let packet = Packet::Poll {
        elected: group.elected,
        top,
        floor,
    };
    packet.put(group.number, &[], out)
}

// Writes the packet that accepts all up to a number.
fn send_accept(group: Group, number: SequenceNumber, out: &mut [u8]) -> usize
    requires { (1 ≤ number.0) × (longest_packet ≤ length out.old) }
    ensures { Laid (packet_of (fields_of group.number (Packet.Accept group.elected number)) []) result out.old out.new }
{
    let packet = Packet::Accept {
        elected: group.elected,
        number,
    };
    packet.put(group.number, &[], out)
}

// Writes what the answer to a packet that is noted comes with: the packet of the message in a place, a poll packet, or nothing.
#[tactic(auto, unfolding(crate::specs::Steps::sent_of))]
pub fn send_answer(
    answer: Answer,
    group: Group,
    top: SequenceNumber,
    accepted: SequenceNumber,
    floor: SequenceNumber,
    at: usize,
    kept: &[u32],
    originators: &[u8],
    lengths: &[u8],
    payloads: &[u8],
    out: &mut [u8],
) -> usize
    requires { (at < places_most) × MaySend answer top floor (get_or (messages_in kept.now originators.now lengths.now payloads.now) at blank) × (longest_packet ≤ length out.old) × Places kept.now originators.now lengths.now payloads.now }
    ensures { Laid (sent_of answer group top accepted floor (get_or (messages_in kept.now originators.now lengths.now payloads.now) at blank)) result out.old out.new }
{
    match answer {
        Answer::Again(number) | Answer::Numbered(number) => send(
            group.number,
            accepted,
            floor,
            number,
            at,
            kept,
            originators,
            lengths,
            payloads,
            out,
        ),
        Answer::Full => send_poll(group, top, floor, out),
        _ => 0,
    }
}

// A change of the sender's repeat count at most.
fn quiet(
    last: u32,
    top: SequenceNumber,
    accepted: SequenceNumber,
    repeats: u32,
    answer: Answer,
) -> Change
    ensures { result ≡ quiet last top accepted repeats answer }
{
    Change {
        number: top,
        top,
        accepted,
        count: last,
        repeats,
        answer,
    }
}

// The last accepted number, once a next number is given: that one where none has to confirm it.
#[tactic(auto, using(group::proofs::Choice::choices))]
fn accepted_next(group: Group, accepted: SequenceNumber, next: SequenceNumber) -> SequenceNumber
    ensures { result ≡ (when needed_of group =? 0 then next else accepted) }
{
    if group.needed() == 0 { next } else { accepted }
}

// What a request changes, once A is noted: Old, Again, Full or Numbered.
fn request_change(
    kept: &[u32],
    originators: &[u8],
    sender: MemberNumber,
    count: u32,
    last: u32,
    floor: SequenceNumber,
    top: SequenceNumber,
    accepted: SequenceNumber,
    group: Group,
    repeats: u32,
) -> Change
    requires { (last < count → top.0 < largest_number) × (length kept.now ≡ places_most) × (length originators.now ≡ places_most) }
    ensures { result ≡ request_change (listed kept.now originators.now) sender count last floor.0 top accepted (needed_of group) repeats }
{
    let more = history::one_more(repeats);
    if count < last {
        return quiet(last, top, accepted, more, Answer::Old);
    }
    if count == last {
        return match history::find(kept, originators, sender, count, floor, top) {
            Some(number) => Change {
                number,
                top,
                accepted,
                count: last,
                repeats: more,
                answer: Answer::Again(number),
            },
            None => quiet(last, top, accepted, more, Answer::Old),
        };
    }
    if history::kept(floor, top) == Group::PLACES {
        return quiet(last, top, accepted, repeats, Answer::Full);
    }
    let next = SequenceNumber(top.0 + 1);
    Change {
        number: next,
        top: next,
        accepted: accepted_next(group, accepted, next),
        count,
        repeats,
        answer: Answer::Numbered(next),
    }
}

// A gap, once A is noted: Noted if C is at most floor, else Wanted, from the larger of B and floor + 1, to C.
#[tactic(auto, using(group::proofs::Choice::choices), unfolding(crate::specs::Steps::gap_answer))]
fn gap_answer(floor: SequenceNumber, first: SequenceNumber, last: SequenceNumber) -> Answer
    ensures { result ≡ gap_answer floor.0 first last }
{
    if last.0 <= floor.0 {
        return Answer::Noted;
    }
    let from = first.0.max(floor.0 + 1);
    Answer::Wanted(SequenceNumber(from), last)
}

// What a packet changes, once A is noted.
#[tactic(auto, unfolding(crate::specs::Steps::change_of))]
pub fn packet_change(
    kept: &[u32],
    originators: &[u8],
    packet: Packet,
    last: u32,
    floor: SequenceNumber,
    top: SequenceNumber,
    accepted: SequenceNumber,
    group: Group,
    repeats: u32,
) -> Change
    requires { Left packet last top.0 × (length kept.now ≡ places_most) × (length originators.now ≡ places_most) }
    ensures { result ≡ change_of (listed kept.now originators.now) packet last floor.0 top accepted (needed_of group) repeats }
{
    match packet {
        Packet::Request { sender, count, .. } => request_change(
            kept,
            originators,
            sender,
            count,
            last,
            floor,
            top,
            accepted,
            group,
            repeats,
        ),
        Packet::Gap {
            first,
            last: to,
            ..
        } => quiet(last, top, accepted, repeats, gap_answer(floor, first, to)),
        _ => quiet(last, top, accepted, repeats, Answer::Noted),
    }
}

// Who confirms which number in a packet, if it is a confirmation.
#[tactic(auto, unfolding(crate::specs::Steps::confirmation_of))]
fn confirmed_by(packet: Packet) -> Option<(MemberNumber, SequenceNumber)>
    ensures { result ≡ confirmation_of packet }
{
    match packet {
        Packet::Confirm { sender, number } => Some((sender, number)),
        _ => None,
    }
}

// The head of a fresh state.
pub fn fresh_head(group: Group) -> Head
    ensures { result ≡ record { group = group; top = record { 0 = 0 }; accepted = record { 0 = 0 }; floor = record { 0 = 0 } } }
{
    Head {
        group,
        top: SequenceNumber(0),
        accepted: SequenceNumber(0),
        floor: SequenceNumber(0),
    }
}

// Whether the history and the marks are sound.
#[tactic(auto, using(group::proofs::Choice::choices))]
fn places_sound(
    head: Head,
    counts: &[u32],
    kept: &[u32],
    marks: &[u16],
    originators: &[u8],
    lengths: &[u8],
    payloads: &[u8],
) -> bool
    requires { (head.group.n ≤ members_most) × (length counts.now ≡ members_most) × (length marks.now ≡ places_most) × Places kept.now originators.now lengths.now payloads.now }
    ensures { result ≡ (all_above (place_sound head.group.n (counts_only counts.now) (messages_in kept.now originators.now lengths.now payloads.now) head.top.0) head.floor.0 places_most and all_above (mark_sound (expected_of head.group) marks.now head.accepted.0 head.top.0) head.floor.0 places_most) }
{
    history::history_sound(
        head.group.n,
        head.floor,
        head.top,
        counts,
        kept,
        originators,
        lengths,
        payloads,
    ) && history::marks_sound(
        head.group.expected(),
        head.floor,
        head.accepted,
        head.top,
        marks,
    )
}

// Question 1: is the state sound?
pub fn sound(
    head: Head,
    taken: &[u32; Group::MEMBERS],
    counts: &[u32],
    repeats: &[u32],
    kept: &[u32],
    marks: &[u16],
    originators: &[u8],
    lengths: &[u8],
    payloads: &[u8],
) -> bool
    requires { Placed (whole head taken.now counts.now repeats.now kept.now marks.now originators.now lengths.now payloads.now) }
    ensures answer { result ≡ sound_of (view_of (whole head taken.now counts.now repeats.now kept.now marks.now originators.now lengths.now payloads.now)) }
    ensures sizes { Fits (whole head taken.now counts.now repeats.now kept.now marks.now originators.now lengths.now payloads.now) }
{
    history::frame_sound(head.group, head.floor, head.accepted, head.top, taken)
        && history::entries_sound(head.group, head.top, taken, counts, repeats)
        && places_sound(head, counts, kept, marks, originators, lengths, payloads)
}

// Questions 1 and 2, of every call.
#[tactic(auto, using(group::proofs::Choice::choices), unfolding(crate::specs::Calls::call_verdict))]
pub fn ask(
    head: Head,
    taken: &[u32; Group::MEMBERS],
    counts: &[u32],
    repeats: &[u32],
    kept: &[u32],
    marks: &[u16],
    originators: &[u8],
    lengths: &[u8],
    payloads: &[u8],
    room: usize,
) -> Result<(), Refusal>
    requires { Placed (whole head taken.now counts.now repeats.now kept.now marks.now originators.now lengths.now payloads.now) }
    ensures answer { result ≡ call_verdict (view_of (whole head taken.now counts.now repeats.now kept.now marks.now originators.now lengths.now payloads.now)) room }
    ensures sizes { Fits (whole head taken.now counts.now repeats.now kept.now marks.now originators.now lengths.now payloads.now) }
{
    if !sound(
        head,
        taken,
        counts,
        repeats,
        kept,
        marks,
        originators,
        lengths,
        payloads,
    ) {
        return Err(Refusal::UnsoundState);
    }
    if room < Group::PACKET {
        return Err(Refusal::ShortOutput);
    }
    Ok(())
}

// A reply that writes nothing.
fn unwritten(answer: Answer) -> Reply
    ensures { result ≡ record { answer = answer; written = 0 } }
{
    Reply { answer, written: 0 }
}

// A confirmation of a number by a member: Old for an accepted number; else its marks are set, and what then has enough is accepted.
pub fn confirm(
    head: Head,
    marks: &mut [u16],
    member: MemberNumber,
    number: SequenceNumber,
    out: &mut [u8],
) -> Step
    requires { (member.0 < members_most) × (length marks.old ≡ places_most) × (longest_packet ≤ length out.old) }
    ensures { Changed (confirm_of (view_of (marks_only head marks.old)) member number) result.reply (marks_only result.head marks.new) out.old out.new }
{
    if number.0 <= head.accepted.0 {
        return Step {
            head,
            reply: unwritten(Answer::Old),
        };
    }
    history::mark(marks, member, head.accepted, number);
    match history::enough(marks, head.group.needed(), head.accepted, head.top) {
        Some(accepted) => {
            history::unmark(marks, head.accepted, accepted);
            let written = send_accept(head.group, accepted, out);
            Step {
                head: Head { accepted, ..head },
                reply: Reply {
                    answer: Answer::Accepted,
                    written,
                },
            }
        }
        None => Step {
            head,
            reply: unwritten(Answer::Marked),
        },
    }
}

// Questions 3 to 12 (6 of byte 1 at this end), 25, and 16, of a packet; then what becomes of it.
pub fn decide(head: Head, counts: &[u32], packet: &[u8]) -> Result<Decision, Refusal>
    requires { length counts.now ≡ members_most }
    ensures { result ≡ decision_of head.group (counts_only counts.now) head.accepted head.top (read_of packet.now) }
{
    let header = packet::read(packet)?;
    let content = Packet::of(header);
    history::ask_packet(
        head.group,
        counts,
        head.accepted,
        head.top,
        header.group,
        content,
    )?;
    match confirmed_by(content) {
        Some((member, number)) => Ok(Decision::Mark(member, number)),
        None => Ok(Decision::Note(content)),
    }
}
