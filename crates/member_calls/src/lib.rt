// The calls of a member on its head and on lent arrays: each asks its questions, then takes its step.
#![tactic(auto)]

ghost use Rattle.std.specs.Prelude.{◌≡◌, true, ◌≤◌, length, Err};
ghost use Rattle.group.specs.Limits.{payload_most, longest_packet};
ghost use Rattle.group.specs.Opening.{description_of};
ghost use Rattle.packet.specs.Packet.{obeys, fields_of, read_of};
ghost use Rattle.store.specs.Places.{messages_in};
ghost use Rattle.member.specs.Calls.{content_step};
ghost use Rattle.member.specs.View.{whole};
ghost use Rattle.member.specs.Promise.{Begins, Submitted, Received, Taken, Repeated, Reported};
ghost use Rattle.member.specs.Steps.{read_ours, Hears};

use group::{Group, MemberNumber, Refusal};
use member::{Answer, Begun, Done, Head, Reply};
use packet::{Header, Packet};

// A no: nothing is written.
fn refused(refusal: Refusal) -> Reply
    ensures { result ≡ record { answer = Answer.Refused refusal; written = 0 } }
{
    Reply {
        answer: Answer::Refused(refusal),
        written: 0,
    }
}

// A no of the work of a call: the head stays.
fn declined(head: Head, refusal: Refusal) -> Done
    ensures { result ≡ record { head = head; reply = record { answer = Answer.Refused refusal; written = 0 } } }
{
    Done {
        head,
        reply: refused(refusal),
    }
}

// Reads a packet at this end: questions 3 to 6, then 6 of byte 1, and 7.
#[tactic(auto, using(group::proofs::Choice::choices), unfolding(member::specs::Steps::read_ours))]
fn read_ours(group: Group, packet: &[u8]) -> Result<Header, Refusal>
    ensures { result ≡ read_ours group (read_of packet.now) }
{
    let header = packet::read(packet)?;
    if !Packet::of(header).from_elected(group) {
        return Err(Refusal::ForbiddenFields);
    }
    if header.group != group.number {
        return Err(Refusal::OtherGroup);
    }
    Ok(header)
}

// What a packet of our group says: questions 8 and 9.
fn content(
    head: Head,
    held: &mut [u32; Group::HELD],
    held_originators: &mut [u8; Group::HELD],
    held_lengths: &mut [u8; Group::HELD],
    held_payloads: &mut [u8; Group::HELD_BYTES],
    packet: Packet,
    payload: &[u8],
    out: &mut [u8],
) -> Done
    requires { (obeys (fields_of head.group.number packet) payload.now ≡ true) × (length payload.now ≤ payload_most) × (longest_packet ≤ length out.old) }
    ensures { Hears head (messages_in held.old held_originators.old held_lengths.old held_payloads.old) result.head (messages_in held.new held_originators.new held_lengths.new held_payloads.new) (λ m. content_step m packet payload.now) result.reply out.old out.new }
{
    match packet {
        Packet::Broadcast {
            originator,
            number,
            count,
            ..
        } => {
            if head.group.n <= originator.0 {
                return declined(head, Refusal::UnknownMember);
            }
            member::broadcast(
                head,
                held,
                held_originators,
                held_lengths,
                held_payloads,
                originator,
                number,
                count,
                payload,
                out,
            )
        }
        Packet::Poll { top, .. } => {
            let reply = member::poll(head, held, top, out);
            Done { head, reply }
        }
        Packet::Offer {
            originator,
            number,
            count,
            ..
        } => {
            if head.group.n <= originator.0 {
                return declined(head, Refusal::UnknownMember);
            }
            let reply = member::offer(
                head,
                held,
                held_originators,
                held_lengths,
                held_payloads,
                originator,
                number,
                count,
                payload,
                out,
            );
            Done { head, reply }
        }
        Packet::Accept { number, .. } => member::noted(head, number),
        _ => declined(head, Refusal::OtherEnd),
    }
}

// An opening that is refused.
fn unopened(refusal: Refusal) -> Begun
    ensures { result ≡ record { head = record { group = description_of 0 0 0; number = record { 0 = 0 }; taken = record { 0 = 0 }; accepted = record { 0 = 0 }; submitted = 0; waiting = 0 }; verdict = Err refusal } }
{
    Begun {
        head: member::idle(Group::default(), MemberNumber::default()),
        verdict: Err(refusal),
    }
}

// The work of opening: questions 18 and 24. Where it is refused, the state is all zero.
pub fn open_on(
    head: Head,
    queued: &mut [u32; Group::WAITING],
    held: &mut [u32; Group::HELD],
    queued_originators: &mut [u8; Group::WAITING],
    queued_lengths: &mut [u8; Group::WAITING],
    held_originators: &mut [u8; Group::HELD],
    held_lengths: &mut [u8; Group::HELD],
    queued_payloads: &mut [u8; Group::WAITING_BYTES],
    held_payloads: &mut [u8; Group::HELD_BYTES],
    n: u8,
    number: MemberNumber,
    group: u32,
    resilience: u8,
) -> Begun
    ensures { Begins (whole head queued.old held.old queued_originators.old queued_lengths.old held_originators.old held_lengths.old queued_payloads.old held_payloads.old) n number group resilience result.verdict (whole result.head queued.new held.new queued_originators.new queued_lengths.new held_originators.new held_lengths.new queued_payloads.new held_payloads.new) }
{
    *queued = [0; Group::WAITING];
    *held = [0; Group::HELD];
    *queued_originators = [0; Group::WAITING];
    *queued_lengths = [0; Group::WAITING];
    *held_originators = [0; Group::HELD];
    *held_lengths = [0; Group::HELD];
    *queued_payloads = [0; Group::WAITING_BYTES];
    *held_payloads = [0; Group::HELD_BYTES];
    if n <= number.0 {
        return unopened(Refusal::Opening);
    }
    match Group::fresh(n, group, resilience) {
        Ok(group) => Begun {
            head: member::idle(group, number),
            verdict: Ok(()),
        },
        Err(refusal) => unopened(refusal),
    }
}

// The work of a submission.
pub fn submit_on(
    head: Head,
    queued: &mut [u32; Group::WAITING],
    held: &mut [u32; Group::HELD],
    queued_originators: &mut [u8; Group::WAITING],
    queued_lengths: &mut [u8; Group::WAITING],
    held_originators: &mut [u8; Group::HELD],
    held_lengths: &mut [u8; Group::HELD],
    queued_payloads: &mut [u8; Group::WAITING_BYTES],
    held_payloads: &mut [u8; Group::HELD_BYTES],
    payload: &[u8],
    out: &mut [u8],
) -> Done
    ensures { Submitted (whole head queued.old held.old queued_originators.old queued_lengths.old held_originators.old held_lengths.old queued_payloads.old held_payloads.old) payload.now out.old result.reply (whole result.head queued.new held.new queued_originators.new queued_lengths.new held_originators.new held_lengths.new queued_payloads.new held_payloads.new) out.new }
{
    if let Err(refusal) = member::ask(
        head,
        queued,
        held,
        queued_originators,
        queued_lengths,
        held_originators,
        held_lengths,
        queued_payloads,
        held_payloads,
        out.len(),
    ) {
        return declined(head, refusal);
    }
    if let Err(refusal) = member::ask_submission(head, payload.len()) {
        return declined(head, refusal);
    }
    member::submitted(
        head,
        held,
        queued,
        queued_originators,
        queued_lengths,
        queued_payloads,
        payload,
        out,
    )
}

// The work of a packet: questions 1 to 9, then the step.
pub fn receive_on(
    head: Head,
    queued: &mut [u32; Group::WAITING],
    held: &mut [u32; Group::HELD],
    queued_originators: &mut [u8; Group::WAITING],
    queued_lengths: &mut [u8; Group::WAITING],
    held_originators: &mut [u8; Group::HELD],
    held_lengths: &mut [u8; Group::HELD],
    queued_payloads: &mut [u8; Group::WAITING_BYTES],
    held_payloads: &mut [u8; Group::HELD_BYTES],
    packet: &[u8],
    out: &mut [u8],
) -> Done
    ensures { Received (whole head queued.old held.old queued_originators.old queued_lengths.old held_originators.old held_lengths.old queued_payloads.old held_payloads.old) packet.now out.old result.reply (whole result.head queued.new held.new queued_originators.new queued_lengths.new held_originators.new held_lengths.new queued_payloads.new held_payloads.new) out.new }
{
    if let Err(refusal) = member::ask(
        head,
        queued,
        held,
        queued_originators,
        queued_lengths,
        held_originators,
        held_lengths,
        queued_payloads,
        held_payloads,
        out.len(),
    ) {
        return declined(head, refusal);
    }
    match read_ours(head.group, packet) {
        Ok(header) => {
            let end = Group::HEADER + packet::payload_length(packet);
            content(
                head,
                held,
                held_originators,
                held_lengths,
                held_payloads,
                Packet::of(header),
                &packet[Group::HEADER..end],
                out,
            )
        }
        Err(refusal) => declined(head, refusal),
    }
}

// The work of a take.
pub fn take_on(
    head: Head,
    queued: &mut [u32; Group::WAITING],
    held: &mut [u32; Group::HELD],
    queued_originators: &mut [u8; Group::WAITING],
    queued_lengths: &mut [u8; Group::WAITING],
    held_originators: &mut [u8; Group::HELD],
    held_lengths: &mut [u8; Group::HELD],
    queued_payloads: &mut [u8; Group::WAITING_BYTES],
    held_payloads: &mut [u8; Group::HELD_BYTES],
    out: &mut [u8],
) -> Done
    ensures { Taken (whole head queued.old held.old queued_originators.old queued_lengths.old held_originators.old held_lengths.old queued_payloads.old held_payloads.old) out.old result.reply (whole result.head queued.new held.new queued_originators.new queued_lengths.new held_originators.new held_lengths.new queued_payloads.new held_payloads.new) out.new }
{
    if let Err(refusal) = member::ask(
        head,
        queued,
        held,
        queued_originators,
        queued_lengths,
        held_originators,
        held_lengths,
        queued_payloads,
        held_payloads,
        out.len(),
    ) {
        return declined(head, refusal);
    }
    let following = window::place(head.taken, 1);
    if window::ready(held[following], head.taken, head.accepted) {
        return member::hand_out(
            head,
            queued,
            queued_originators,
            queued_lengths,
            queued_payloads,
            held,
            held_originators,
            held_lengths,
            held_payloads,
            out,
        );
    }
    let answer = Answer::None;
    let reply = Reply { answer, written: 0 };
    Done { head, reply }
}

// The work of a repeat: question 15.
pub fn repeat_on(
    head: Head,
    queued: &[u32; Group::WAITING],
    held: &[u32; Group::HELD],
    queued_originators: &[u8; Group::WAITING],
    queued_lengths: &[u8; Group::WAITING],
    held_originators: &[u8; Group::HELD],
    held_lengths: &[u8; Group::HELD],
    queued_payloads: &[u8; Group::WAITING_BYTES],
    held_payloads: &[u8; Group::HELD_BYTES],
    out: &mut [u8],
) -> Reply
    ensures { Repeated (whole head queued.now held.now queued_originators.now queued_lengths.now held_originators.now held_lengths.now queued_payloads.now held_payloads.now) out.old result out.new }
{
    if let Err(refusal) = member::ask(
        head,
        queued,
        held,
        queued_originators,
        queued_lengths,
        held_originators,
        held_lengths,
        queued_payloads,
        held_payloads,
        out.len(),
    ) {
        return refused(refusal);
    }
    if head.waiting == 0 {
        return refused(Refusal::NothingWaiting);
    }
    Reply {
        answer: Answer::Sent,
        written: member::put_first(head, held, queued_lengths, queued_payloads, out),
    }
}

// The work of a status call.
pub fn status_on(
    head: Head,
    queued: &[u32; Group::WAITING],
    held: &[u32; Group::HELD],
    queued_originators: &[u8; Group::WAITING],
    queued_lengths: &[u8; Group::WAITING],
    held_originators: &[u8; Group::HELD],
    held_lengths: &[u8; Group::HELD],
    queued_payloads: &[u8; Group::WAITING_BYTES],
    held_payloads: &[u8; Group::HELD_BYTES],
    out: &mut [u8],
) -> Reply
    ensures { Reported (whole head queued.now held.now queued_originators.now queued_lengths.now held_originators.now held_lengths.now queued_payloads.now held_payloads.now) out.old result out.new }
{
    if let Err(refusal) = member::ask(
        head,
        queued,
        held,
        queued_originators,
        queued_lengths,
        held_originators,
        held_lengths,
        queued_payloads,
        held_payloads,
        out.len(),
    ) {
        return refused(refusal);
    }
    let end = window::row_end(held, head.taken);
    Reply {
        answer: Answer::Sent,
        written: member::put_status(head, end, out),
    }
}
