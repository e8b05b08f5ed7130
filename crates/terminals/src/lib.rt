// A terminal's calls: the work of each is lent its state in parts, the numbers of its head by value and the arrays that it looks at.
#![tactic(auto)]

ghost use Rattle.std.specs.Prelude.{true, false, ◌≡◌, ◌*◌, ◌≤◌, length, take};
ghost use Rattle.group.specs.Limits.{members_most, held_most, payload_most};
ghost use Rattle.member.specs.declared.Answer as memberAnswer;
ghost use Rattle.sequencer.specs.declared.Answer as sequencerAnswer;
ghost use Rattle.packet.specs.Packet.{request_kind, content_of, read_of};
ghost use Rattle.history.specs.View.{Places};
ghost use Rattle.recovery.specs.Calls.{of_reset, floor_in};
ghost use Rattle.recovery.specs.Promise.{Received};
ghost use Rattle.recovery.specs.Steps.{with_member_head, with_sequencer_head};
ghost use Rattle.recovery.specs.View.{whole};
ghost use Rattle.terminals.specs.Promise.{Submits, Repeats, Reports, Takes, Asks, Hears, Polls, Copies, Orders};
ghost use Rattle.terminals.specs.Steps.{Remembers, frozen_refusal, closed_refusal, refusal_after, resets, floor_said, read_after, heard_head};

use attempt::Done;
use group::{Group, Refusal, SequenceNumber};
use packet::{Header, Packet};
use recovery::Head;

// What the work of a sequencer's call for packets gives back: the next head, and what the caller is told.
#[derive(Clone, Copy)]
pub struct Step {
    pub head: Head,
    pub reply: sequencer::Reply,
}

// A no of the member's end, and of the sequencer's.
fn refused(refusal: Refusal) -> member::Reply
    ensures { result ≡ record { answer = memberAnswer.Answer.Refused refusal; written = 0 } }
{
    let answer = member::Answer::Refused(refusal);
    member::Reply { answer, written: 0 }
}

fn order_refused(refusal: Refusal) -> sequencer::Reply
    ensures { result ≡ record { answer = sequencerAnswer.Answer.Refused refusal; written = 0 } }
{
    let answer = sequencer::Answer::Refused(refusal);
    sequencer::Reply { answer, written: 0 }
}

// The head with its member's replaced.
fn with_member(head: Head, member: member::Head) -> Head
    ensures { result ≡ with_member_head head member }
{
    Head { member, ..head }
}

// The work of a submission.
pub fn submit_on(
    head: Head,
    queued: &mut [u32; Group::WAITING],
    held: &mut [u32; Group::HELD],
    queued_originators: &mut [u8; Group::WAITING],
    queued_lengths: &mut [u8; Group::WAITING],
    held_originators: &mut [u8; Group::HELD],
    held_lengths: &mut [u8; Group::HELD],
    queued_payloads: &mut [u8; Group::WAITING_BYTES],
    held_payloads: &mut [u8; Group::HELD_BYTES],
    past: &[u32; Group::PLACES],
    past_originators: &[u8; Group::PLACES],
    past_lengths: &[u8; Group::PLACES],
    past_payloads: &[u8; Group::HISTORY_BYTES],
    highest: &[u32; Group::MEMBERS],
    replies: &[u32; Group::MEMBERS],
    payload: &[u8],
    out: &mut [u8],
) -> Done
    ensures { Submits head queued.old held.old queued_originators.old queued_lengths.old held_originators.old held_lengths.old queued_payloads.old held_payloads.old past.now past_originators.now past_lengths.now past_payloads.now highest.now replies.now payload.now out.old result.reply result.head queued.new held.new queued_originators.new queued_lengths.new held_originators.new held_lengths.new queued_payloads.new held_payloads.new out.new }
{
    if recovery::beside_sound(
        head,
        past,
        past_originators,
        past_lengths,
        past_payloads,
        highest,
        replies,
    ) {
        let done = member_calls::submit_on(
            head.member,
            queued,
            held,
            queued_originators,
            queued_lengths,
            held_originators,
            held_lengths,
            queued_payloads,
            held_payloads,
            payload,
            out,
        );
        return Done {
            head: with_member(head, done.head),
            reply: done.reply,
        };
    }
    let reply = refused(Refusal::UnsoundState);
    Done { head, reply }
}

// The work of a repeat.
pub fn repeat_on(
    head: Head,
    queued: &[u32; Group::WAITING],
    held: &[u32; Group::HELD],
    queued_originators: &[u8; Group::WAITING],
    queued_lengths: &[u8; Group::WAITING],
    held_originators: &[u8; Group::HELD],
    held_lengths: &[u8; Group::HELD],
    queued_payloads: &[u8; Group::WAITING_BYTES],
    held_payloads: &[u8; Group::HELD_BYTES],
    past: &[u32; Group::PLACES],
    past_originators: &[u8; Group::PLACES],
    past_lengths: &[u8; Group::PLACES],
    past_payloads: &[u8; Group::HISTORY_BYTES],
    highest: &[u32; Group::MEMBERS],
    replies: &[u32; Group::MEMBERS],
    out: &mut [u8],
) -> member::Reply
    ensures { Repeats head queued.now held.now queued_originators.now queued_lengths.now held_originators.now held_lengths.now queued_payloads.now held_payloads.now past.now past_originators.now past_lengths.now past_payloads.now highest.now replies.now out.old result out.new }
{
    if recovery::beside_sound(
        head,
        past,
        past_originators,
        past_lengths,
        past_payloads,
        highest,
        replies,
    ) {
        return member_calls::repeat_on(
            head.member,
            queued,
            held,
            queued_originators,
            queued_lengths,
            held_originators,
            held_lengths,
            queued_payloads,
            held_payloads,
            out,
        );
    }
    refused(Refusal::UnsoundState)
}

// The work of a status call.
pub fn status_on(
    head: Head,
    queued: &[u32; Group::WAITING],
    held: &[u32; Group::HELD],
    queued_originators: &[u8; Group::WAITING],
    queued_lengths: &[u8; Group::WAITING],
    held_originators: &[u8; Group::HELD],
    held_lengths: &[u8; Group::HELD],
    queued_payloads: &[u8; Group::WAITING_BYTES],
    held_payloads: &[u8; Group::HELD_BYTES],
    past: &[u32; Group::PLACES],
    past_originators: &[u8; Group::PLACES],
    past_lengths: &[u8; Group::PLACES],
    past_payloads: &[u8; Group::HISTORY_BYTES],
    highest: &[u32; Group::MEMBERS],
    replies: &[u32; Group::MEMBERS],
    out: &mut [u8],
) -> member::Reply
    ensures { Reports head queued.now held.now queued_originators.now queued_lengths.now held_originators.now held_lengths.now queued_payloads.now held_payloads.now past.now past_originators.now past_lengths.now past_payloads.now highest.now replies.now out.old result out.new }
{
    if recovery::beside_sound(
        head,
        past,
        past_originators,
        past_lengths,
        past_payloads,
        highest,
        replies,
    ) {
        return member_calls::status_on(
            head.member,
            queued,
            held,
            queued_originators,
            queued_lengths,
            held_originators,
            held_lengths,
            queued_payloads,
            held_payloads,
            out,
        );
    }
    refused(Refusal::UnsoundState)
}

// The sizes of what is held, which a reference to an array does not tell.
fn held_sizes(held: &[u32], held_payloads: &[u8])
    requires { (length held.now ≡ held_most) × (length held_payloads.now ≡ held_most * payload_most) }
    ensures { (length held.now ≡ held_most) × (length held_payloads.now ≡ held_most * payload_most) }
{}

// What a take handed out is kept among the last 32, and its count.
fn remember(
    answer: member::Answer,
    written: usize,
    past: &mut [u32],
    past_originators: &mut [u8],
    past_lengths: &mut [u8],
    past_payloads: &mut [u8],
    highest: &mut [u32],
    out: &[u8],
)
    requires { Places past.old past_originators.old past_lengths.old past_payloads.old × (length highest.old ≡ members_most) × (written ≤ payload_most) × (written ≤ length out.now) }
    ensures { Remembers answer (take written out.now) past.old past_originators.old past_lengths.old past_payloads.old highest.old past.new past_originators.new past_lengths.new past_payloads.new highest.new }
{
    if let member::Answer::Took {
        number,
        originator,
        count,
        ..
    } = answer
    {
        let at = history::place(number.0 as u64);
        window::keep(
            past,
            past_originators,
            past_lengths,
            past_payloads,
            at,
            originator,
            count,
            &out[..written],
        );
        recovery::count_one(highest, originator.0, count);
    }
}

// The work of a take: the member's, and what it hands out is kept.
pub fn take_on(
    head: Head,
    queued: &mut [u32; Group::WAITING],
    held: &mut [u32; Group::HELD],
    queued_originators: &mut [u8; Group::WAITING],
    queued_lengths: &mut [u8; Group::WAITING],
    held_originators: &mut [u8; Group::HELD],
    held_lengths: &mut [u8; Group::HELD],
    queued_payloads: &mut [u8; Group::WAITING_BYTES],
    held_payloads: &mut [u8; Group::HELD_BYTES],
    past: &mut [u32; Group::PLACES],
    past_originators: &mut [u8; Group::PLACES],
    past_lengths: &mut [u8; Group::PLACES],
    past_payloads: &mut [u8; Group::HISTORY_BYTES],
    highest: &mut [u32; Group::MEMBERS],
    replies: &[u32; Group::MEMBERS],
    out: &mut [u8],
) -> Done
    ensures { Takes head queued.old held.old queued_originators.old queued_lengths.old held_originators.old held_lengths.old queued_payloads.old held_payloads.old past.old past_originators.old past_lengths.old past_payloads.old highest.old replies.now out.old result.reply result.head queued.new held.new queued_originators.new queued_lengths.new held_originators.new held_lengths.new queued_payloads.new held_payloads.new past.new past_originators.new past_lengths.new past_payloads.new highest.new out.new }
{
    if recovery::beside_sound(
        head,
        past,
        past_originators,
        past_lengths,
        past_payloads,
        highest,
        replies,
    ) {
        held_sizes(held, held_payloads);
        let done = member_calls::take_on(
            head.member,
            queued,
            held,
            queued_originators,
            queued_lengths,
            held_originators,
            held_lengths,
            queued_payloads,
            held_payloads,
            out,
        );
        let next = with_member(head, done.head);
        let reply = done.reply;
        let answer = reply.answer;
        remember(
            answer,
            reply.written,
            past,
            past_originators,
            past_lengths,
            past_payloads,
            highest,
            out,
        );
        return Done { head: next, reply };
    }
    let reply = refused(Refusal::UnsoundState);
    Done { head, reply }
}

// Whether a packet that was read is of a reset: kinds 9 to 11.
fn of_reset(h: Header) -> bool
    requires { request_kind ≤ h.kind }
    ensures { result ≡ of_reset (content_of h) }
{
    Header::ACCEPT < h.kind
}

// The floor that a packet says; 0 for none.
// kept: 0 is the sequence number that means none yet, and the caller takes the later of two, for which an Option would only unwrap to it.
#[tactic(auto, using(group::proofs::Choice::choices), unfolding(recovery::specs::Calls::floor_in))]
fn floor_in(content: Packet) -> u32
    ensures { result ≡ floor_in content }
{
    match content {
        Packet::Broadcast { floor, .. }
        | Packet::Poll { floor, .. }
        | Packet::Offer { floor, .. } => floor.0,
        _ => 0,
    }
}

fn floor_said(packet: &[u8]) -> SequenceNumber
    ensures { result.0 ≡ floor_said (read_of packet.now) }
{
    match packet::read(packet) {
        Ok(h) => SequenceNumber(floor_in(Packet::of(h))),
        Err(_) => SequenceNumber(0),
    }
}

// The highest floor read, once a packet was answered.
fn read_after(read: SequenceNumber, answer: member::Answer, packet: &[u8]) -> SequenceNumber
    ensures { result ≡ read_after read answer (read_of packet.now) }
{
    if let member::Answer::Refused(_) = answer {
        return read;
    }
    window::later(read, floor_said(packet))
}

// The head with what its member leaves, and the highest floor read.
fn with_heard(head: Head, member: member::Head, read: SequenceNumber) -> Head
    ensures { result ≡ heard_head head member read }
{
    Head {
        member,
        read,
        ..head
    }
}

// What a member with a reply open refuses a packet with that is of no reset: questions 3 to 7.
fn closed_refusal(group: Group, packet: &[u8]) -> Refusal
    ensures { result ≡ closed_refusal group (read_of packet.now) }
{
    match packet::read(packet) {
        Ok(h) => {
            if Packet::of(h).from_elected(group) {
                Refusal::OtherGroup
            } else {
                Refusal::ForbiddenFields
            }
        }
        Err(refusal) => refusal,
    }
}

// Behind questions 1 and 2.
#[tactic(auto, unfolding(crate::specs::Steps::refusal_after))]
fn closed_reply(v: Result<(), Refusal>, group: Group, packet: &[u8]) -> member::Reply
    ensures { result ≡ record { answer = memberAnswer.Answer.Refused (refusal_after v (closed_refusal group (read_of packet.now))); written = 0 } }
{
    match v {
        Ok(()) => refused(closed_refusal(group, packet)),
        Err(refusal) => refused(refusal),
    }
}

// A packet that is of no reset, at the member: 7 with a reply open; else the member's step, and its floor is read.
fn hear_on(
    head: Head,
    queued: &mut [u32; Group::WAITING],
    held: &mut [u32; Group::HELD],
    queued_originators: &mut [u8; Group::WAITING],
    queued_lengths: &mut [u8; Group::WAITING],
    held_originators: &mut [u8; Group::HELD],
    held_lengths: &mut [u8; Group::HELD],
    queued_payloads: &mut [u8; Group::WAITING_BYTES],
    held_payloads: &mut [u8; Group::HELD_BYTES],
    past: &[u32; Group::PLACES],
    past_originators: &[u8; Group::PLACES],
    past_lengths: &[u8; Group::PLACES],
    past_payloads: &[u8; Group::HISTORY_BYTES],
    highest: &[u32; Group::MEMBERS],
    replies: &[u32; Group::MEMBERS],
    packet: &[u8],
    out: &mut [u8],
) -> Done
    requires { resets (read_of packet.now) ≡ false }
    ensures { Hears head queued.old held.old queued_originators.old queued_lengths.old held_originators.old held_lengths.old queued_payloads.old held_payloads.old past.now past_originators.now past_lengths.now past_payloads.now highest.now replies.now packet.now out.old result.reply result.head queued.new held.new queued_originators.new queued_lengths.new held_originators.new held_lengths.new queued_payloads.new held_payloads.new out.new }
{
    if recovery::beside_sound(
        head,
        past,
        past_originators,
        past_lengths,
        past_payloads,
        highest,
        replies,
    ) {
        if head.replied == 1 {
            let v = member::ask(
                head.member,
                queued,
                held,
                queued_originators,
                queued_lengths,
                held_originators,
                held_lengths,
                queued_payloads,
                held_payloads,
                out.len(),
            );
            let reply = closed_reply(v, head.member.group, packet);
            return Done { head, reply };
        }
        let done = member_calls::receive_on(
            head.member,
            queued,
            held,
            queued_originators,
            queued_lengths,
            held_originators,
            held_lengths,
            queued_payloads,
            held_payloads,
            packet,
            out,
        );
        let read = read_after(head.read, done.reply.answer, packet);
        return Done {
            head: with_heard(head, done.head, read),
            reply: done.reply,
        };
    }
    let reply = refused(Refusal::UnsoundState);
    Done { head, reply }
}

// Whether a packet is of a reset.
fn is_of_reset(packet: &[u8]) -> bool
    ensures { result ≡ resets (read_of packet.now) }
{
    match packet::read(packet) {
        Ok(h) => of_reset(h),
        Err(_) => false,
    }
}

// Questions 1 and 2 of the member's end.
fn ask(
    head: Head,
    queued: &[u32; Group::WAITING],
    held: &[u32; Group::HELD],
    queued_originators: &[u8; Group::WAITING],
    queued_lengths: &[u8; Group::WAITING],
    held_originators: &[u8; Group::HELD],
    held_lengths: &[u8; Group::HELD],
    queued_payloads: &[u8; Group::WAITING_BYTES],
    held_payloads: &[u8; Group::HELD_BYTES],
    past: &[u32; Group::PLACES],
    past_originators: &[u8; Group::PLACES],
    past_lengths: &[u8; Group::PLACES],
    past_payloads: &[u8; Group::HISTORY_BYTES],
    highest: &[u32; Group::MEMBERS],
    replies: &[u32; Group::MEMBERS],
    room: usize,
) -> Result<(), Refusal>
    ensures { Asks head queued.now held.now queued_originators.now queued_lengths.now held_originators.now held_lengths.now queued_payloads.now held_payloads.now past.now past_originators.now past_lengths.now past_payloads.now highest.now replies.now room result }
{
    if recovery::beside_sound(
        head,
        past,
        past_originators,
        past_lengths,
        past_payloads,
        highest,
        replies,
    ) {
        return member::ask(
            head.member,
            queued,
            held,
            queued_originators,
            queued_lengths,
            held_originators,
            held_lengths,
            queued_payloads,
            held_payloads,
            room,
        );
    }
    Err(Refusal::UnsoundState)
}

// A packet of a reset: questions 1 and 2 of the member's end, then those of the reset.
fn reset_on(
    head: Head,
    queued: &[u32; Group::WAITING],
    held: &mut [u32; Group::HELD],
    queued_originators: &[u8; Group::WAITING],
    queued_lengths: &[u8; Group::WAITING],
    held_originators: &mut [u8; Group::HELD],
    held_lengths: &mut [u8; Group::HELD],
    queued_payloads: &[u8; Group::WAITING_BYTES],
    held_payloads: &mut [u8; Group::HELD_BYTES],
    past: &[u32; Group::PLACES],
    past_originators: &[u8; Group::PLACES],
    past_lengths: &[u8; Group::PLACES],
    past_payloads: &[u8; Group::HISTORY_BYTES],
    highest: &[u32; Group::MEMBERS],
    replies: &mut [u32; Group::MEMBERS],
    taken: &mut [u32; Group::MEMBERS],
    counts: &mut [u32; Group::MEMBERS],
    repeats: &mut [u32; Group::MEMBERS],
    kept: &mut [u32; Group::PLACES],
    marks: &mut [u16; Group::PLACES],
    originators: &mut [u8; Group::PLACES],
    lengths: &mut [u8; Group::PLACES],
    payloads: &mut [u8; Group::HISTORY_BYTES],
    packet: &[u8],
    out: &mut [u8],
) -> Done
    requires { resets (read_of packet.now) ≡ true }
    ensures { Received (whole head queued.now held.old queued_originators.now queued_lengths.now held_originators.old held_lengths.old queued_payloads.now held_payloads.old past.now past_originators.now past_lengths.now past_payloads.now highest.now replies.old taken.old counts.old repeats.old kept.old marks.old originators.old lengths.old payloads.old) packet.now out.old result.reply (whole result.head queued.now held.new queued_originators.now queued_lengths.now held_originators.new held_lengths.new queued_payloads.now held_payloads.new past.now past_originators.now past_lengths.now past_payloads.now highest.now replies.new taken.new counts.new repeats.new kept.new marks.new originators.new lengths.new payloads.new) out.new }
{
    let v = ask(
        head,
        queued,
        held,
        queued_originators,
        queued_lengths,
        held_originators,
        held_lengths,
        queued_payloads,
        held_payloads,
        past,
        past_originators,
        past_lengths,
        past_payloads,
        highest,
        replies,
        out.len(),
    );
    match v {
        Ok(()) => {
            let r = packet::read(packet);
            match r {
                Ok(h) => {
                    attempt::reset_on(
                        head,
                        queued,
                        held,
                        queued_originators,
                        queued_lengths,
                        held_originators,
                        held_lengths,
                        queued_payloads,
                        held_payloads,
                        past,
                        past_originators,
                        past_lengths,
                        past_payloads,
                        highest,
                        replies,
                        taken,
                        counts,
                        repeats,
                        kept,
                        marks,
                        originators,
                        lengths,
                        payloads,
                        h,
                        &packet[Group::HEADER..],
                        out,
                    )
                }
                Err(q) => attempt::declined(head, q),
            }
        }
        Err(q) => attempt::declined(head, q),
    }
}

// The work of a packet: one of a reset is the whole terminal's, another the member's.
pub fn receive_on(
    head: Head,
    queued: &mut [u32; Group::WAITING],
    held: &mut [u32; Group::HELD],
    queued_originators: &mut [u8; Group::WAITING],
    queued_lengths: &mut [u8; Group::WAITING],
    held_originators: &mut [u8; Group::HELD],
    held_lengths: &mut [u8; Group::HELD],
    queued_payloads: &mut [u8; Group::WAITING_BYTES],
    held_payloads: &mut [u8; Group::HELD_BYTES],
    past: &[u32; Group::PLACES],
    past_originators: &[u8; Group::PLACES],
    past_lengths: &[u8; Group::PLACES],
    past_payloads: &[u8; Group::HISTORY_BYTES],
    highest: &[u32; Group::MEMBERS],
    replies: &mut [u32; Group::MEMBERS],
    taken: &mut [u32; Group::MEMBERS],
    counts: &mut [u32; Group::MEMBERS],
    repeats: &mut [u32; Group::MEMBERS],
    kept: &mut [u32; Group::PLACES],
    marks: &mut [u16; Group::PLACES],
    originators: &mut [u8; Group::PLACES],
    lengths: &mut [u8; Group::PLACES],
    payloads: &mut [u8; Group::HISTORY_BYTES],
    packet: &[u8],
    out: &mut [u8],
) -> Done
    ensures { Received (whole head queued.old held.old queued_originators.old queued_lengths.old held_originators.old held_lengths.old queued_payloads.old held_payloads.old past.now past_originators.now past_lengths.now past_payloads.now highest.now replies.old taken.old counts.old repeats.old kept.old marks.old originators.old lengths.old payloads.old) packet.now out.old result.reply (whole result.head queued.new held.new queued_originators.new queued_lengths.new held_originators.new held_lengths.new queued_payloads.new held_payloads.new past.now past_originators.now past_lengths.now past_payloads.now highest.now replies.new taken.new counts.new repeats.new kept.new marks.new originators.new lengths.new payloads.new) out.new }
{
    if is_of_reset(packet) {
        return reset_on(
            head,
            queued,
            held,
            queued_originators,
            queued_lengths,
            held_originators,
            held_lengths,
            queued_payloads,
            held_payloads,
            past,
            past_originators,
            past_lengths,
            past_payloads,
            highest,
            replies,
            taken,
            counts,
            repeats,
            kept,
            marks,
            originators,
            lengths,
            payloads,
            packet,
            out,
        );
    }
    hear_on(
        head,
        queued,
        held,
        queued_originators,
        queued_lengths,
        held_originators,
        held_lengths,
        queued_payloads,
        held_payloads,
        past,
        past_originators,
        past_lengths,
        past_payloads,
        highest,
        replies,
        packet,
        out,
    )
}

// The work of its sequencer's poll call.
pub fn poll_on(
    head: Head,
    taken: &[u32; Group::MEMBERS],
    counts: &[u32; Group::MEMBERS],
    repeats: &[u32; Group::MEMBERS],
    kept: &[u32; Group::PLACES],
    marks: &[u16; Group::PLACES],
    originators: &[u8; Group::PLACES],
    lengths: &[u8; Group::PLACES],
    payloads: &[u8; Group::HISTORY_BYTES],
    out: &mut [u8],
) -> sequencer::Reply
    ensures { Polls head taken.now counts.now repeats.now kept.now marks.now originators.now lengths.now payloads.now out.old result out.new }
{
    if recovery::flags_sound(head) {
        return sequencer_calls::poll_on(
            head.sequencer,
            taken,
            counts,
            repeats,
            kept,
            marks,
            originators,
            lengths,
            payloads,
            out,
        );
    }
    order_refused(Refusal::UnsoundState)
}

// The work of its sequencer's copy call.
pub fn copy_on(
    head: Head,
    taken: &[u32; Group::MEMBERS],
    counts: &[u32; Group::MEMBERS],
    repeats: &[u32; Group::MEMBERS],
    kept: &[u32; Group::PLACES],
    marks: &[u16; Group::PLACES],
    originators: &[u8; Group::PLACES],
    lengths: &[u8; Group::PLACES],
    payloads: &[u8; Group::HISTORY_BYTES],
    number: SequenceNumber,
    out: &mut [u8],
) -> sequencer::Reply
    ensures { Copies head taken.now counts.now repeats.now kept.now marks.now originators.now lengths.now payloads.now number out.old result out.new }
{
    if recovery::flags_sound(head) {
        return sequencer_calls::copy_on(
            head.sequencer,
            taken,
            counts,
            repeats,
            kept,
            marks,
            originators,
            lengths,
            payloads,
            number,
            out,
        );
    }
    order_refused(Refusal::UnsoundState)
}

// The head with its sequencer's replaced.
fn with_sequencer(head: Head, sequencer: sequencer::Head) -> Head
    ensures { result ≡ with_sequencer_head head sequencer }
{
    Head { sequencer, ..head }
}

// What a frozen sequencer refuses a packet with: questions 3 to 6, 7 but of a reset, and 8.
fn frozen_refusal(group: Group, packet: &[u8]) -> Refusal
    ensures { result ≡ frozen_refusal group (read_of packet.now) }
{
    match packet::read(packet) {
        Ok(h) => {
            if !Packet::of(h).from_elected(group) {
                Refusal::ForbiddenFields
            } else if h.group == group.number && of_reset(h) {
                Refusal::OtherEnd
            } else {
                Refusal::OtherGroup
            }
        }
        Err(refusal) => refusal,
    }
}

// Behind questions 1 and 2.
#[tactic(auto, unfolding(crate::specs::Steps::refusal_after))]
fn frozen_reply(v: Result<(), Refusal>, group: Group, packet: &[u8]) -> sequencer::Reply
    ensures { result ≡ record { answer = sequencerAnswer.Answer.Refused (refusal_after v (frozen_refusal group (read_of packet.now))); written = 0 } }
{
    match v {
        Ok(()) => order_refused(frozen_refusal(group, packet)),
        Err(refusal) => order_refused(refusal),
    }
}

// The work of its sequencer's call for packets: a frozen one refuses its group's packets but those of a reset.
pub fn order_on(
    head: Head,
    taken: &mut [u32; Group::MEMBERS],
    counts: &mut [u32; Group::MEMBERS],
    repeats: &mut [u32; Group::MEMBERS],
    kept: &mut [u32; Group::PLACES],
    marks: &mut [u16; Group::PLACES],
    originators: &mut [u8; Group::PLACES],
    lengths: &mut [u8; Group::PLACES],
    payloads: &mut [u8; Group::HISTORY_BYTES],
    packet: &[u8],
    out: &mut [u8],
) -> Step
    ensures { Orders head taken.old counts.old repeats.old kept.old marks.old originators.old lengths.old payloads.old packet.now out.old result.reply result.head taken.new counts.new repeats.new kept.new marks.new originators.new lengths.new payloads.new out.new }
{
    if recovery::flags_sound(head) {
        if head.frozen == 1 {
            let v = sequencer::ask(
                head.sequencer,
                taken,
                counts,
                repeats,
                kept,
                marks,
                originators,
                lengths,
                payloads,
                out.len(),
            );
            let reply = frozen_reply(v, head.sequencer.group, packet);
            return Step { head, reply };
        }
        let step = sequencer_calls::receive_on(
            head.sequencer,
            taken,
            counts,
            repeats,
            kept,
            marks,
            originators,
            lengths,
            payloads,
            packet,
            out,
        );
        return Step {
            head: with_sequencer(head, step.head),
            reply: step.reply,
        };
    }
    let reply = order_refused(Refusal::UnsoundState);
    Step { head, reply }
}
