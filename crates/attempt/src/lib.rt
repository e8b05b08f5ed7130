// A terminal's part in a reset: it invites, replies, notes the replies to its own invitation, makes a group of them, and enters one. The work
// of each call is lent its state in parts: the numbers of its head by value, and all arrays.
#![tactic(auto)]

ghost use Rattle.std.specs.Prelude.{◌≡◌, true, [], ◌≤◌, ◌<◌, length, set, replicate};
ghost use Rattle.group.specs.Question.{all_yes};
ghost use Rattle.group.specs.Choice.{when◌then◌else◌, ◌and◌, ◌<?◌};
ghost use Rattle.group.specs.Lent.{Laid};
ghost use Rattle.group.specs.Limits.{members_most, held_most, longest_packet};
ghost use Rattle.group.specs.Members.{is_in, is_within, all_of};
ghost use Rattle.big_endian.specs.Number.{bytes_of};
ghost use Rattle.packet.specs.Packet.{accept_kind, reply_kind, fields_verdict, fields_of, packet_of, survivors_size, Named};
ghost use Rattle.packet.specs.declared.Packet as said;
ghost use Rattle.member.specs.declared.Answer as member;
ghost use Rattle.sequencer.specs.View as sequencer;
ghost use Rattle.recovery.specs.Promise.{Invited, Made};
ghost use Rattle.recovery.specs.Sound.{terminal_sound};
ghost use Rattle.recovery.specs.Steps.{serves_in, sequencer_sound_in};
ghost use Rattle.recovery.specs.View.{whole, terminal_of, flags_sound};
ghost use Rattle.attempt.specs.Promise.{ResetReceived};
ghost use Rattle.attempt.specs.Steps.{Takes, Tells, replied_head, invitation_head, invite_step, reply_step, awaits_in, note_step, answer_step, fits_in, result_verdict, Results, make_verdict, Makes};

use group::{Group, MemberNumber, Refusal, SequenceNumber};
use packet::{Header, Packet};
use recovery::Head;

// What the work of a call gives back: the next head, and what the caller is told.
#[derive(Clone, Copy)]
pub struct Done {
    pub head: Head,
    pub reply: member::Reply,
}

// A no: the head stays, and nothing is written.
pub fn declined(head: Head, refusal: Refusal) -> Done
    ensures { result ≡ record { head = head; reply = record { answer = member.Answer.Refused refusal; written = 0 } } }
{
    let answer = member::Answer::Refused(refusal);
    Done {
        head,
        reply: member::Reply { answer, written: 0 },
    }
}

// Lays a packet without payload at the front of the output, and gives its length.
fn put_bare(packet: Packet, group: u32, out: &mut [u8]) -> usize
    requires { (fields_verdict (fields_of group packet) 0 [] ≡ all_yes) × (longest_packet ≤ length out.old) }
    ensures { Laid (packet_of (fields_of group packet) []) result out.old out.new }
{
    let none = [0u8; 0];
    packet.put(group, &none, out)
}

// Question 1 of the sequencer's end: it is sound, of a group of as many members; or it is not there.
#[tactic(auto, using(group::proofs::Choice::choices), unfolding(recovery::specs::Steps::sequencer_sound_in, sequencer::specs::View::view_of))]
fn sequencer_sound(
    head: Head,
    taken: &[u32; Group::MEMBERS],
    counts: &[u32],
    repeats: &[u32],
    kept: &[u32],
    marks: &[u16],
    originators: &[u8],
    lengths: &[u8],
    payloads: &[u8],
) -> bool
    requires { sequencer.Placed (sequencer.whole head.sequencer taken.now counts.now repeats.now kept.now marks.now originators.now lengths.now payloads.now) }
    ensures { result ≡ sequencer_sound_in head (sequencer.view_of (sequencer.whole head.sequencer taken.now counts.now repeats.now kept.now marks.now originators.now lengths.now payloads.now)) }
{
    if head.sequencing == 1 {
        sequencer::sound(
            head.sequencer,
            taken,
            counts,
            repeats,
            kept,
            marks,
            originators,
            lengths,
            payloads,
        ) && head.sequencer.group.n == head.member.group.n
    } else {
        recovery::no_sequencer(
            head.sequencer,
            taken,
            counts,
            repeats,
            kept,
            marks,
            originators,
            lengths,
            payloads,
        ) && head.frozen != 1
    }
}

// Question 1 of the whole terminal: both ends are sound, and they agree.
pub fn terminal_sound(
    head: Head,
    queued: &[u32; Group::WAITING],
    held: &[u32; Group::HELD],
    queued_originators: &[u8; Group::WAITING],
    queued_lengths: &[u8; Group::WAITING],
    held_originators: &[u8; Group::HELD],
    held_lengths: &[u8; Group::HELD],
    queued_payloads: &[u8; Group::WAITING_BYTES],
    held_payloads: &[u8; Group::HELD_BYTES],
    past: &[u32; Group::PLACES],
    past_originators: &[u8; Group::PLACES],
    past_lengths: &[u8; Group::PLACES],
    past_payloads: &[u8; Group::HISTORY_BYTES],
    highest: &[u32; Group::MEMBERS],
    replies: &[u32; Group::MEMBERS],
    taken: &[u32; Group::MEMBERS],
    counts: &[u32; Group::MEMBERS],
    repeats: &[u32; Group::MEMBERS],
    kept: &[u32; Group::PLACES],
    marks: &[u16; Group::PLACES],
    originators: &[u8; Group::PLACES],
    lengths: &[u8; Group::PLACES],
    payloads: &[u8; Group::HISTORY_BYTES],
) -> bool
    ensures { result ≡ (flags_sound head and terminal_sound (terminal_of (whole head queued.now held.now queued_originators.now queued_lengths.now held_originators.now held_lengths.now queued_payloads.now held_payloads.now past.now past_originators.now past_lengths.now past_payloads.now highest.now replies.now taken.now counts.now repeats.now kept.now marks.now originators.now lengths.now payloads.now))) }
{
    recovery::beside_sound(
        head,
        past,
        past_originators,
        past_lengths,
        past_payloads,
        highest,
        replies,
    ) && member::sound(
        head.member,
        queued,
        held,
        queued_originators,
        queued_lengths,
        held_originators,
        held_lengths,
        queued_payloads,
        held_payloads,
    ) && sequencer_sound(
        head,
        taken,
        counts,
        repeats,
        kept,
        marks,
        originators,
        lengths,
        payloads,
    ) && recovery::reply_sound(head, held)
}

// Whether its sequencer is frozen with a reply: its group's is.
#[tactic(auto, using(group::proofs::Choice::choices))]
fn frozen_with(head: Head) -> u8
    ensures { result ≡ (when serves_in head then 1 else head.frozen) }
{
    if recovery::serves(head) {
        1
    } else {
        head.frozen
    }
}

// The head with a reply open to an attempt.
fn with_reply(head: Head, attempt: u32, number: SequenceNumber) -> Head
    ensures { result ≡ replied_head head attempt number }
{
    Head {
        replied: 1,
        attempt,
        number,
        frozen: frozen_with(head),
        ..head
    }
}

// The head with its own invitation: whether it is open, with which number, and whose replies came.
fn with_invitation(head: Head, inviting: u8, invited: u32, repliers: u16) -> Head
    ensures { result ≡ invitation_head head inviting invited repliers }
{
    Head {
        inviting,
        invited,
        repliers,
        ..head
    }
}

// A member's reply goes to its place.
fn keep_reply(replies: &mut [u32], member: MemberNumber, number: SequenceNumber)
    requires { (length replies.old ≡ members_most) × (member.0 < members_most) }
    ensures { replies.new ≡ set replies.old member.0 number.0 }
{
    replies[member.0 as usize] = number.0;
}

// Its own reply is the only one.
fn own_reply(replies: &mut [u32; Group::MEMBERS], member: MemberNumber, number: SequenceNumber)
    requires { member.0 < members_most }
    ensures { replies.new ≡ set (replicate members_most 0) member.0 number.0 }
{
    *replies = [0; Group::MEMBERS];
    keep_reply(replies, member, number);
}

// Inviting: it counts as replying.
fn invite(
    head: Head,
    held: &[u32],
    replies: &mut [u32; Group::MEMBERS],
    attempt: u32,
    out: &mut [u8],
) -> Done
    requires { (head.member.number.0 < members_most) × (length held.now ≡ held_most) × (longest_packet ≤ length out.old) }
    ensures { Takes (invite_step head held.now attempt) result replies.new out.old out.new }
{
    let sender = head.member.number;
    let number = recovery::reply_number(head, held);
    let packet = Packet::Invitation { sender, attempt };
    let written = put_bare(packet, head.member.group.number, out);
    own_reply(replies, sender, number);
    let open = with_reply(head, attempt, number);
    let own = group::only(sender);
    let next = with_invitation(open, 1, attempt, own);
    let reply = member::Reply {
        answer: member::Answer::Sent,
        written,
    };
    Done { head: next, reply }
}

// The work of inviting with a group number.
pub fn invite_on(
    head: Head,
    queued: &[u32; Group::WAITING],
    held: &[u32; Group::HELD],
    queued_originators: &[u8; Group::WAITING],
    queued_lengths: &[u8; Group::WAITING],
    held_originators: &[u8; Group::HELD],
    held_lengths: &[u8; Group::HELD],
    queued_payloads: &[u8; Group::WAITING_BYTES],
    held_payloads: &[u8; Group::HELD_BYTES],
    past: &[u32; Group::PLACES],
    past_originators: &[u8; Group::PLACES],
    past_lengths: &[u8; Group::PLACES],
    past_payloads: &[u8; Group::HISTORY_BYTES],
    highest: &[u32; Group::MEMBERS],
    replies: &mut [u32; Group::MEMBERS],
    taken: &[u32; Group::MEMBERS],
    counts: &[u32; Group::MEMBERS],
    repeats: &[u32; Group::MEMBERS],
    kept: &[u32; Group::PLACES],
    marks: &[u16; Group::PLACES],
    originators: &[u8; Group::PLACES],
    lengths: &[u8; Group::PLACES],
    payloads: &[u8; Group::HISTORY_BYTES],
    attempt: u32,
    out: &mut [u8],
) -> Done
    ensures { Invited (whole head queued.now held.now queued_originators.now queued_lengths.now held_originators.now held_lengths.now queued_payloads.now held_payloads.now past.now past_originators.now past_lengths.now past_payloads.now highest.now replies.old taken.now counts.now repeats.now kept.now marks.now originators.now lengths.now payloads.now) attempt out.old result.reply (whole result.head queued.now held.now queued_originators.now queued_lengths.now held_originators.now held_lengths.now queued_payloads.now held_payloads.now past.now past_originators.now past_lengths.now past_payloads.now highest.now replies.new taken.now counts.now repeats.now kept.now marks.now originators.now lengths.now payloads.now) out.new }
{
    if terminal_sound(
        head,
        queued,
        held,
        queued_originators,
        queued_lengths,
        held_originators,
        held_lengths,
        queued_payloads,
        held_payloads,
        past,
        past_originators,
        past_lengths,
        past_payloads,
        highest,
        replies,
        taken,
        counts,
        repeats,
        kept,
        marks,
        originators,
        lengths,
        payloads,
    ) {
        if out.len() < Group::PACKET {
            return declined(head, Refusal::ShortOutput);
        }
        return invite(head, held, replies, attempt, out);
    }
    declined(head, Refusal::UnsoundState)
}

// An invitation is answered with a reply: question 9. Another's closes one's own.
fn reply(
    head: Head,
    held: &[u32],
    replies: &mut [u32; Group::MEMBERS],
    sender: MemberNumber,
    attempt: u32,
    out: &mut [u8],
) -> Done
    requires { (length held.now ≡ held_most) × (longest_packet ≤ length out.old) }
    ensures { Takes (reply_step head held.now replies.old sender attempt) result replies.new out.old out.new }
{
    if sender.0 < head.member.group.n {
        let own = head.member.number;
        let number = recovery::reply_number(head, held);
        let packet = Packet::Reply {
            sender: own,
            attempt,
            number,
        };
        let written = put_bare(packet, head.member.group.number, out);
        let reply = member::Reply {
            answer: member::Answer::Noted,
            written,
        };
        let open = with_reply(head, attempt, number);
        if sender.0 == own.0 {
            return Done { head: open, reply };
        }
        *replies = [0; Group::MEMBERS];
        let next = with_invitation(open, 0, 0, 0);
        return Done { head: next, reply };
    }
    declined(head, Refusal::UnknownMember)
}

// Whether its own invitation is open with that number.
#[tactic(auto, using(group::proofs::Choice::choices), unfolding(crate::specs::Steps::awaits_in))]
fn awaits(head: Head, attempt: u32) -> bool
    ensures { result ≡ awaits_in head attempt }
{
    head.inviting == 1 && head.invited == attempt
}

// A reply to its own invitation is noted, each one's first: questions 9 and 27.
fn note(
    head: Head,
    replies: &mut [u32; Group::MEMBERS],
    sender: MemberNumber,
    attempt: u32,
    number: SequenceNumber,
) -> Done
    requires { head.member.group.n ≤ members_most }
    ensures { Tells (note_step head replies.old sender attempt number.0) result replies.new }
{
    if sender.0 < head.member.group.n {
        if awaits(head, attempt) {
            let reply = member::Reply {
                answer: member::Answer::Noted,
                written: 0,
            };
            if group::is_in(head.repliers, sender) {
                return Done { head, reply };
            }
            keep_reply(replies, sender, number);
            let own = group::only(sender);
            let next = with_invitation(head, head.inviting, head.invited, head.repliers | own);
            return Done { head: next, reply };
        }
        return declined(head, Refusal::NotOfAttempt);
    }
    declined(head, Refusal::UnknownMember)
}

// A packet of kind 9 or 10: an invitation is answered with a reply, and a reply is noted.
fn answer(
    head: Head,
    held: &[u32],
    replies: &mut [u32; Group::MEMBERS],
    h: Header,
    out: &mut [u8],
) -> Done
    requires { (head.member.group.n ≤ members_most) × (length held.now ≡ held_most) × (longest_packet ≤ length out.old) }
    ensures { Takes (answer_step head held.now replies.old h) result replies.new out.old out.new }
{
    let sender = h.member;
    if h.kind == Header::INVITATION {
        return reply(head, held, replies, sender, h.a, out);
    }
    note(head, replies, sender, h.a, SequenceNumber(h.b))
}

// Whether a result's sender and its survivors are members: question 9.
#[tactic(auto, using(group::proofs::Choice::choices))]
fn known(head: Head, sender: MemberNumber, survivors: u16) -> bool
    requires { head.member.group.n ≤ members_most }
    ensures { result ≡ (sender.0 <? head.member.group.n and is_within survivors (all_of head.member.group.n)) }
{
    sender.0 < head.member.group.n && recovery::are_members(survivors, head.member.group.n)
}

// Whether a result is of the last invitation replied to, has the terminal among its survivors, is not below its reply, and, if it is elected,
// not above it: question 27.
#[tactic(auto, using(group::proofs::Choice::choices), unfolding(crate::specs::Steps::fits_in))]
fn fits(
    head: Head,
    attempt: u32,
    elected: MemberNumber,
    number: SequenceNumber,
    survivors: u16,
) -> bool
    ensures { result ≡ fits_in head attempt elected number survivors }
{
    let own = head.member.number;
    head.replied == 1
        && head.attempt == attempt
        && group::is_in(survivors, own)
        // kept: the proof of `fits` did not close with the numbers' derived order.
        && head.number.0 <= number.0
        && (elected.0 != own.0 || number.0 <= head.number.0)
}

// Questions 9 and 27 of a result.
#[tactic(auto, using(group::proofs::Choice::choices), unfolding(crate::specs::Steps::result_verdict))]
fn ask_result(
    head: Head,
    sender: MemberNumber,
    attempt: u32,
    elected: MemberNumber,
    number: SequenceNumber,
    survivors: u16,
) -> Result<(), Refusal>
    requires { head.member.group.n ≤ members_most }
    ensures { result ≡ result_verdict head sender attempt elected number survivors }
{
    if !known(head, sender, survivors) {
        return Err(Refusal::UnknownMember);
    }
    if fits(head, attempt, elected, number, survivors) {
        Ok(())
    } else {
        Err(Refusal::NotOfAttempt)
    }
}

// A result that fits is entered.
fn result(
    head: Head,
    held: &mut [u32; Group::HELD],
    held_originators: &mut [u8; Group::HELD],
    held_lengths: &mut [u8; Group::HELD],
    held_payloads: &mut [u8; Group::HELD_BYTES],
    past: &[u32; Group::PLACES],
    past_originators: &[u8; Group::PLACES],
    past_lengths: &[u8; Group::PLACES],
    past_payloads: &[u8; Group::HISTORY_BYTES],
    highest: &[u32; Group::MEMBERS],
    replies: &mut [u32; Group::MEMBERS],
    taken: &mut [u32; Group::MEMBERS],
    counts: &mut [u32; Group::MEMBERS],
    repeats: &mut [u32; Group::MEMBERS],
    kept: &mut [u32; Group::PLACES],
    marks: &mut [u16; Group::PLACES],
    originators: &mut [u8; Group::PLACES],
    lengths: &mut [u8; Group::PLACES],
    payloads: &mut [u8; Group::HISTORY_BYTES],
    h: Header,
    payload: &[u8],
) -> Done
    requires { (flags_sound head ≡ true) × (head.member.group.n ≤ members_most) × (h.b < 256) × (survivors_size ≤ length payload.now) }
    ensures { Results head held.old held_originators.old held_lengths.old held_payloads.old past.now past_originators.now past_lengths.now past_payloads.now highest.now replies.old taken.old counts.old repeats.old kept.old marks.old originators.old lengths.old payloads.old h payload.now result held.new held_originators.new held_lengths.new held_payloads.new replies.new taken.new counts.new repeats.new kept.new marks.new originators.new lengths.new payloads.new }
{
    let sender = h.member;
    let elected = MemberNumber(h.b as u8);
    let number = SequenceNumber(h.c);
    let survivors = big_endian::u16_at(payload, 0);
    match ask_result(head, sender, h.a, elected, number, survivors) {
        Ok(()) => {
            let next = election::enter_on(
                head,
                held,
                held_originators,
                held_lengths,
                held_payloads,
                past,
                past_originators,
                past_lengths,
                past_payloads,
                highest,
                replies,
                taken,
                counts,
                repeats,
                kept,
                marks,
                originators,
                lengths,
                payloads,
                h.a,
                elected,
                number,
                survivors,
            );
            let reply = member::Reply {
                answer: member::Answer::Noted,
                written: 0,
            };
            Done { head: next, reply }
        }
        Err(q) => declined(head, q),
    }
}

// The work of the member's call for a packet of kind 9 to 11 that was read: question 1 of the whole terminal, 7, and those of its kind.
pub fn reset_on(
    head: Head,
    queued: &[u32; Group::WAITING],
    held: &mut [u32; Group::HELD],
    queued_originators: &[u8; Group::WAITING],
    queued_lengths: &[u8; Group::WAITING],
    held_originators: &mut [u8; Group::HELD],
    held_lengths: &mut [u8; Group::HELD],
    queued_payloads: &[u8; Group::WAITING_BYTES],
    held_payloads: &mut [u8; Group::HELD_BYTES],
    past: &[u32; Group::PLACES],
    past_originators: &[u8; Group::PLACES],
    past_lengths: &[u8; Group::PLACES],
    past_payloads: &[u8; Group::HISTORY_BYTES],
    highest: &[u32; Group::MEMBERS],
    replies: &mut [u32; Group::MEMBERS],
    taken: &mut [u32; Group::MEMBERS],
    counts: &mut [u32; Group::MEMBERS],
    repeats: &mut [u32; Group::MEMBERS],
    kept: &mut [u32; Group::PLACES],
    marks: &mut [u16; Group::PLACES],
    originators: &mut [u8; Group::PLACES],
    lengths: &mut [u8; Group::PLACES],
    payloads: &mut [u8; Group::HISTORY_BYTES],
    h: Header,
    payload: &[u8],
    out: &mut [u8],
) -> Done
    requires { (accept_kind < h.kind) × Named h × (reply_kind < h.kind → survivors_size ≤ length payload.now) × (longest_packet ≤ length out.old) }
    ensures { ResetReceived (whole head queued.now held.old queued_originators.now queued_lengths.now held_originators.old held_lengths.old queued_payloads.now held_payloads.old past.now past_originators.now past_lengths.now past_payloads.now highest.now replies.old taken.old counts.old repeats.old kept.old marks.old originators.old lengths.old payloads.old) h payload.now out.old result.reply (whole result.head queued.now held.new queued_originators.now queued_lengths.now held_originators.new held_lengths.new queued_payloads.now held_payloads.new past.now past_originators.now past_lengths.now past_payloads.now highest.now replies.new taken.new counts.new repeats.new kept.new marks.new originators.new lengths.new payloads.new) out.new }
{
    if terminal_sound(
        head,
        queued,
        held,
        queued_originators,
        queued_lengths,
        held_originators,
        held_lengths,
        queued_payloads,
        held_payloads,
        past,
        past_originators,
        past_lengths,
        past_payloads,
        highest,
        replies,
        taken,
        counts,
        repeats,
        kept,
        marks,
        originators,
        lengths,
        payloads,
    ) {
        if h.group == head.member.group.number {
            if Header::REPLY < h.kind {
                return result(
                    head,
                    held,
                    held_originators,
                    held_lengths,
                    held_payloads,
                    past,
                    past_originators,
                    past_lengths,
                    past_payloads,
                    highest,
                    replies,
                    taken,
                    counts,
                    repeats,
                    kept,
                    marks,
                    originators,
                    lengths,
                    payloads,
                    h,
                    payload,
                );
            }
            return answer(head, held, replies, h, out);
        }
        return declined(head, Refusal::OtherGroup);
    }
    declined(head, Refusal::UnsoundState)
}

// Questions 2, 27 and 26 of making.
#[tactic(auto, using(group::proofs::Choice::choices), unfolding(crate::specs::Steps::make_verdict))]
fn ask_making(head: Head, demand: u32, room: usize) -> Result<(), Refusal>
    ensures { result ≡ make_verdict head demand room }
{
    if room < Group::PACKET {
        return Err(Refusal::ShortOutput);
    }
    if head.inviting != 1 {
        return Err(Refusal::NotOfAttempt);
    }
    if head.repliers.count_ones() < demand {
        return Err(Refusal::FewSurvivors);
    }
    Ok(())
}

// Lays the result at the front of the output, and gives its length.
fn put_result(head: Head, elected: MemberNumber, number: SequenceNumber, out: &mut [u8]) -> usize
    requires { (is_in head.repliers head.member.number.0 ≡ true) × (is_in head.repliers elected.0 ≡ true) × (longest_packet ≤ length out.old) }
    ensures { Laid (packet_of (fields_of head.member.group.number (said.Packet.Result head.member.number head.invited elected number)) (bytes_of survivors_size head.repliers)) result out.old out.new }
{
    let sender = head.member.number;
    let packet = Packet::Result {
        sender,
        attempt: head.invited,
        elected,
        number,
    };
    let survivors = big_endian::u16_bytes(head.repliers);
    packet.put(head.member.group.number, &survivors, out)
}

// Making the group of all whose replies came: the initiator has the result.
fn make(
    head: Head,
    held: &mut [u32; Group::HELD],
    held_originators: &mut [u8; Group::HELD],
    held_lengths: &mut [u8; Group::HELD],
    held_payloads: &mut [u8; Group::HELD_BYTES],
    past: &[u32; Group::PLACES],
    past_originators: &[u8; Group::PLACES],
    past_lengths: &[u8; Group::PLACES],
    past_payloads: &[u8; Group::HISTORY_BYTES],
    highest: &[u32; Group::MEMBERS],
    replies: &mut [u32; Group::MEMBERS],
    taken: &mut [u32; Group::MEMBERS],
    counts: &mut [u32; Group::MEMBERS],
    repeats: &mut [u32; Group::MEMBERS],
    kept: &mut [u32; Group::PLACES],
    marks: &mut [u16; Group::PLACES],
    originators: &mut [u8; Group::PLACES],
    lengths: &mut [u8; Group::PLACES],
    payloads: &mut [u8; Group::HISTORY_BYTES],
    out: &mut [u8],
) -> Done
    requires { (flags_sound head ≡ true) × (head.member.number.0 < members_most) × (is_in head.repliers head.member.number.0 ≡ true) × (longest_packet ≤ length out.old) }
    ensures { Makes head held.old held_originators.old held_lengths.old held_payloads.old past.now past_originators.now past_lengths.now past_payloads.now highest.now replies.old taken.old counts.old repeats.old kept.old marks.old originators.old lengths.old payloads.old result held.new held_originators.new held_lengths.new held_payloads.new replies.new taken.new counts.new repeats.new kept.new marks.new originators.new lengths.new payloads.new out.old out.new }
{
    let number = recovery::highest_reply(head.repliers, replies);
    let elected = recovery::lowest_holder(head.repliers, number, replies);
    let written = put_result(head, elected, number, out);
    let next = election::enter_on(
        head,
        held,
        held_originators,
        held_lengths,
        held_payloads,
        past,
        past_originators,
        past_lengths,
        past_payloads,
        highest,
        replies,
        taken,
        counts,
        repeats,
        kept,
        marks,
        originators,
        lengths,
        payloads,
        head.invited,
        elected,
        number,
        head.repliers,
    );
    let reply = member::Reply {
        answer: member::Answer::Sent,
        written,
    };
    Done { head: next, reply }
}

// The work of making.
pub fn make_on(
    head: Head,
    queued: &[u32; Group::WAITING],
    held: &mut [u32; Group::HELD],
    queued_originators: &[u8; Group::WAITING],
    queued_lengths: &[u8; Group::WAITING],
    held_originators: &mut [u8; Group::HELD],
    held_lengths: &mut [u8; Group::HELD],
    queued_payloads: &[u8; Group::WAITING_BYTES],
    held_payloads: &mut [u8; Group::HELD_BYTES],
    past: &[u32; Group::PLACES],
    past_originators: &[u8; Group::PLACES],
    past_lengths: &[u8; Group::PLACES],
    past_payloads: &[u8; Group::HISTORY_BYTES],
    highest: &[u32; Group::MEMBERS],
    replies: &mut [u32; Group::MEMBERS],
    taken: &mut [u32; Group::MEMBERS],
    counts: &mut [u32; Group::MEMBERS],
    repeats: &mut [u32; Group::MEMBERS],
    kept: &mut [u32; Group::PLACES],
    marks: &mut [u16; Group::PLACES],
    originators: &mut [u8; Group::PLACES],
    lengths: &mut [u8; Group::PLACES],
    payloads: &mut [u8; Group::HISTORY_BYTES],
    demand: u32,
    out: &mut [u8],
) -> Done
    ensures { Made (whole head queued.now held.old queued_originators.now queued_lengths.now held_originators.old held_lengths.old queued_payloads.now held_payloads.old past.now past_originators.now past_lengths.now past_payloads.now highest.now replies.old taken.old counts.old repeats.old kept.old marks.old originators.old lengths.old payloads.old) demand out.old result.reply (whole result.head queued.now held.new queued_originators.now queued_lengths.now held_originators.new held_lengths.new queued_payloads.now held_payloads.new past.now past_originators.now past_lengths.now past_payloads.now highest.now replies.new taken.new counts.new repeats.new kept.new marks.new originators.new lengths.new payloads.new) out.new }
{
    if terminal_sound(
        head,
        queued,
        held,
        queued_originators,
        queued_lengths,
        held_originators,
        held_lengths,
        queued_payloads,
        held_payloads,
        past,
        past_originators,
        past_lengths,
        past_payloads,
        highest,
        replies,
        taken,
        counts,
        repeats,
        kept,
        marks,
        originators,
        lengths,
        payloads,
    ) {
        match ask_making(head, demand, out.len()) {
            Ok(()) => {
                return make(
                    head,
                    held,
                    held_originators,
                    held_lengths,
                    held_payloads,
                    past,
                    past_originators,
                    past_lengths,
                    past_payloads,
                    highest,
                    replies,
                    taken,
                    counts,
                    repeats,
                    kept,
                    marks,
                    originators,
                    lengths,
                    payloads,
                    out,
                );
            }
            Err(q) => {
                return declined(head, q);
            }
        }
    }
    declined(head, Refusal::UnsoundState)
}
