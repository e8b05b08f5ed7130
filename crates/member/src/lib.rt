// The member: it submits messages, holds what comes until it can be taken in order, and acknowledges what it has. Here are its head, its answers
// and the steps of its calls, which are lent its state in parts: the numbers of its head by value, and arrays.
#![tactic(auto)]

ghost use Rattle.std.specs.Prelude.{◌≡◌, [], ◌+◌, ◌-◌, ◌*◌, ◌≤◌, ◌<◌, length, take, get_or};
ghost use Rattle.group.specs.Question.{all_yes};
ghost use Rattle.group.specs.Lent.{Laid};
ghost use Rattle.group.specs.Limits.{held_most, waiting_most, payload_most, longest_packet, largest_number};
ghost use Rattle.packet.specs.Packet.{fields_verdict, fields_of, packet_of};
ghost use Rattle.store.specs.Places.{part_of, messages_in};
ghost use Rattle.window.specs.Places.{place_of, queue_place, smaller_of};
ghost use Rattle.member.specs.Sound.{sound_of};
ghost use Rattle.member.specs.Calls.{answered, call_verdict, submit_verdict, gap_up_to, kept_of, message_step, broadcast_of, confirms, offer_of, poll_of};
ghost use Rattle.member.specs.View.{Sized, whole, view_of};
ghost use Rattle.member.specs.Promise.{Ended};
ghost use Rattle.member.specs.Steps.{empty_handed, accepting, confirms_by, request_in, Tells, Hears, Submits, Hands};

use group::{Group, MemberNumber, Refusal, SequenceNumber};
use packet::Packet;

// The numbers of a member: they go by value.
#[repr(C)]
#[derive(Clone, Copy, Debug, PartialEq, Eq)]
pub struct Head {
    pub group: Group,
    pub number: MemberNumber,
    pub taken: SequenceNumber,
    pub accepted: SequenceNumber,
    pub submitted: u32,
    pub waiting: u32,
}

// What a call answers. What a take hands out goes with its payload, which lies at the front of the lent output.
#[derive(Clone, Copy, Debug, PartialEq, Eq)]
pub enum Answer {
    Refused(Refusal),
    Sent,
    Queued(u32),
    Old,
    Kept,
    KeptGap,
    Beyond,
    BeyondGap,
    Gap,
    Status,
    None,
    Noted,
    Took {
        number: SequenceNumber,
        originator: MemberNumber,
        count: u32,
        more: bool,
    },
}

// What a call says: its answer, and how many bytes it wrote to the front of the lent output.
#[derive(Clone, Copy, Debug, PartialEq, Eq)]
pub struct Reply {
    pub answer: Answer,
    pub written: usize,
}

// What the work of a call gives back: the next head, and what the caller is told.
#[derive(Clone, Copy, Debug, PartialEq, Eq)]
pub struct Done {
    pub head: Head,
    pub reply: Reply,
}

// What the work of opening gives back.
#[derive(Clone, Copy, Debug, PartialEq, Eq)]
pub struct Begun {
    pub head: Head,
    pub verdict: Result<(), Refusal>,
}

// Lays a packet without payload at the front of the output, and gives its length.
#[tactic(auto, using(packet::proofs::Permitted::laid_whole))]
fn put_bare(packet: Packet, group: u32, out: &mut [u8]) -> usize
    requires { (fields_verdict (fields_of group packet) 0 [] ≡ all_yes) × (longest_packet ≤ length out.old) }
    ensures { Laid (packet_of (fields_of group packet) []) result out.old out.new }
{
    packet.put(group, &[], out)
}

// Question 1.
#[tactic(auto, using(group::proofs::Choice::choices), unfolding(crate::specs::Sound::sound_of, crate::specs::View::view_of))]
pub fn sound(
    head: Head,
    queued: &[u32],
    held: &[u32],
    queued_originators: &[u8],
    queued_lengths: &[u8],
    held_originators: &[u8],
    held_lengths: &[u8],
    queued_payloads: &[u8],
    held_payloads: &[u8],
) -> bool
    requires { Sized (whole head queued.now held.now queued_originators.now queued_lengths.now held_originators.now held_lengths.now queued_payloads.now held_payloads.now) }
    ensures { result ≡ sound_of (view_of (whole head queued.now held.now queued_originators.now queued_lengths.now held_originators.now held_lengths.now queued_payloads.now held_payloads.now)) }
{
    let mask = store::mask();
    window::frame_sound(head.group, head.number, head.taken, head.accepted)
        && window::waiting_sound(
            head.number,
            head.submitted,
            head.waiting,
            queued,
            queued_originators,
            queued_lengths,
            queued_payloads,
            &mask,
        )
        && window::held_sound(
            head.group.n,
            head.taken,
            held,
            held_originators,
            held_lengths,
            held_payloads,
            &mask,
        )
}

// Questions 1 and 2, of every call.
#[tactic(auto, using(group::proofs::Choice::choices), unfolding(crate::specs::Calls::call_verdict))]
pub fn ask(
    head: Head,
    queued: &[u32],
    held: &[u32],
    queued_originators: &[u8],
    queued_lengths: &[u8],
    held_originators: &[u8],
    held_lengths: &[u8],
    queued_payloads: &[u8],
    held_payloads: &[u8],
    room: usize,
) -> Result<(), Refusal>
    requires { Sized (whole head queued.now held.now queued_originators.now queued_lengths.now held_originators.now held_lengths.now queued_payloads.now held_payloads.now) }
    ensures { result ≡ call_verdict (view_of (whole head queued.now held.now queued_originators.now queued_lengths.now held_originators.now held_lengths.now queued_payloads.now held_payloads.now)) room }
{
    if !sound(
        head,
        queued,
        held,
        queued_originators,
        queued_lengths,
        held_originators,
        held_lengths,
        queued_payloads,
        held_payloads,
    ) {
        return Err(Refusal::UnsoundState);
    }
    if room < Group::PACKET {
        return Err(Refusal::ShortOutput);
    }
    Ok(())
}

// Questions 13, 14 and 16 of a submission of `size` bytes.
#[tactic(auto, using(group::proofs::Choice::choices), unfolding(crate::specs::Calls::submit_verdict))]
pub fn ask_submission(head: Head, size: usize) -> Result<(), Refusal>
    ensures { result ≡ submit_verdict (empty_handed head) size }
{
    if Group::PAYLOAD < size {
        return Err(Refusal::LongPayload);
    }
    if Group::WAITING <= (head.waiting as usize) {
        return Err(Refusal::AlreadyWaiting);
    }
    if Group::LARGEST <= head.submitted {
        return Err(Refusal::NumbersUsedUp);
    }
    Ok(())
}

// Lays a request with a payload at the front of the output, and gives its length. It acknowledges the accepted of the row.
#[tactic(auto, using(group::proofs::Choice::choices, packet::proofs::Permitted::request_fields, packet::proofs::Permitted::laid_whole, crate::proofs::View::requested))]
fn put_request(
    head: Head,
    held: &[u32; Group::HELD],
    count: u32,
    payload: &[u8],
    out: &mut [u8],
) -> usize
    requires { (1 ≤ count) × (length payload.now ≤ payload_most) × (longest_packet ≤ length out.old) }
    ensures { Laid (request_in head held.now count payload.now) result out.old out.new }
{
    let end = window::row_end(held, head.taken);
    let packet = Packet::Request {
        sender: head.number,
        taken: window::earlier(end, head.accepted),
        count,
    };
    packet.put(head.group.number, payload, out)
}

// Lays the request of the first message that waits at the front of the output, and gives its length.
pub fn put_first(
    head: Head,
    held: &[u32; Group::HELD],
    lengths: &[u8],
    payloads: &[u8],
    out: &mut [u8],
) -> usize
    requires { (1 ≤ head.waiting) × (head.waiting ≤ head.submitted) × (length lengths.now ≡ waiting_most) × (get_or lengths.now (queue_place (head.submitted - head.waiting + 1)) 0 ≤ payload_most) × (length payloads.now ≡ waiting_most * payload_most) × (longest_packet ≤ length out.old) }
    ensures { Laid (request_in head held.now (head.submitted - head.waiting + 1) (take (get_or lengths.now (queue_place (head.submitted - head.waiting + 1)) 0) (part_of payloads.now (queue_place (head.submitted - head.waiting + 1))))) result out.old out.new }
{
    let count = head.submitted - head.waiting + 1;
    let at = window::queue_place(count as usize);
    let base = at * Group::PAYLOAD;
    let end = base + (lengths[at] as usize);
    put_request(head, held, count, &payloads[base..end], out)
}

// Lays a status packet at the front of the output, and gives its length. It acknowledges the accepted of the row that ends there.
#[tactic(auto, using(group::proofs::Choice::choices, packet::proofs::Permitted::status_fields, crate::proofs::View::status_laid))]
pub fn put_status(head: Head, end: SequenceNumber, out: &mut [u8]) -> usize
    requires { longest_packet ≤ length out.old }
    ensures { Laid (packet_of (fields_of head.group.number (Packet.Status head.number (record { 0 = smaller_of end.0 head.accepted.0 }))) []) result out.old out.new }
{
    let packet = Packet::Status {
        sender: head.number,
        taken: window::earlier(end, head.accepted),
    };
    put_bare(packet, head.group.number, out)
}

// Lays a gap packet from the number behind the row's end up to `last` at the front of the output, and gives its length.
#[tactic(auto, using(group::proofs::Choice::choices, packet::proofs::Permitted::gap_fields, crate::proofs::View::gap_laid, window::proofs::Row::smaller_le))]
fn put_gap(head: Head, end: SequenceNumber, last: SequenceNumber, out: &mut [u8]) -> usize
    requires { (end.0 < last.0) × (longest_packet ≤ length out.old) }
    ensures { Laid (packet_of (fields_of head.group.number (Packet.Gap head.number (record { 0 = smaller_of end.0 head.accepted.0 }) (record { 0 = end.0 + 1 }) last)) []) result out.old out.new }
{
    let packet = Packet::Gap {
        sender: head.number,
        taken: window::earlier(end, head.accepted),
        first: SequenceNumber(end.0 + 1),
        last,
    };
    put_bare(packet, head.group.number, out)
}

// Lays the confirmation of an offered number at the front of the output, and gives its length.
#[tactic(auto, using(packet::proofs::Permitted::confirm_fields))]
fn put_confirm(head: Head, number: SequenceNumber, out: &mut [u8]) -> usize
    requires { (1 ≤ number.0) × (longest_packet ≤ length out.old) }
    ensures { Laid (packet_of (fields_of head.group.number (Packet.Confirm head.number number)) []) result out.old out.new }
{
    let packet = Packet::Confirm {
        sender: head.number,
        number,
    };
    put_bare(packet, head.group.number, out)
}

// Where a number up to `last` is missing: the answer with a gap packet; else the other, alone.
fn gap_up_to(
    head: Head,
    held: &[u32; Group::HELD],
    last: SequenceNumber,
    gapped: Answer,
    whole: Answer,
    out: &mut [u8],
) -> Reply
    requires { (last.0 ≤ head.taken.0 + held_most) × (longest_packet ≤ length out.old) }
    ensures { Tells head held.now (λ m. gap_up_to m last.0 gapped (answered m whole)) result out.old out.new }
{
    let end = window::row_end(held, head.taken);
    if last <= end {
        return Reply {
            answer: whole,
            written: 0,
        };
    }
    let written = put_gap(head, end, last, out);
    Reply {
        answer: gapped,
        written,
    }
}

// A poll: what is missing up to its top, or the status where nothing is.
pub fn poll(head: Head, held: &[u32; Group::HELD], top: SequenceNumber, out: &mut [u8]) -> Reply
    requires { longest_packet ≤ length out.old }
    ensures { Tells head held.now (λ m. poll_of m top) result out.old out.new }
{
    let last = window::reach(top, head.taken);
    let end = window::row_end(held, head.taken);
    if last <= end {
        let written = put_status(head, end, out);
        return Reply {
            answer: Answer::Status,
            written,
        };
    }
    let written = put_gap(head, end, last, out);
    Reply {
        answer: Answer::Gap,
        written,
    }
}

// A number that is neither taken nor held, and for which there is a place: it is kept.
fn kept(
    head: Head,
    held: &mut [u32; Group::HELD],
    held_originators: &mut [u8; Group::HELD],
    held_lengths: &mut [u8; Group::HELD],
    held_payloads: &mut [u8; Group::HELD_BYTES],
    originator: MemberNumber,
    number: SequenceNumber,
    count: u32,
    payload: &[u8],
    out: &mut [u8],
) -> Reply
    requires { (head.taken.0 < number.0) × (number.0 ≤ head.taken.0 + held_most) × (length payload.now ≤ payload_most) × (longest_packet ≤ length out.old) }
    ensures { Hears head (messages_in held.old held_originators.old held_lengths.old held_payloads.old) head (messages_in held.new held_originators.new held_lengths.new held_payloads.new) (λ m. kept_of m originator number.0 count payload.now) result out.old out.new }
{
    let at = window::place(number, 0);
    window::keep(
        held,
        held_originators,
        held_lengths,
        held_payloads,
        at,
        originator,
        count,
        payload,
    );
    let last = SequenceNumber(number.0 - 1);
    gap_up_to(head, held, last, Answer::KeptGap, Answer::Kept, out)
}

// The message of a broadcast or of an offer. Its floor is read and not yet acted on.
fn message_step(
    head: Head,
    held: &mut [u32; Group::HELD],
    held_originators: &mut [u8; Group::HELD],
    held_lengths: &mut [u8; Group::HELD],
    held_payloads: &mut [u8; Group::HELD_BYTES],
    originator: MemberNumber,
    number: SequenceNumber,
    count: u32,
    payload: &[u8],
    out: &mut [u8],
) -> Reply
    requires { (length payload.now ≤ payload_most) × (longest_packet ≤ length out.old) }
    ensures { Hears head (messages_in held.old held_originators.old held_lengths.old held_payloads.old) head (messages_in held.new held_originators.new held_lengths.new held_payloads.new) (λ m. message_step m originator number.0 count payload.now) result out.old out.new }
{
    if number <= head.taken {
        return Reply {
            answer: Answer::Old,
            written: 0,
        };
    }
    if (head.taken.0 as usize) + Group::HELD < (number.0 as usize) {
        let last = SequenceNumber(head.taken.0 + (Group::HELD as u32));
        return gap_up_to(head, held, last, Answer::BeyondGap, Answer::Beyond, out);
    }
    if held[window::place(number, 0)] != 0 {
        return Reply {
            answer: Answer::Old,
            written: 0,
        };
    }
    kept(
        head,
        held,
        held_originators,
        held_lengths,
        held_payloads,
        originator,
        number,
        count,
        payload,
        out,
    )
}

// All up to a number are accepted.
fn accept_up_to(head: Head, number: SequenceNumber) -> Head
    ensures { result ≡ accepting head number.0 }
{
    Head {
        accepted: window::later(head.accepted, number),
        ..head
    }
}

// A broadcast: it accepts all up to its number, also where a gap packet is written.
pub fn broadcast(
    head: Head,
    held: &mut [u32; Group::HELD],
    held_originators: &mut [u8; Group::HELD],
    held_lengths: &mut [u8; Group::HELD],
    held_payloads: &mut [u8; Group::HELD_BYTES],
    originator: MemberNumber,
    number: SequenceNumber,
    count: u32,
    payload: &[u8],
    out: &mut [u8],
) -> Done
    requires { (length payload.now ≤ payload_most) × (longest_packet ≤ length out.old) }
    ensures { Hears head (messages_in held.old held_originators.old held_lengths.old held_payloads.old) result.head (messages_in held.new held_originators.new held_lengths.new held_payloads.new) (λ m. broadcast_of m originator number.0 count payload.now) result.reply out.old out.new }
{
    let head = accept_up_to(head, number);
    let reply = message_step(
        head,
        held,
        held_originators,
        held_lengths,
        held_payloads,
        originator,
        number,
        count,
        payload,
        out,
    );
    Done { head, reply }
}

// Whether an offer with that answer is confirmed, if nothing is missing: the message is held, or was taken.
#[tactic(auto, unfolding(crate::specs::Calls::confirms))]
fn has(answer: Answer) -> bool
    ensures { result ≡ confirms answer }
{
    matches!(answer, Answer::Old | Answer::Kept)
}

// Whether an offer with that answer is confirmed: nothing up to its number is missing, and the member is expected to confirm.
#[tactic(auto, using(group::proofs::Choice::choices), unfolding(crate::specs::Steps::confirms_by, window::specs::Steps::first_uncounted))]
fn confirmed(head: Head, held: &[u32; Group::HELD], number: SequenceNumber, answer: Answer) -> bool
    ensures { result ≡ confirms_by head held.now number.0 answer }
{
    has(answer)
        && window::lowest_missing(held, head.taken, number).is_none()
        && head.group.expects(head.number)
}

// An offer: it accepts nothing.
pub fn offer(
    head: Head,
    held: &mut [u32; Group::HELD],
    held_originators: &mut [u8; Group::HELD],
    held_lengths: &mut [u8; Group::HELD],
    held_payloads: &mut [u8; Group::HELD_BYTES],
    originator: MemberNumber,
    number: SequenceNumber,
    count: u32,
    payload: &[u8],
    out: &mut [u8],
) -> Reply
    requires { (1 ≤ number.0) × (length payload.now ≤ payload_most) × (longest_packet ≤ length out.old) }
    ensures { Hears head (messages_in held.old held_originators.old held_lengths.old held_payloads.old) head (messages_in held.new held_originators.new held_lengths.new held_payloads.new) (λ m. offer_of m originator number.0 count payload.now) result out.old out.new }
{
    let reply = message_step(
        head,
        held,
        held_originators,
        held_lengths,
        held_payloads,
        originator,
        number,
        count,
        payload,
        out,
    );
    if confirmed(head, held, number, reply.answer) {
        let written = put_confirm(head, number, out);
        return Reply { written, ..reply };
    }
    reply
}

// An acceptance.
pub fn noted(head: Head, number: SequenceNumber) -> Done
    ensures { result ≡ record { head = accepting head number.0; reply = record { answer = Answer.Noted; written = 0 } } }
{
    Done {
        head: accept_up_to(head, number),
        reply: Reply {
            answer: Answer::Noted,
            written: 0,
        },
    }
}

// A submission that no question refuses: its request is written, or, behind one that waits, nothing.
pub fn submitted(
    mut head: Head,
    held: &[u32; Group::HELD],
    queued: &mut [u32; Group::WAITING],
    queued_originators: &mut [u8; Group::WAITING],
    queued_lengths: &mut [u8; Group::WAITING],
    queued_payloads: &mut [u8; Group::WAITING_BYTES],
    payload: &[u8],
    out: &mut [u8],
) -> Done
    requires { (length payload.now ≤ payload_most) × (head.waiting < waiting_most) × (head.submitted < largest_number) × (longest_packet ≤ length out.old) }
    ensures { Submits head held.now (messages_in queued.old queued_originators.old queued_lengths.old queued_payloads.old) (messages_in queued.new queued_originators.new queued_lengths.new queued_payloads.new) payload.now result out.old out.new }
{
    let count = head.submitted + 1;
    let place = window::queue_place(count as usize);
    window::keep(
        queued,
        queued_originators,
        queued_lengths,
        queued_payloads,
        place,
        head.number,
        count,
        payload,
    );
    head.submitted = count;
    if head.waiting == 0 {
        head.waiting = 1;
        let written = put_request(head, held, count, payload, out);
        let answer = Answer::Sent;
        let reply = Reply { answer, written };
        return Done { head, reply };
    }
    head.waiting += 1;
    let answer = Answer::Queued(count);
    let reply = Reply { answer, written: 0 };
    Done { head, reply }
}

// The following number is handed out: its payload goes to the front of the output, its place is made empty, and if it is the member's
// own that waits first, the next is first.
#[tactic(auto, using(group::proofs::Choice::says))]
pub fn hand_out(
    mut head: Head,
    queued: &mut [u32; Group::WAITING],
    queued_originators: &mut [u8; Group::WAITING],
    queued_lengths: &mut [u8; Group::WAITING],
    queued_payloads: &mut [u8; Group::WAITING_BYTES],
    held: &mut [u32; Group::HELD],
    held_originators: &mut [u8; Group::HELD],
    held_lengths: &mut [u8; Group::HELD],
    held_payloads: &mut [u8; Group::HELD_BYTES],
    out: &mut [u8],
) -> Done
    requires { (get_or held_lengths.old (place_of (head.taken.0 + 1)) 0 ≤ payload_most) × (head.taken.0 < largest_number) × (head.waiting ≤ head.submitted) × (longest_packet ≤ length out.old) }
    ensures { Hands head (messages_in queued.old queued_originators.old queued_lengths.old queued_payloads.old) (messages_in held.old held_originators.old held_lengths.old held_payloads.old) result.head (messages_in queued.new queued_originators.new queued_lengths.new queued_payloads.new) (messages_in held.new held_originators.new held_lengths.new held_payloads.new) result.reply out.old out.new }
{
    let at = window::place(head.taken, 1);
    let next = window::place(head.taken, 2);
    let number = SequenceNumber(head.taken.0 + 1);
    let more = window::ready(held[next], number, head.accepted);
    let count = held[at];
    let originator = MemberNumber(held_originators[at]);
    let written = window::put_payload(held_payloads, at, held_lengths[at], out);
    window::clear(held, held_originators, held_lengths, held_payloads, at);
    let answer = Answer::Took {
        number,
        originator,
        count,
        more,
    };
    let reply = Reply { answer, written };
    head.taken = number;
    if window::own(head.number, head.submitted, head.waiting, originator, count) {
        let first = window::queue_place(count as usize);
        window::clear(
            queued,
            queued_originators,
            queued_lengths,
            queued_payloads,
            first,
        );
        head.waiting -= 1;
    }
    Done { head, reply }
}

// The head of a member that has taken and submitted nothing.
pub fn idle(group: Group, number: MemberNumber) -> Head
    ensures { result ≡ record { group = group; number = number; taken = record { 0 = 0 }; accepted = record { 0 = 0 }; submitted = 0; waiting = 0 } }
{
    Head {
        group,
        number,
        taken: SequenceNumber(0),
        accepted: SequenceNumber(0),
        submitted: 0,
        waiting: 0,
    }
}

// The last number through which the member has everything, taken or held, offered messages included.
pub fn row_end_on(
    head: Head,
    queued: &[u32; Group::WAITING],
    held: &[u32; Group::HELD],
    queued_originators: &[u8; Group::WAITING],
    queued_lengths: &[u8; Group::WAITING],
    held_originators: &[u8; Group::HELD],
    held_lengths: &[u8; Group::HELD],
    queued_payloads: &[u8; Group::WAITING_BYTES],
    held_payloads: &[u8; Group::HELD_BYTES],
) -> SequenceNumber
    ensures { Ended (whole head queued.now held.now queued_originators.now queued_lengths.now held_originators.now held_lengths.now queued_payloads.now held_payloads.now) result }
{
    window::row_end(held, head.taken)
}
