// The group that can be run: a sequencer, room for every member, and room for the packets of a schedule. Its numbers go by value, and
// every array behind a reference: those of the members one behind the other, so that a call is lent the arrays of one member.
#![tactic(auto)]

ghost use Rattle.std.specs.Prelude.{◌≡◌, [], ◌∷◌, ◌<◌, ◌≤◌, length, take};
ghost use Rattle.group.specs.Limits.{members_most, longest_packet};
ghost use Rattle.sequencer.specs.View as sequencerView;
ghost use Rattle.simulator.specs.Whole.{packets_most, rows_of, terminals_of, packets_of, whole_of, head_in, Opens};
ghost use Rattle.simulator.specs.Steps.{room_of, there_of, fitting_of, kept_size, happened_at, happened_here, handed_to, handed_here, Full, CallsMember, CallsAt, CallsSequencer, Stores, Acts, Sequences, BegunAt, Begun};

use group::{Group, MemberNumber, Refusal, SequenceNumber};
use model::Reply;

// The packets that a schedule has room for.
pub const PACKETS: usize = 200;

// The numbers of a member that are its own: what it took last, what it knows to be accepted, its submissions, and how many of them wait.
pub const NUMBERS: usize = 4;

// The numbers of the group: those of its sequencer, whose description is every member's, and how many packets were written.
#[derive(Clone, Copy, Debug, PartialEq, Eq)]
pub struct Head {
    pub sequencer: sequencer::Head,
    pub count: usize,
}

// The calls of a member; a submission and a packet come with bytes.
#[derive(Clone, Copy, Debug, PartialEq, Eq)]
pub enum MemberCall {
    Submit,
    Repeat,
    Take,
    Status,
    Receive,
}

// The calls of the sequencer; a packet comes with bytes.
#[derive(Clone, Copy, Debug, PartialEq, Eq)]
pub enum SequencerCall {
    Receive,
    Poll,
    Copy(SequenceNumber),
}

// What an event gives: the group's numbers after it, its answer, and how many bytes a call wrote to the front of the lent output.
#[derive(Clone, Copy)]
pub struct Happening {
    pub head: Head,
    pub reply: Reply,
    pub written: usize,
}

// What opening gives. Where it is refused, there is no member, and no call of the sequencer is accepted.
#[derive(Clone, Copy)]
pub struct Opened {
    pub head: Head,
    pub verdict: Result<(), Refusal>,
}

// The limit of specs/ is this constant.
fn packets_most() -> usize
    ensures { result ≡ packets_most }
{
    PACKETS
}

// Whether there is room for one packet more, and for every member.
#[tactic(auto, using(group::proofs::Choice::choices, group::proofs::Choice::tests), unfolding(crate::specs::Steps::room_of))]
pub fn has_room(count: usize, n: u8) -> bool
    ensures { result ≡ room_of count n }
{
    count < PACKETS && (n as usize) <= Group::MEMBERS
}

// Whether there is room, and a member or packet k: one below the limit.
#[tactic(auto, using(group::proofs::Choice::choices, group::proofs::Choice::tests), unfolding(crate::specs::Steps::there_of))]
pub fn is_there(count: usize, n: u8, k: usize, limit: usize) -> bool
    ensures { result ≡ there_of count n k limit }
{
    has_room(count, n) && k < limit
}

// How many bytes of a stored packet are read: its length, where its array has as many.
#[tactic(auto, using(group::proofs::Choice::choices), unfolding(crate::specs::Steps::fitting_of))]
pub fn fitting(size: usize) -> usize
    ensures { result ≡ fitting_of size }
{
    size.min(Group::PACKET)
}

// The length of the packet that a member's call wrote. A take writes a payload, and no packet.
#[tactic(auto, unfolding(crate::specs::Steps::kept_size))]
fn kept_size(call: MemberCall, written: usize) -> usize
    ensures { result ≡ kept_size call written }
{
    match call {
        MemberCall::Take => 0,
        _ => written,
    }
}

// The numbers of member i.
pub fn head_of(group: Group, i: usize, numbers: [u32; NUMBERS]) -> member::Head
    requires { i < members_most }
    ensures { result ≡ head_in group i numbers }
{
    member::Head {
        group,
        number: MemberNumber(i as u8),
        taken: SequenceNumber(numbers[0]),
        accepted: SequenceNumber(numbers[1]),
        submitted: numbers[2],
        waiting: numbers[3],
    }
}

// A call of the member whose arrays stand at i.
fn call_member(
    call: MemberCall,
    head: member::Head,
    queued: &mut [[u32; Group::WAITING]],
    held: &mut [[u32; Group::HELD]],
    queued_originators: &mut [[u8; Group::WAITING]],
    queued_lengths: &mut [[u8; Group::WAITING]],
    held_originators: &mut [[u8; Group::HELD]],
    held_lengths: &mut [[u8; Group::HELD]],
    queued_payloads: &mut [[u8; Group::WAITING_BYTES]],
    held_payloads: &mut [[u8; Group::HELD_BYTES]],
    i: usize,
    bytes: &[u8],
    out: &mut [u8],
) -> member::Done
    requires { (i < members_most) × Full (rows_of queued.old held.old queued_originators.old queued_lengths.old held_originators.old held_lengths.old queued_payloads.old held_payloads.old) }
    ensures { CallsMember call i bytes.now head (rows_of queued.old held.old queued_originators.old queued_lengths.old held_originators.old held_lengths.old queued_payloads.old held_payloads.old) result (rows_of queued.new held.new queued_originators.new queued_lengths.new held_originators.new held_lengths.new queued_payloads.new held_payloads.new) out.old out.new }
{
    match call {
        MemberCall::Submit => member_calls::submit_on(
            head,
            &mut queued[i],
            &mut held[i],
            &mut queued_originators[i],
            &mut queued_lengths[i],
            &mut held_originators[i],
            &mut held_lengths[i],
            &mut queued_payloads[i],
            &mut held_payloads[i],
            bytes,
            out,
        ),
        MemberCall::Repeat => {
            let reply = member_calls::repeat_on(
                head,
                &queued[i],
                &held[i],
                &queued_originators[i],
                &queued_lengths[i],
                &held_originators[i],
                &held_lengths[i],
                &queued_payloads[i],
                &held_payloads[i],
                out,
            );
            member::Done { head, reply }
        }
        MemberCall::Take => member_calls::take_on(
            head,
            &mut queued[i],
            &mut held[i],
            &mut queued_originators[i],
            &mut queued_lengths[i],
            &mut held_originators[i],
            &mut held_lengths[i],
            &mut queued_payloads[i],
            &mut held_payloads[i],
            out,
        ),
        MemberCall::Status => {
            let reply = member_calls::status_on(
                head,
                &queued[i],
                &held[i],
                &queued_originators[i],
                &queued_lengths[i],
                &held_originators[i],
                &held_lengths[i],
                &queued_payloads[i],
                &held_payloads[i],
                out,
            );
            member::Done { head, reply }
        }
        MemberCall::Receive => member_calls::receive_on(
            head,
            &mut queued[i],
            &mut held[i],
            &mut queued_originators[i],
            &mut queued_lengths[i],
            &mut held_originators[i],
            &mut held_lengths[i],
            &mut queued_payloads[i],
            &mut held_payloads[i],
            bytes,
            out,
        ),
    }
}

// The same of member i of the group.
fn call_at(
    call: MemberCall,
    group: Group,
    numbers: &mut [[u32; NUMBERS]],
    queued: &mut [[u32; Group::WAITING]],
    held: &mut [[u32; Group::HELD]],
    queued_originators: &mut [[u8; Group::WAITING]],
    queued_lengths: &mut [[u8; Group::WAITING]],
    held_originators: &mut [[u8; Group::HELD]],
    held_lengths: &mut [[u8; Group::HELD]],
    queued_payloads: &mut [[u8; Group::WAITING_BYTES]],
    held_payloads: &mut [[u8; Group::HELD_BYTES]],
    i: usize,
    bytes: &[u8],
    out: &mut [u8],
) -> member::Reply
    requires { (i < members_most) × (length numbers.old ≡ members_most) × Full (rows_of queued.old held.old queued_originators.old queued_lengths.old held_originators.old held_lengths.old queued_payloads.old held_payloads.old) }
    ensures { CallsAt call i bytes.now (terminals_of group numbers.old (rows_of queued.old held.old queued_originators.old queued_lengths.old held_originators.old held_lengths.old queued_payloads.old held_payloads.old)) result (terminals_of group numbers.new (rows_of queued.new held.new queued_originators.new queued_lengths.new held_originators.new held_lengths.new queued_payloads.new held_payloads.new)) out.old out.new }
{
    let head = head_of(group, i, numbers[i]);
    let done = call_member(
        call,
        head,
        queued,
        held,
        queued_originators,
        queued_lengths,
        held_originators,
        held_lengths,
        queued_payloads,
        held_payloads,
        i,
        bytes,
        out,
    );
    let next = done.head;
    numbers[i] = [next.taken.0, next.accepted.0, next.submitted, next.waiting];
    done.reply
}

// Stores the packet that was written behind the others, if there is one, and gives how many there are.
pub fn store(
    sizes: &mut [usize],
    packets: &mut [[u8; Group::PACKET]],
    count: usize,
    size: usize,
    bytes: [u8; Group::PACKET],
) -> usize
    requires { (count < packets_most) × (length sizes.old ≡ packets_most) × (length packets.old ≡ packets_most) }
    ensures { Stores (packets_of sizes.old packets.old count) size bytes (packets_of sizes.new packets.new result) }
{
    sizes[count] = size;
    packets[count] = bytes;
    if size == 0 { count } else { count + 1 }
}

// An event of member i: a call, if there is room and such a member.
pub fn act(
    call: MemberCall,
    head: Head,
    numbers: &mut [[u32; NUMBERS]; Group::MEMBERS],
    queued: &mut [[u32; Group::WAITING]; Group::MEMBERS],
    held: &mut [[u32; Group::HELD]; Group::MEMBERS],
    queued_originators: &mut [[u8; Group::WAITING]; Group::MEMBERS],
    queued_lengths: &mut [[u8; Group::WAITING]; Group::MEMBERS],
    held_originators: &mut [[u8; Group::HELD]; Group::MEMBERS],
    held_lengths: &mut [[u8; Group::HELD]; Group::MEMBERS],
    queued_payloads: &mut [[u8; Group::WAITING_BYTES]; Group::MEMBERS],
    held_payloads: &mut [[u8; Group::HELD_BYTES]; Group::MEMBERS],
    sizes: &mut [usize; PACKETS],
    packets: &mut [[u8; Group::PACKET]; PACKETS],
    i: usize,
    bytes: &[u8],
    out: &mut [u8; Group::PACKET],
) -> Happening
    ensures { Acts (happened_at call i bytes.now) head (terminals_of head.sequencer.group numbers.old (rows_of queued.old held.old queued_originators.old queued_lengths.old held_originators.old held_lengths.old queued_payloads.old held_payloads.old)) (packets_of sizes.old packets.old head.count) result (terminals_of head.sequencer.group numbers.new (rows_of queued.new held.new queued_originators.new queued_lengths.new held_originators.new held_lengths.new queued_payloads.new held_payloads.new)) (packets_of sizes.new packets.new result.head.count) out.old out.new }
{
    let group = head.sequencer.group;
    if is_there(head.count, group.n, i, group.n as usize) {
        let told = call_at(
            call,
            group,
            numbers,
            queued,
            held,
            queued_originators,
            queued_lengths,
            held_originators,
            held_lengths,
            queued_payloads,
            held_payloads,
            i,
            bytes,
            out,
        );
        let size = kept_size(call, told.written);
        let count = store(sizes, packets, head.count, size, *out);
        return Happening {
            head: Head { count, ..head },
            reply: Reply::Member(told.answer),
            written: told.written,
        };
    }
    Happening {
        head,
        reply: Reply::Absent,
        written: 0,
    }
}

// A packet, the first `size` bytes, is handed to member i.
fn deliver(
    head: Head,
    numbers: &mut [[u32; NUMBERS]; Group::MEMBERS],
    queued: &mut [[u32; Group::WAITING]; Group::MEMBERS],
    held: &mut [[u32; Group::HELD]; Group::MEMBERS],
    queued_originators: &mut [[u8; Group::WAITING]; Group::MEMBERS],
    queued_lengths: &mut [[u8; Group::WAITING]; Group::MEMBERS],
    held_originators: &mut [[u8; Group::HELD]; Group::MEMBERS],
    held_lengths: &mut [[u8; Group::HELD]; Group::MEMBERS],
    queued_payloads: &mut [[u8; Group::WAITING_BYTES]; Group::MEMBERS],
    held_payloads: &mut [[u8; Group::HELD_BYTES]; Group::MEMBERS],
    sizes: &mut [usize; PACKETS],
    packets: &mut [[u8; Group::PACKET]; PACKETS],
    packet: [u8; Group::PACKET],
    size: usize,
    i: usize,
    out: &mut [u8; Group::PACKET],
) -> Happening
    ensures { Acts (happened_at MemberCall.Receive i (take size packet)) head (terminals_of head.sequencer.group numbers.old (rows_of queued.old held.old queued_originators.old queued_lengths.old held_originators.old held_lengths.old queued_payloads.old held_payloads.old)) (packets_of sizes.old packets.old head.count) result (terminals_of head.sequencer.group numbers.new (rows_of queued.new held.new queued_originators.new queued_lengths.new held_originators.new held_lengths.new queued_payloads.new held_payloads.new)) (packets_of sizes.new packets.new result.head.count) out.old out.new }
{
    let size = fitting(size);
    act(
        MemberCall::Receive,
        head,
        numbers,
        queued,
        held,
        queued_originators,
        queued_lengths,
        held_originators,
        held_lengths,
        queued_payloads,
        held_payloads,
        sizes,
        packets,
        i,
        &packet[..size],
        out,
    )
}

// Packet k is handed to member i.
pub fn hand_member(
    head: Head,
    numbers: &mut [[u32; NUMBERS]; Group::MEMBERS],
    queued: &mut [[u32; Group::WAITING]; Group::MEMBERS],
    held: &mut [[u32; Group::HELD]; Group::MEMBERS],
    queued_originators: &mut [[u8; Group::WAITING]; Group::MEMBERS],
    queued_lengths: &mut [[u8; Group::WAITING]; Group::MEMBERS],
    held_originators: &mut [[u8; Group::HELD]; Group::MEMBERS],
    held_lengths: &mut [[u8; Group::HELD]; Group::MEMBERS],
    queued_payloads: &mut [[u8; Group::WAITING_BYTES]; Group::MEMBERS],
    held_payloads: &mut [[u8; Group::HELD_BYTES]; Group::MEMBERS],
    sizes: &mut [usize; PACKETS],
    packets: &mut [[u8; Group::PACKET]; PACKETS],
    k: usize,
    i: usize,
    out: &mut [u8; Group::PACKET],
) -> Happening
    ensures { Acts (handed_to k i) head (terminals_of head.sequencer.group numbers.old (rows_of queued.old held.old queued_originators.old queued_lengths.old held_originators.old held_lengths.old queued_payloads.old held_payloads.old)) (packets_of sizes.old packets.old head.count) result (terminals_of head.sequencer.group numbers.new (rows_of queued.new held.new queued_originators.new queued_lengths.new held_originators.new held_lengths.new queued_payloads.new held_payloads.new)) (packets_of sizes.new packets.new result.head.count) out.old out.new }
{
    if is_there(head.count, head.sequencer.group.n, k, head.count) {
        let packet = packets[k];
        let size = sizes[k];
        return deliver(
            head,
            numbers,
            queued,
            held,
            queued_originators,
            queued_lengths,
            held_originators,
            held_lengths,
            queued_payloads,
            held_payloads,
            sizes,
            packets,
            packet,
            size,
            i,
            out,
        );
    }
    Happening {
        head,
        reply: Reply::Absent,
        written: 0,
    }
}

// A call of the sequencer.
fn call_sequencer(
    call: SequencerCall,
    head: sequencer::Head,
    taken: &mut [u32; Group::MEMBERS],
    counts: &mut [u32; Group::MEMBERS],
    repeats: &mut [u32; Group::MEMBERS],
    kept: &mut [u32; Group::PLACES],
    marks: &mut [u16; Group::PLACES],
    originators: &mut [u8; Group::PLACES],
    lengths: &mut [u8; Group::PLACES],
    payloads: &mut [u8; Group::HISTORY_BYTES],
    bytes: &[u8],
    out: &mut [u8],
) -> sequencer::Step
    ensures { CallsSequencer call bytes.now (sequencerView.whole head taken.old counts.old repeats.old kept.old marks.old originators.old lengths.old payloads.old) result.reply (sequencerView.whole result.head taken.new counts.new repeats.new kept.new marks.new originators.new lengths.new payloads.new) out.old out.new }
{
    match call {
        SequencerCall::Receive => sequencer_calls::receive_on(
            head,
            taken,
            counts,
            repeats,
            kept,
            marks,
            originators,
            lengths,
            payloads,
            bytes,
            out,
        ),
        SequencerCall::Poll => {
            let reply = sequencer_calls::poll_on(
                head,
                taken,
                counts,
                repeats,
                kept,
                marks,
                originators,
                lengths,
                payloads,
                out,
            );
            sequencer::Step { head, reply }
        }
        SequencerCall::Copy(number) => {
            let reply = sequencer_calls::copy_on(
                head,
                taken,
                counts,
                repeats,
                kept,
                marks,
                originators,
                lengths,
                payloads,
                number,
                out,
            );
            sequencer::Step { head, reply }
        }
    }
}

// An event of the sequencer: a call, if there is room.
pub fn sequence(
    call: SequencerCall,
    head: Head,
    taken: &mut [u32; Group::MEMBERS],
    counts: &mut [u32; Group::MEMBERS],
    repeats: &mut [u32; Group::MEMBERS],
    kept: &mut [u32; Group::PLACES],
    marks: &mut [u16; Group::PLACES],
    originators: &mut [u8; Group::PLACES],
    lengths: &mut [u8; Group::PLACES],
    payloads: &mut [u8; Group::HISTORY_BYTES],
    sizes: &mut [usize; PACKETS],
    packets: &mut [[u8; Group::PACKET]; PACKETS],
    bytes: &[u8],
    out: &mut [u8; Group::PACKET],
) -> Happening
    ensures { Sequences (happened_here call bytes.now) head (sequencerView.whole head.sequencer taken.old counts.old repeats.old kept.old marks.old originators.old lengths.old payloads.old) (packets_of sizes.old packets.old head.count) result (sequencerView.whole result.head.sequencer taken.new counts.new repeats.new kept.new marks.new originators.new lengths.new payloads.new) (packets_of sizes.new packets.new result.head.count) out.old out.new }
{
    let mine = head.sequencer;
    if has_room(head.count, mine.group.n) {
        let step = call_sequencer(
            call,
            mine,
            taken,
            counts,
            repeats,
            kept,
            marks,
            originators,
            lengths,
            payloads,
            bytes,
            out,
        );
        let told = step.reply;
        let count = store(sizes, packets, head.count, told.written, *out);
        return Happening {
            head: Head {
                sequencer: step.head,
                count,
            },
            reply: Reply::Sequencer(told.answer),
            written: told.written,
        };
    }
    Happening {
        head,
        reply: Reply::Absent,
        written: 0,
    }
}

// A packet, the first `size` bytes, is handed to the sequencer.
fn submit(
    head: Head,
    taken: &mut [u32; Group::MEMBERS],
    counts: &mut [u32; Group::MEMBERS],
    repeats: &mut [u32; Group::MEMBERS],
    kept: &mut [u32; Group::PLACES],
    marks: &mut [u16; Group::PLACES],
    originators: &mut [u8; Group::PLACES],
    lengths: &mut [u8; Group::PLACES],
    payloads: &mut [u8; Group::HISTORY_BYTES],
    sizes: &mut [usize; PACKETS],
    packets: &mut [[u8; Group::PACKET]; PACKETS],
    packet: [u8; Group::PACKET],
    size: usize,
    out: &mut [u8; Group::PACKET],
) -> Happening
    ensures { Sequences (happened_here SequencerCall.Receive (take size packet)) head (sequencerView.whole head.sequencer taken.old counts.old repeats.old kept.old marks.old originators.old lengths.old payloads.old) (packets_of sizes.old packets.old head.count) result (sequencerView.whole result.head.sequencer taken.new counts.new repeats.new kept.new marks.new originators.new lengths.new payloads.new) (packets_of sizes.new packets.new result.head.count) out.old out.new }
{
    let size = fitting(size);
    sequence(
        SequencerCall::Receive,
        head,
        taken,
        counts,
        repeats,
        kept,
        marks,
        originators,
        lengths,
        payloads,
        sizes,
        packets,
        &packet[..size],
        out,
    )
}

// Packet k is handed to the sequencer.
pub fn hand_sequencer(
    head: Head,
    taken: &mut [u32; Group::MEMBERS],
    counts: &mut [u32; Group::MEMBERS],
    repeats: &mut [u32; Group::MEMBERS],
    kept: &mut [u32; Group::PLACES],
    marks: &mut [u16; Group::PLACES],
    originators: &mut [u8; Group::PLACES],
    lengths: &mut [u8; Group::PLACES],
    payloads: &mut [u8; Group::HISTORY_BYTES],
    sizes: &mut [usize; PACKETS],
    packets: &mut [[u8; Group::PACKET]; PACKETS],
    k: usize,
    out: &mut [u8; Group::PACKET],
) -> Happening
    ensures { Sequences (handed_here k) head (sequencerView.whole head.sequencer taken.old counts.old repeats.old kept.old marks.old originators.old lengths.old payloads.old) (packets_of sizes.old packets.old head.count) result (sequencerView.whole result.head.sequencer taken.new counts.new repeats.new kept.new marks.new originators.new lengths.new payloads.new) (packets_of sizes.new packets.new result.head.count) out.old out.new }
{
    if is_there(head.count, head.sequencer.group.n, k, head.count) {
        let packet = packets[k];
        let size = sizes[k];
        return submit(
            head,
            taken,
            counts,
            repeats,
            kept,
            marks,
            originators,
            lengths,
            payloads,
            sizes,
            packets,
            packet,
            size,
            out,
        );
    }
    Happening {
        head,
        reply: Reply::Absent,
        written: 0,
    }
}

// Opens member i; one that the group does not have is as fresh.
fn open_member(
    group: Group,
    n: u8,
    number: u32,
    resilience: u8,
    numbers: &mut [[u32; NUMBERS]],
    queued: &mut [[u32; Group::WAITING]],
    held: &mut [[u32; Group::HELD]],
    queued_originators: &mut [[u8; Group::WAITING]],
    queued_lengths: &mut [[u8; Group::WAITING]],
    held_originators: &mut [[u8; Group::HELD]],
    held_lengths: &mut [[u8; Group::HELD]],
    queued_payloads: &mut [[u8; Group::WAITING_BYTES]],
    held_payloads: &mut [[u8; Group::HELD_BYTES]],
    i: usize,
)
    requires { (i < members_most) × (length numbers.old ≡ members_most) × Full (rows_of queued.old held.old queued_originators.old queued_lengths.old held_originators.old held_lengths.old queued_payloads.old held_payloads.old) }
    ensures { BegunAt i (terminals_of group numbers.old (rows_of queued.old held.old queued_originators.old queued_lengths.old held_originators.old held_lengths.old queued_payloads.old held_payloads.old)) (terminals_of group numbers.new (rows_of queued.new held.new queued_originators.new queued_lengths.new held_originators.new held_lengths.new queued_payloads.new held_payloads.new)) }
{
    let head = head_of(group, i, [0u32; NUMBERS]);
    let begun = member_calls::open_on(
        head,
        &mut queued[i],
        &mut held[i],
        &mut queued_originators[i],
        &mut queued_lengths[i],
        &mut held_originators[i],
        &mut held_lengths[i],
        &mut queued_payloads[i],
        &mut held_payloads[i],
        n,
        MemberNumber(i as u8),
        number,
        resilience,
    );
    let next = begun.head;
    numbers[i] = [next.taken.0, next.accepted.0, next.submitted, next.waiting];
}

// Opens every member.
fn open_members(
    group: Group,
    n: u8,
    number: u32,
    resilience: u8,
    numbers: &mut [[u32; NUMBERS]; Group::MEMBERS],
    queued: &mut [[u32; Group::WAITING]; Group::MEMBERS],
    held: &mut [[u32; Group::HELD]; Group::MEMBERS],
    queued_originators: &mut [[u8; Group::WAITING]; Group::MEMBERS],
    queued_lengths: &mut [[u8; Group::WAITING]; Group::MEMBERS],
    held_originators: &mut [[u8; Group::HELD]; Group::MEMBERS],
    held_lengths: &mut [[u8; Group::HELD]; Group::MEMBERS],
    queued_payloads: &mut [[u8; Group::WAITING_BYTES]; Group::MEMBERS],
    held_payloads: &mut [[u8; Group::HELD_BYTES]; Group::MEMBERS],
)
    ensures { Begun (terminals_of group numbers.new (rows_of queued.new held.new queued_originators.new queued_lengths.new held_originators.new held_lengths.new queued_payloads.new held_payloads.new)) members_most }
{
    for i in 0..Group::MEMBERS {
        open_member(
            group,
            n,
            number,
            resilience,
            numbers,
            queued,
            held,
            queued_originators,
            queued_lengths,
            held_originators,
            held_lengths,
            queued_payloads,
            held_payloads,
            i,
        );
    }
}

// Opens a group: questions 18 and 24.
pub fn open(
    head: Head,
    taken: &mut [u32; Group::MEMBERS],
    counts: &mut [u32; Group::MEMBERS],
    repeats: &mut [u32; Group::MEMBERS],
    kept: &mut [u32; Group::PLACES],
    marks: &mut [u16; Group::PLACES],
    originators: &mut [u8; Group::PLACES],
    lengths: &mut [u8; Group::PLACES],
    payloads: &mut [u8; Group::HISTORY_BYTES],
    numbers: &mut [[u32; NUMBERS]; Group::MEMBERS],
    queued: &mut [[u32; Group::WAITING]; Group::MEMBERS],
    held: &mut [[u32; Group::HELD]; Group::MEMBERS],
    queued_originators: &mut [[u8; Group::WAITING]; Group::MEMBERS],
    queued_lengths: &mut [[u8; Group::WAITING]; Group::MEMBERS],
    held_originators: &mut [[u8; Group::HELD]; Group::MEMBERS],
    held_lengths: &mut [[u8; Group::HELD]; Group::MEMBERS],
    queued_payloads: &mut [[u8; Group::WAITING_BYTES]; Group::MEMBERS],
    held_payloads: &mut [[u8; Group::HELD_BYTES]; Group::MEMBERS],
    sizes: &mut [usize; PACKETS],
    packets: &mut [[u8; Group::PACKET]; PACKETS],
    n: u8,
    number: u32,
    resilience: u8,
) -> Opened
    ensures { Opens n number resilience result.verdict result.head (whole_of result.head taken.new counts.new repeats.new kept.new marks.new originators.new lengths.new payloads.new numbers.new queued.new held.new queued_originators.new queued_lengths.new held_originators.new held_lengths.new queued_payloads.new held_payloads.new sizes.new packets.new) }
{
    let start = sequencer_calls::open_on(
        head.sequencer,
        taken,
        counts,
        repeats,
        kept,
        marks,
        originators,
        lengths,
        payloads,
        n,
        number,
        resilience,
    );
    let sequencer = start.head;
    open_members(
        sequencer.group,
        n,
        number,
        resilience,
        numbers,
        queued,
        held,
        queued_originators,
        queued_lengths,
        held_originators,
        held_lengths,
        queued_payloads,
        held_payloads,
    );
    Opened {
        head: Head {
            sequencer,
            count: 0,
        },
        verdict: start.verdict,
    }
}
