// Both ends as structs that lie where their owner put them: each method lends the end's work the head's numbers and all arrays, and stores the
// head that comes back.
#![tactic(auto)]

ghost use Rattle.std.specs.Prelude.{◌≡◌};
ghost use Rattle.group.specs.Opening.{description_of};
ghost use Rattle.member.specs.State.{fresh_member};
ghost use Rattle.sequencer.specs.State.{fresh_sequencer};
ghost use Rattle.states.specs.Member as memberInPlace;
ghost use Rattle.states.specs.Sequencer as sequencerInPlace;

use group::{Group, MemberNumber, Refusal, SequenceNumber};

// A sequencer: its numbers; of each member the last number that it is known to have taken, its last count that was numbered, and how
// often it repeated itself; of each place of the history its message's count (0: none), who confirmed it, originator, length and
// payload.
#[repr(C)]
#[derive(Clone, Copy, Debug, PartialEq, Eq)]
pub struct Sequencer {
    pub head: sequencer::Head,
    pub taken: [u32; Group::MEMBERS],
    pub counts: [u32; Group::MEMBERS],
    pub repeats: [u32; Group::MEMBERS],
    pub kept: [u32; Group::PLACES],
    pub marks: [u16; Group::PLACES],
    pub originators: [u8; Group::PLACES],
    pub lengths: [u8; Group::PLACES],
    pub payloads: [u8; Group::HISTORY_BYTES],
}

// A member: its numbers; of each place of its waiting messages and of each that is held its count, 0 for none, its originator, its
// length and its payload.
#[repr(C)]
#[derive(Clone, Copy, Debug, PartialEq, Eq)]
pub struct Member {
    pub head: member::Head,
    pub queued: [u32; Group::WAITING],
    pub held: [u32; Group::HELD],
    pub queued_originators: [u8; Group::WAITING],
    pub queued_lengths: [u8; Group::WAITING],
    pub held_originators: [u8; Group::HELD],
    pub held_lengths: [u8; Group::HELD],
    pub queued_payloads: [u8; Group::WAITING_BYTES],
    pub held_payloads: [u8; Group::HELD_BYTES],
}

impl Sequencer {
    // All zero: what a caller has before it opens a group. No call accepts it.
    pub fn closed() -> Self
        ensures { sequencerInPlace.view_of result ≡ fresh_sequencer (description_of 0 0 0) }
    {
        Sequencer {
            head: sequencer::fresh_head(Group::default()),
            taken: [0; Group::MEMBERS],
            counts: [0; Group::MEMBERS],
            repeats: [0; Group::MEMBERS],
            kept: [0; Group::PLACES],
            marks: [0; Group::PLACES],
            originators: [0; Group::PLACES],
            lengths: [0; Group::PLACES],
            payloads: [0; Group::HISTORY_BYTES],
        }
    }

    // Opening: questions 18 and 24. The state is fresh; where opening is refused, it is all zero, and no call accepts it.
    pub fn open(&mut self, n: u8, group: u32, resilience: u8) -> Result<(), Refusal>
        ensures { sequencerInPlace.Opens self.old n group resilience result self.new }
    {
        let start = sequencer_calls::open_on(
            self.head,
            &mut self.taken,
            &mut self.counts,
            &mut self.repeats,
            &mut self.kept,
            &mut self.marks,
            &mut self.originators,
            &mut self.lengths,
            &mut self.payloads,
            n,
            group,
            resilience,
        );
        self.head = start.head;
        start.verdict
    }

    // The call for packets.
    pub fn receive(&mut self, packet: &[u8], out: &mut [u8]) -> sequencer::Reply
        ensures { sequencerInPlace.Received self.old packet.now out.old result self.new out.new }
    {
        let step = sequencer_calls::receive_on(
            self.head,
            &mut self.taken,
            &mut self.counts,
            &mut self.repeats,
            &mut self.kept,
            &mut self.marks,
            &mut self.originators,
            &mut self.lengths,
            &mut self.payloads,
            packet,
            out,
        );
        self.head = step.head;
        step.reply
    }

    // The poll call: the poll packet.
    pub fn poll(&self, out: &mut [u8]) -> sequencer::Reply
        ensures { sequencerInPlace.Polled self.now out.old result out.new }
    {
        sequencer_calls::poll_on(
            self.head,
            &self.taken,
            &self.counts,
            &self.repeats,
            &self.kept,
            &self.marks,
            &self.originators,
            &self.lengths,
            &self.payloads,
            out,
        )
    }

    // The copy call for a number: its packet, with today's floor.
    pub fn copy(&self, number: SequenceNumber, out: &mut [u8]) -> sequencer::Reply
        ensures { sequencerInPlace.Copied self.now number out.old result out.new }
    {
        sequencer_calls::copy_on(
            self.head,
            &self.taken,
            &self.counts,
            &self.repeats,
            &self.kept,
            &self.marks,
            &self.originators,
            &self.lengths,
            &self.payloads,
            number,
            out,
        )
    }
}

// Stores the head that comes back, a field at a time: the bytes between the fields, which C lends with them, stay as they were.
fn put_head(head: &mut member::Head, next: member::Head)
    ensures { head.new ≡ next }
{
    head.group.n = next.group.n;
    head.group.resilience = next.group.resilience;
    head.group.survivors = next.group.survivors;
    head.group.elected = next.group.elected;
    head.group.number = next.group.number;
    head.number = next.number;
    head.taken = next.taken;
    head.accepted = next.accepted;
    head.submitted = next.submitted;
    head.waiting = next.waiting;
}

impl Member {
    // The member that is not opened, all zero: no call accepts it.
    pub fn closed() -> Self
        ensures { memberInPlace.view_of result ≡ fresh_member (description_of 0 0 0) (record { 0 = 0 }) }
    {
        Member {
            head: member::idle(Group::default(), MemberNumber::default()),
            queued: [0; Group::WAITING],
            held: [0; Group::HELD],
            queued_originators: [0; Group::WAITING],
            queued_lengths: [0; Group::WAITING],
            held_originators: [0; Group::HELD],
            held_lengths: [0; Group::HELD],
            queued_payloads: [0; Group::WAITING_BYTES],
            held_payloads: [0; Group::HELD_BYTES],
        }
    }

    // Opens a member: questions 18 and 24. Where it is refused, the state is all zero.
    pub fn open(
        &mut self,
        n: u8,
        number: MemberNumber,
        group: u32,
        resilience: u8,
    ) -> Result<(), Refusal>
        ensures { memberInPlace.Begins self.old n number group resilience result self.new }
    {
        let done = member_calls::open_on(
            self.head,
            &mut self.queued,
            &mut self.held,
            &mut self.queued_originators,
            &mut self.queued_lengths,
            &mut self.held_originators,
            &mut self.held_lengths,
            &mut self.queued_payloads,
            &mut self.held_payloads,
            n,
            number,
            group,
            resilience,
        );
        self.head = done.head;
        done.verdict
    }

    // Submits a message: its request is written, or, behind one that waits, nothing.
    pub fn submit(&mut self, payload: &[u8], out: &mut [u8]) -> member::Reply
        ensures { memberInPlace.Submitted self.old payload.now out.old result self.new out.new }
    {
        let done = member_calls::submit_on(
            self.head,
            &mut self.queued,
            &mut self.held,
            &mut self.queued_originators,
            &mut self.queued_lengths,
            &mut self.held_originators,
            &mut self.held_lengths,
            &mut self.queued_payloads,
            &mut self.held_payloads,
            payload,
            out,
        );
        put_head(&mut self.head, done.head);
        done.reply
    }

    // The call for packets.
    pub fn receive(&mut self, packet: &[u8], out: &mut [u8]) -> member::Reply
        ensures { memberInPlace.Received self.old packet.now out.old result self.new out.new }
    {
        let done = member_calls::receive_on(
            self.head,
            &mut self.queued,
            &mut self.held,
            &mut self.queued_originators,
            &mut self.queued_lengths,
            &mut self.held_originators,
            &mut self.held_lengths,
            &mut self.queued_payloads,
            &mut self.held_payloads,
            packet,
            out,
        );
        put_head(&mut self.head, done.head);
        done.reply
    }

    // Hands out the following number, if it is held and accepted: its place is cleared, and if it is the member's own that waits first, the
    // next is first.
    pub fn take(&mut self, out: &mut [u8]) -> member::Reply
        ensures { memberInPlace.Taken self.old out.old result self.new out.new }
    {
        let done = member_calls::take_on(
            self.head,
            &mut self.queued,
            &mut self.held,
            &mut self.queued_originators,
            &mut self.queued_lengths,
            &mut self.held_originators,
            &mut self.held_lengths,
            &mut self.queued_payloads,
            &mut self.held_payloads,
            out,
        );
        put_head(&mut self.head, done.head);
        done.reply
    }

    // Writes the request of the first message that waits again, with what is acknowledged by then.
    pub fn repeat(&self, out: &mut [u8]) -> member::Reply
        ensures { memberInPlace.Repeated self.now out.old result out.new }
    {
        member_calls::repeat_on(
            self.head,
            &self.queued,
            &self.held,
            &self.queued_originators,
            &self.queued_lengths,
            &self.held_originators,
            &self.held_lengths,
            &self.queued_payloads,
            &self.held_payloads,
            out,
        )
    }

    // Writes a status packet.
    pub fn status(&self, out: &mut [u8]) -> member::Reply
        ensures { memberInPlace.Reported self.now out.old result out.new }
    {
        member_calls::status_on(
            self.head,
            &self.queued,
            &self.held,
            &self.queued_originators,
            &self.queued_lengths,
            &self.held_originators,
            &self.held_lengths,
            &self.queued_payloads,
            &self.held_payloads,
            out,
        )
    }

    // The last number through which the member has everything, taken or held, offered messages included.
    pub fn row_end(&self) -> SequenceNumber
        ensures { memberInPlace.Ended self.now result }
    {
        member::row_end_on(
            self.head,
            &self.queued,
            &self.held,
            &self.queued_originators,
            &self.queued_lengths,
            &self.held_originators,
            &self.held_lengths,
            &self.queued_payloads,
            &self.held_payloads,
        )
    }
}
