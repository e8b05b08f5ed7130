// A terminal beside its member: its work list, which is fed what the member takes.
#![tactic(auto)]

ghost use Rattle.std.specs.Prelude.{◌≡◌};
ghost use Rattle.member.specs.Order.{took_by};
ghost use Rattle.packet.specs.Packet.{read_of, payload_at};
ghost use Rattle.terminal.specs.Left.{is_message, is_next, heard_of, fresh_left};
ghost use Rattle.terminal.specs.Take.{feeding_of};
ghost use Rattle.terminal.specs.Wording.{fed_wording};

use group::{Group, Refusal, SequenceNumber};
use jobs::Job;
use packet::Header;

// A list that is fed the messages that a group's packets broadcast, and the number that comes next.
#[derive(Clone, Copy)]
pub struct Left {
    pub jobs: [Job; Group::JOBS],
    pub next: usize,
}

// A list that was fed, and what it answers: nothing where the take handed out no message.
#[derive(Clone, Copy)]
pub struct Feeding {
    pub jobs: [Job; Group::JOBS],
    pub fed: Option<Result<jobs::Answer, Refusal>>,
}

// Feeds a list what a take's answer and the bytes that it wrote hand out, once the take is done. The take stands, whatever the list
// answers.
pub fn feed(mut jobs: [Job; Group::JOBS], answer: member::Answer, bytes: &[u8]) -> Feeding
    ensures answer { result ≡ feeding_of jobs (took_by answer bytes.now) }
    ensures wording { fed_wording result.fed ≡ fed_wording (feeding_of jobs (took_by answer bytes.now)).fed }
{
    let member::Answer::Took { originator, .. } = answer else {
        return Feeding { jobs, fed: None };
    };
    let fed = Some(jobs::feed(&mut jobs, originator, bytes));
    Feeding { jobs, fed }
}

// Whether the fields are those of a message, broadcast or offered.
fn is_message(h: Header) -> bool
    ensures { result ≡ is_message h }
{
    h.kind == Header::BROADCAST || h.kind == Header::OFFER
}

// Whether the fields are those of the message of the number that comes next, and it was taken.
fn is_next(taken: SequenceNumber, number: usize, h: Header) -> bool
    ensures { result ≡ is_next taken.0 number h }
{
    is_message(h) && h.a as usize == number && number <= taken.0 as usize
}

impl Left {
    // Before the first packet: the list is empty.
    pub fn fresh() -> Self
        ensures { result ≡ fresh_left }
    {
        Left {
            jobs: jobs::no_jobs(),
            next: 1,
        }
    }

    // A packet that was written; `taken` is the last number that the terminal took.
    pub fn hear(mut self, taken: SequenceNumber, packet: &[u8]) -> Self
        ensures { result ≡ heard_of taken.0 self (read_of packet.now) (payload_at packet.now) }
    {
        if let Ok(h) = packet::read(packet) {
            if is_next(taken, self.next, h) {
                let end = Group::HEADER + packet::payload_length(packet);
                let _ = jobs::feed(&mut self.jobs, h.member, &packet[Group::HEADER..end]);
                self.next += 1;
            }
        }
        self
    }
}
