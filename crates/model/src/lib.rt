// The whole group: a sequencer, its members, the packets written so far, and the events that happen to them.
#![tactic(auto)]

ghost use Rattle.std.specs.Prelude.{◌≡◌};

// What an event is answered: it names a packet or member that is not there, or an end's answer.
#[derive(Clone, Copy)]
pub enum Reply {
    Absent,
    Sequencer(sequencer::Answer),
    Member(member::Answer),
}
