// Plays the schedule on standard input, and prints what each event answers.
#![tactic(auto)]

use descriptor::{Sink, Source};

fn main(rt: HostRuntime) {
    let mut input = rt.stdin();
    let mut output = rt.stdout();
    stream::play(Source::of(&mut input), Sink::to(&mut output));
}
