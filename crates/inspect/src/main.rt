// Plays the schedule on standard input, and prints what is left at the end.
#![tactic(auto)]

use descriptor::{Sink, Source};

fn main(rt: HostRuntime) {
    let mut input = rt.stdin();
    let mut output = rt.stdout();
    stream::inspect(Source::of(&mut input), Sink::to(&mut output));
}
