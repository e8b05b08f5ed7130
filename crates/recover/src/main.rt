// Plays the schedule with resets on standard input, and prints what each event answers and what each terminal comes to.
#![tactic(auto)]

use descriptor::{Sink, Source};

fn main(rt: HostRuntime) {
    let mut input = rt.stdin();
    let mut output = rt.stdout();
    reset_stream::recover(Source::of(&mut input), Sink::to(&mut output));
}
