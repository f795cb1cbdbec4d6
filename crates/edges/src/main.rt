// The edges of session text: plays each text of a table and prints whether its listing is the expected one, byte for byte.
// The expected listings were worked out by hand from the rules.
#![tactic(auto)]

mod bytes;
mod faults;
mod lengths;
mod numbers;
mod trying;

use trying::play_all;

fn run(rt: &HostRuntime) -> anyhow::Result<()> {
    play_all(rt, &bytes::lines())?;
    play_all(rt, &bytes::spaces())?;
    play_all(rt, &bytes::other_bytes())?;
    play_all(rt, &numbers::forms())?;
    play_all(rt, &numbers::ranges())?;
    play_all(rt, &faults::missing())?;
    play_all(rt, &faults::extra())?;
    play_all(rt, &faults::marks())?;
    play_all(rt, &faults::capitals())?;
    play_all(rt, &faults::openings())?;
    lengths::play_lines(rt)?;
    lengths::play_texts(rt)
}

fn main(rt: HostRuntime) -> anyhow::Result<()> {
    run(&rt)
}
