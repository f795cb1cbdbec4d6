// Plays sample sessions and prints of each its name and its listing.
#![tactic(auto)]

mod each_at_touch;
mod improving;
mod large_bids;
mod limits;
mod minimums;
mod pegs;
mod sample;
mod seeking;
mod sum_at_touch;

use sample::Sample;
use std::io;

fn play_each(rt: &HostRuntime, samples: &[Sample]) -> io::Result<()> {
    for sample in samples {
        sample.play(rt)?;
    }
    Ok(())
}

fn run(rt: &HostRuntime) -> io::Result<()> {
    play_each(rt, &large_bids::SAMPLES)?;
    play_each(rt, &improving::SAMPLES)?;
    play_each(rt, &pegs::SAMPLES)?;
    play_each(rt, &minimums::SAMPLES)?;
    play_each(rt, &each_at_touch::SAMPLES)?;
    play_each(rt, &sum_at_touch::SAMPLES)?;
    play_each(rt, &seeking::SAMPLES)?;
    play_each(rt, &limits::SAMPLES)
}

fn main(rt: HostRuntime) -> io::Result<()> {
    run(&rt)
}
