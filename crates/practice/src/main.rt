// Plays a short day in a lit book and one in a dark book, and then some edges of the calls, straight on the book, and
// prints for each call its reply and its fills.
#![tactic(auto)]

mod days;
mod playing;

use playing::Setting;
use priority::ranking::{PriceBrokerSizeTime, PriceBrokerTime};
use terms::dark::Dark;
use terms::lit::Lit;

// A lit book at a last sale of 240, where large orders have priority.
const LIT: Setting<PriceBrokerSizeTime, Lit> = Setting {
    priority: PriceBrokerSizeTime,
    terms: Lit,
    last: 240,
};

// A dark book at a last sale of 4040.
const DARK: Setting<PriceBrokerTime, Dark> = Setting {
    priority: PriceBrokerTime,
    terms: Dark,
    last: 4_040,
};

// A lit book at a last sale from which large orders have no priority.
const DEAR: Setting<PriceBrokerTime, Lit> = Setting {
    priority: PriceBrokerTime,
    terms: Lit,
    last: 4_000,
};

fn play_days(rt: &HostRuntime) -> anyhow::Result<()> {
    LIT.play_titled(
        rt,
        "A day in a lit book, last sale 240, ranked by price, broker, large size and time",
        8,
        &days::lit(),
    )?;
    DARK.play_titled(
        rt,
        "A day in a dark book, last sale 4040, ranked by price, broker and time",
        8,
        &days::dark(),
    )
}

fn play_ranks(rt: &HostRuntime) -> anyhow::Result<()> {
    LIT.play_titled(rt, "A bid of 30000 is large", 4, &days::three_bids(30_000))?;
    LIT.play_titled(rt, "A bid of 29999 is not", 4, &days::three_bids(29_999))?;
    LIT.play_titled(
        rt,
        "A bid of 25000 that is amended to 30000 stands behind two larger ones",
        5,
        &days::amended_bid(30_000),
    )?;
    LIT.play_titled(
        rt,
        "Amended to 55000 it stands before both",
        5,
        &days::amended_bid(55_000),
    )?;
    LIT.play_titled(rt, "A full book", 3, &days::full())?;
    DARK.play_titled(
        rt,
        "The size test after a cut and a raise",
        4,
        &days::sizes(),
    )
}

fn play_edges(rt: &HostRuntime) -> anyhow::Result<()> {
    LIT.play_titled(rt, "Refusals in their sequence", 3, &days::refusals())?;
    LIT.play_titled(rt, "The last stamp", 3, &days::last_stamp())?;
    DEAR.play_titled(rt, "Rows that others wrote", 4, &days::foreign())?;
    let never_sold = Setting { last: 0, ..DEAR };
    never_sold.play_titled(rt, "A last sale of 0, and no places", 4, &days::sizes())?;
    DEAR.play(rt, 0, &days::sizes())
}

fn run(rt: &HostRuntime) -> anyhow::Result<()> {
    play_days(rt)?;
    play_ranks(rt)?;
    play_edges(rt)
}

fn main(rt: HostRuntime) -> anyhow::Result<()> {
    run(&rt)
}
