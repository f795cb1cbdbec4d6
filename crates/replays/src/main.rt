// Replays a day in a dark book and one in a lit book, and prints them from beginning to end for a person: each call, its
// reply, its fills, and the book after it.
#![tactic(auto)]

mod days;
mod keeping;
mod printer;
mod words;

use day::item::Item;
use day::keeper::Keeper;
use day::replay::replay;
use keeping::keep_dark_day;
use orders::call::Fill;
use orders::refusal::Refusal;
use orders::row::Row;
use printer::{Printer, print_refusal};
use priority::priority::Priority;
use priority::ranking::{PriceBrokerSizeTime, PriceBrokerTime};
use terms::dark::Dark;
use terms::lit::Lit;
use terms::terms::Terms;

fn print_opening(rt: &HostRuntime, opened: Result<(), Refusal>) -> anyhow::Result<()> {
    match opened {
        Ok(()) => Ok(()),
        Err(refusal) => print_refusal(rt, refusal),
    }
}

// A book that days are replayed in, and how it is told of.
#[derive(Clone, Copy)]
struct Setting<P, T> {
    book: &'static str,
    ranking: &'static str,
    priority: P,
    terms: T,
}

const DARK: Setting<PriceBrokerTime, Dark> = Setting {
    book: "dark",
    ranking: "price, broker and time",
    priority: PriceBrokerTime,
    terms: Dark,
};

const LIT: Setting<PriceBrokerSizeTime, Lit> = Setting {
    book: "lit",
    ranking: "price, broker, large size and time",
    priority: PriceBrokerSizeTime,
    terms: Lit,
};

impl<P: Priority + Drop, T: Terms + Drop> Setting<P, T> {
    // Replays a day in a book of six places, and prints it.
    fn replay(self, rt: &HostRuntime, last: u32, items: &[Item]) -> anyhow::Result<()> {
        let Setting {
            book,
            ranking,
            priority,
            terms,
        } = self;
        println!(rt; "A {book} book, last sale {last}, ranked by {ranking}")?;
        let mut places = [Row::cleared(); 6];
        let mut fills = [Fill::BLANK; 6];
        let mut printer = Printer::new(rt.clone()?);
        let opened = replay(
            priority,
            terms,
            last,
            &mut places,
            &mut fills,
            items,
            &mut printer,
        );
        printer.outcome()?;
        print_opening(rt, opened)
    }
}

fn keep_dark(rt: &HostRuntime, last: u32, items: &[Item]) -> anyhow::Result<()> {
    let mut places = [Row::cleared(); 6];
    let mut fills = [Fill::BLANK; 6];
    let mut keeper = Keeper::new(rt.alloc());
    let opened = keep_dark_day(last, &mut places, &mut fills, items, &mut keeper);
    print_opening(rt, opened)?;
    let steps = keeper.into_steps()?;
    let count = steps.len();
    println!(rt; "The dark day once more, kept: {count} calls")?;
    Ok(())
}

fn run(rt: &HostRuntime) -> anyhow::Result<()> {
    let dark = days::dark();
    DARK.replay(rt, 4_040, &dark)?;
    LIT.replay(rt, 240, &days::lit())?;
    LIT.replay(rt, 0, &days::lit())?;
    keep_dark(rt, 4_040, &dark)
}

fn main(rt: HostRuntime) -> anyhow::Result<()> {
    run(&rt)
}
