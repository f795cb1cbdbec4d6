// An active order's trades, and the sweep.
ghost use Rattle.std.specs.Prelude.{◌≡◌, ◌+◌, ◌-◌, ◌<◌, false, ◌||◌, length, IfSome};
ghost use Rattle.matching.specs.Market.{market_of};
ghost use Rattle.matching.specs.Runs.{meeting, touches, run, written};
ghost use Rattle.matching.specs.Sweeps.{pair_at, oldest, sweep};

use crate::matcher::Matcher;
use crate::meeting::{Meeting, Pair};
use orders::call::Fill;
use orders::row::Row;
use priority::priority::Priority;
use terms::terms::Terms;

// What a run made of the active order: the count of its fills, and its row.
#[derive(Clone, Copy)]
pub struct Run {
    pub count: usize,
    pub active: Row,
}

impl<P: Priority, T: Terms> Matcher<P, T> {
    // The next trade of an active order. What is carried from trade to trade, that it has traded at the touch, is no part of the
    // order. Each function that finds a place says that the list has it: such a place is of one list, so no type can say it.
    fn meeting(&self, touched: bool, active: &Row, places: &[Row]) -> Option<Meeting>
        ensures value { result ≡ meeting (market_of T.deals P.before self.now) touched active.now places.now }
        ensures within { IfSome result (λ t. t.found.place < length places.now) }
    {
        let active = active.order()?;
        let found = self.first(&active, places)?;
        if self.stops(touched, &active, places, found.candidate.price) {
            return None;
        }
        Some(Meeting { active, found })
    }

    // Whether the active order has traded at the touch, with one trade more.
    fn touched_by(&self, touched: bool, meeting: &Meeting) -> bool
        ensures { result ≡ (touched || touches (market_of T.deals P.before self.now) meeting.now) }
    {
        touched || self.is_touch(&meeting.active, meeting.found.candidate.price)
    }

    // Lets an active order trade, with at most as many fills as the list has entries.
    pub fn run(&self, active: &Row, places: &mut [Row], fills: &mut [Fill]) -> Run
        ensures count { result.count ≡ length (run (market_of T.deals P.before self.now) (length fills.old) false active.now places.old).fills }
        ensures active { result.active ≡ (run (market_of T.deals P.before self.now) (length fills.old) false active.now places.old).active }
        ensures places { places.new ≡ (run (market_of T.deals P.before self.now) (length fills.old) false active.now places.old).rows }
        ensures fills { fills.new ≡ written 0 (run (market_of T.deals P.before self.now) (length fills.old) false active.now places.old).fills fills.old }
    {
        let mut active = *active;
        let mut touched = false;
        for (count, fill) in fills.iter_mut().enumerate() {
            let Some(meeting) = self.meeting(touched, &active, places) else {
                return Run { count, active };
            };
            *fill = meeting.fill();
            places[meeting.found.place] = meeting.left_passive();
            active = meeting.left_active();
            touched = self.touched_by(touched, &meeting);
        }
        Run {
            count: fills.len(),
            active,
        }
    }

    // The order of a place, as active, with the first that it could meet.
    fn pair(&self, place: usize, row: &Row, places: &[Row]) -> Option<Pair>
        ensures { result ≡ pair_at (market_of T.deals P.before self.now) places.now place row.now }
    {
        let active = row.order()?;
        let found = self.first(&active, places)?;
        Some(Pair {
            place,
            meeting: Meeting { active, found },
        })
    }

    // Of two pairs with equal stamps, the one in the earlier place.
    fn oldest(&self, places: &[Row]) -> Option<Pair>
        ensures value { result ≡ oldest (market_of T.deals P.before self.now) places.now }
        ensures within { IfSome result (λ p. (p.place < length places.now) × (p.meeting.found.place < length places.now)) }
    {
        places
            .iter()
            .enumerate()
            .filter_map(|(place, row)| self.pair(place, row, places))
            .min_by_key(Pair::stamp)
    }

    // Lets resting orders trade with one another, and writes their fills from an entry of the list on, as long as there are
    // entries. Says how many entries are then written.
    pub fn sweep(&self, places: &mut [Row], fills: &mut [Fill], from: usize) -> usize
        ensures count { result ≡ from + length (sweep (market_of T.deals P.before self.now) (length fills.old - from) places.old).fills }
        ensures places { places.new ≡ (sweep (market_of T.deals P.before self.now) (length fills.old - from) places.old).rows }
        ensures fills { fills.new ≡ written from (sweep (market_of T.deals P.before self.now) (length fills.old - from) places.old).fills fills.old }
    {
        if from >= fills.len() {
            return from;
        }
        for (made, fill) in fills[from..].iter_mut().enumerate() {
            let Some(pair) = self.oldest(places) else {
                return from + made;
            };
            *fill = pair.meeting.fill();
            places[pair.place] = pair.meeting.left_active();
            places[pair.meeting.found.place] = pair.meeting.left_passive();
        }
        fills.len()
    }
}
