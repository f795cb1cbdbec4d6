// A day in a dark book, kept. What a replay ensures of any terms and priority is had here of these.
ghost use Rattle.terms.specs.Dark.{dark_deal, dark_verdict};
ghost use Rattle.priority.specs.Ranking.{time_before};
ghost use Rattle.day.specs.Keeps.{Keeps};
ghost use Rattle.day.specs.Replays.{Replayed};

use day::item::Item;
use day::keeper::Keeper;
use day::replay::replay;
use orders::call::Fill;
use orders::refusal::Refusal;
use orders::row::Row;
use priority::ranking::PriceBrokerTime;
use terms::dark::Dark;

pub(crate) fn keep_dark_day(
    last: u32,
    places: &mut [Row],
    fills: &mut [Fill],
    items: &[Item],
    keeper: &mut Keeper,
) -> Result<(), Refusal>
    ensures { Replayed (record { deals = dark_deal; verdict = dark_verdict; before = time_before }) Keeps last items.now (record { rows = places.old; fills = fills.old; recorder = keeper.old }) (record { rows = places.new; fills = fills.new; recorder = keeper.new }) result }
{
    replay(PriceBrokerTime, Dark, last, places, fills, items, keeper)
}
