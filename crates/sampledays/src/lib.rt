// Days in both books, worked out by hand and shown of the definitions of the calls.
#![tactic(auto)]

ghost use Rattle.std.specs.Prelude.{◌≡◌, true};
ghost use Rattle.sampledays.specs.Days.{days};
ghost use Rattle.sampledays.specs.Playing.{AllDaysHold};

// Every call of every day in the table has the reply and the fills that the table gives it.
#[tactic(auto, unfolding(orders::specs::Ranges::order_fits))]
pub fn sample_days_hold() -> bool
    ensures { (result ≡ true) × AllDaysHold days }
{
    true
}
