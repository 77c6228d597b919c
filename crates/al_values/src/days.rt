ghost use Rattle.std.specs.Prelude.{◌≡◌, false, true, MatchOption};
ghost use Rattle.al_values.specs.Days.{is_day, year_of, month_of, place_of};

use jiff_core::civil::Date;

#[tactic(auto, using(crate::proofs::DayNumbers::before_year_one, crate::proofs::DayNumbers::within_years))]
/// The year, the month and the day of a day of the years 1 to 9999.
pub(crate) fn civil(number: i64) -> Option<(u16, u8, u8)>
    ensures { MatchOption result (is_day number ≡ false) (λ date.
        (is_day number ≡ true) × (date.0 ≡ year_of number) × (date.1 ≡ month_of number) × (date.2 ≡ place_of number)) }
{
    let date = Date::from_unix_epoch_day(number).ok()?;
    if date.year < 1 {
        return None;
    }
    Some((date.year as u16, date.month, date.day))
}
