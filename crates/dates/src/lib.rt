// Dates (document 02, K2): which are real, adding days, and the days of a grant. A date is year × 10,000 + month × 100 + day.
#![tactic(auto)]

ghost use Rattle.std.specs.Prelude.{◌≡◌, ◌<◌};
ghost use Rattle.model.specs.Dates.{leap, days_in, real_date, next_day, days_later, add_days, date_or_none, in_order, in_days};
ghost use Rattle.refusals.specs.Results.{reading_of};

use refusals::Refusal;

// Every fourth year; of the years that end a century, every fourth.
#[tactic(auto, unfolding(model::specs::Dates::leap))]
fn leap(year: u32) -> bool
    ensures { result ≡ leap year }
{
    year % 4 == 0 && (year % 100 != 0 || year % 400 == 0)
}

// How many days a month of a year has.
#[tactic(auto, unfolding(model::specs::Dates::days_in))]
fn days_in(year: u32, month: u32) -> u32
    ensures { result ≡ days_in year month }
{
    match month {
        2 => { if leap(year) { 29 } else { 28 } }
        4 | 6 | 9 | 11 => 30,
        _ => 31,
    }
}

// A day of a month of a year from 1900 to 2199.
#[tactic(auto, unfolding(model::specs::Dates::real_date))]
pub fn real_date(date: u32) -> bool
    ensures { result ≡ real_date date }
{
    let year = date / 10000;
    if !(1900..=2199).contains(&year) {
        return false;
    }
    let month = date / 100 % 100;
    let day = date % 100;
    (1..=12).contains(&month) && (1..=days_in(year, month)).contains(&day)
}

// The next day of the month, else the first of the next month, else the first of the next year.
#[tactic(auto, unfolding(model::specs::Dates::next_day))]
fn next_day(date: u32) -> u32
    requires { date < 21991231 }
    ensures { result ≡ next_day date }
{
    // Every month has 28 days.
    if date % 100 < 28 {
        return date + 1;
    }
    let year = date / 10000;
    let month = date / 100 % 100;
    if date % 100 < days_in(year, month) {
        date + 1
    } else if month < 12 {
        year * 10000 + (month + 1) * 100 + 1
    } else {
        (year + 1) * 10000 + 101
    }
}

// So many next days; none is past 2199.
fn days_later(date: u32, count: u32) -> Result<u32, Refusal>
    ensures { reading_of result ≡ days_later count date }
{
    let mut reached = date;
    for _ in 0..count {
        if 21991231 <= reached {
            return Err(Refusal::NotReal);
        }
        reached = next_day(reached);
    }
    Ok(reached)
}

// Adds 0 to 366 days to a date.
#[tactic(auto, unfolding(model::specs::Dates::add_days))]
pub fn add_days(date: u32, count: u32) -> Result<u32, Refusal>
    ensures { reading_of result ≡ add_days date count }
{
    if !real_date(date) || 366 < count {
        return Err(Refusal::NotReal);
    }
    days_later(date, count)
}

// A grant's edge: a real date, or 0 for none.
// Kept: 0 is what a grant's bytes say of no edge, here and below: an Option would be made at each reading and taken apart here.
#[tactic(auto, unfolding(model::specs::Dates::date_or_none))]
pub fn date_or_none(edge: u32) -> bool
    ensures { result ≡ date_or_none edge }
{
    edge == 0 || real_date(edge)
}

// The first day is not after the last, where both are dates.
#[tactic(auto, unfolding(model::specs::Dates::in_order))]
pub fn in_order(first: u32, last: u32) -> bool
    ensures { result ≡ in_order first last }
{
    last == 0 || first <= last
}

// The day is within a grant's days, both edges inside. A first day of 0 is before every day.
#[tactic(auto, unfolding(model::specs::Dates::in_days))]
pub fn in_days(first: u32, last: u32, day: u32) -> bool
    ensures { result ≡ in_days first last day }
{
    first <= day && (last == 0 || day <= last)
}
