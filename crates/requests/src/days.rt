// Document 02, K2: days.
ghost use Rattle.requests.specs.Days.{RealMeans, NextDayIsLeast, AddsDays, AddsTwice, DaysRefused, BadDayRefused, OutsideDaysChangeNothing};
ghost use Rattle.requests.specs.Cases.{DayCases};

// A real date is a day of a month of a year from 1900 to 2199.
pub fn a_real_date_is_a_day_of_a_month_of_a_year()
    ensures { RealMeans }
{}

// The next day is the least real date after a date.
pub fn the_next_day_is_the_least_real_date_after_a_date()
    ensures { NextDayIsLeast }
{}

// Adding days is going on to the least real date after, so many times.
pub fn adding_days_is_the_next_day_repeated()
    ensures { AddsDays }
{}

// Adding a days and then b is adding a + b.
pub fn adding_a_then_b_days_is_adding_their_sum()
    ensures { AddsTwice }
{}

// 84 and 85 of a grant's block, each exactly under its condition, after 13 and 14.
pub fn days_of_a_grant_are_refused_exactly_under_their_conditions()
    ensures { DaysRefused }
{}

// 86 exactly on a day that is no real date, before everything else.
pub fn refusal_86_exactly_on_a_day_that_is_not_real()
    ensures { BadDayRefused }
{}

// Grants outside their days change no extract and no answer.
pub fn grants_outside_their_days_change_nothing()
    ensures { OutsideDaysChangeNothing }
{}

// The cases of the request, on their own bytes and numbers.
pub fn worked_cases()
    ensures { DayCases }
{}
