// English names of days and months.
ghost use Rattle.std.specs.Prelude.{◌≡◌};
ghost use Rattle.mail_dates.specs.Shown.{month_name as month_letters_of, weekday_name as weekday_letters_of};
ghost use Rattle.format_run.specs.Dates.{long_month_name, long_weekday_name};

/// The first three letters of a day's name, from 0 for Sunday.
pub(crate) fn short_weekday_name(weekday: u8) -> &'static [u8]
    ensures { result.now ≡ weekday_letters_of weekday }
{
    if weekday == 0 {
        b"Sun"
    } else if weekday == 1 {
        b"Mon"
    } else if weekday == 2 {
        b"Tue"
    } else if weekday == 3 {
        b"Wed"
    } else if weekday == 4 {
        b"Thu"
    } else if weekday == 5 {
        b"Fri"
    } else {
        b"Sat"
    }
}

pub(crate) fn weekday_name(weekday: u8) -> &'static [u8]
    ensures { result.now ≡ long_weekday_name weekday }
{
    if weekday == 0 {
        b"Sunday"
    } else if weekday == 1 {
        b"Monday"
    } else if weekday == 2 {
        b"Tuesday"
    } else if weekday == 3 {
        b"Wednesday"
    } else if weekday == 4 {
        b"Thursday"
    } else if weekday == 5 {
        b"Friday"
    } else {
        b"Saturday"
    }
}

/// The first three letters of a month's name, from 1 for January.
pub(crate) fn short_month_name(month: u8) -> &'static [u8]
    ensures { result.now ≡ month_letters_of month }
{
    if month == 1 {
        b"Jan"
    } else if month == 2 {
        b"Feb"
    } else if month == 3 {
        b"Mar"
    } else if month == 4 {
        b"Apr"
    } else if month == 5 {
        b"May"
    } else if month == 6 {
        b"Jun"
    } else if month == 7 {
        b"Jul"
    } else if month == 8 {
        b"Aug"
    } else if month == 9 {
        b"Sep"
    } else if month == 10 {
        b"Oct"
    } else if month == 11 {
        b"Nov"
    } else {
        b"Dec"
    }
}

pub(crate) fn month_name(month: u8) -> &'static [u8]
    ensures { result.now ≡ long_month_name month }
{
    if month == 1 {
        b"January"
    } else if month == 2 {
        b"February"
    } else if month == 3 {
        b"March"
    } else if month == 4 {
        b"April"
    } else if month == 5 {
        b"May"
    } else if month == 6 {
        b"June"
    } else if month == 7 {
        b"July"
    } else if month == 8 {
        b"August"
    } else if month == 9 {
        b"September"
    } else if month == 10 {
        b"October"
    } else if month == 11 {
        b"November"
    } else {
        b"December"
    }
}
