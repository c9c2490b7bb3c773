// Every reading of the bench, in words, as a request, and with its answer.
#![tactic(auto)]

use requests::inner::respond;
use std::io;
use std::io::Write;

// A reading, and the request that asks for it.
static READINGS: [(&str, &str); 30] = [
    // Day numbers.
    ("1970-01-01 is day 0", "date_to_day 1970 1 1"),
    ("2000-03-01 is day 11017", "date_to_day 2000 3 1"),
    ("2024-02-29 is day 19782", "date_to_day 2024 2 29"),
    ("day -100,000,001 is a date", "day_to_date -100000001"),
    ("and may stand", "date_limits -271821 4 19"),
    // The ends of the range.
    ("day +100,000,001 as a date is 2", "make_date 275760 9 14 1"),
    ("balancing to it passes", "balance_date 275760 9 14"),
    ("one more is 4", "balance_date 275760 9 15"),
    // Differences by months.
    (
        "2021-03-31 to 2021-02-28, month: -1 month; 4 tried",
        "date_difference 2021 3 31 2021 2 28 1",
    ),
    (
        "2024-03-31 to 2024-02-28, month: -1 month, -1 day; 4 tried",
        "date_difference 2024 3 31 2024 2 28 1",
    ),
    (
        "2021-01-31 to 2021-02-28, month: 28 days; 3 tried",
        "date_difference 2021 1 31 2021 2 28 1",
    ),
    (
        "2020-02-29 to 2021-02-28, year: 11 months, 30 days; 14 tried",
        "date_difference 2020 2 29 2021 2 28 0",
    ),
    (
        "back: -11 months, -28 days; 14 tried",
        "date_difference 2021 2 28 2020 2 29 0",
    ),
    // Weeks, and the whole span of the calendar.
    (
        "2024-01-01 to 2024-02-29, week: 8 weeks, 3 days; none tried",
        "date_difference 2024 1 1 2024 2 29 2",
    ),
    (
        "-271821-04-19 to +275760-09-13, day: 200,000,001 days; none tried",
        "date_difference -271821 4 19 275760 9 13 3",
    ),
    (
        "year: 547,581 years, 4 months, 25 days; 8 tried",
        "date_difference -271821 4 19 275760 9 13 0",
    ),
    (
        "back: -547,581 years, -4 months, -24 days; 8 tried",
        "date_difference 275760 9 13 -271821 4 19 0",
    ),
    // Sums.
    (
        "2024-01-31 plus 1 month is 2024-02-29",
        "date_sum 2024 1 31 0 1 0 0 0",
    ),
    (
        "under reject it is refusal 1",
        "date_sum 2024 1 31 0 1 0 0 1",
    ),
    // Times rounded.
    (
        "01:10 at 20 minutes, half-even, is 01:00",
        "round_time 1 10 0 0 0 0 5 20 8",
    ),
    ("01:50 is 01:40", "round_time 1 50 0 0 0 0 5 20 8"),
    ("half-expand it is 02:00", "round_time 1 50 0 0 0 0 5 20 6"),
    (
        "12:00 at day, half-even: carry 0",
        "round_time 12 0 0 0 0 0 3 1 8",
    ),
    ("half-expand: carry 1", "round_time 12 0 0 0 0 0 3 1 6"),
    // Numbers rounded, and a time balanced.
    ("-5 at step 10, half-expand, is -10", "round_number -5 10 6"),
    ("half-ceil it is 0", "round_number -5 10 4"),
    (
        "as if positive, half-expand, it is 0",
        "round_number_as_if_positive -5 10 6",
    ),
    (
        "balancing nanosecond -1: carry -1, 23:59:59.999999999",
        "balance_time 0 0 0 0 0 -1",
    ),
    // Dates with a time.
    (
        "2024-01-01T23:00 to 2024-01-02T01:00, day: 0 days, 7,200 seconds; none tried",
        "datetime_difference 2024 1 1 23 0 0 0 0 0 2024 1 2 1 0 0 0 0 0 3",
    ),
    (
        "+275760-09-13T23:30 to the hour, half-expand, is refusal 3",
        "round_datetime 275760 9 13 23 30 0 0 0 0 4 1 6",
    ),
];

fn main(rt: HostRuntime) -> io::Result<()> {
    for (reading, request) in &READINGS {
        show(&rt, reading, request)?;
    }
    Ok(())
}

// Prints a reading, the request that asks for it, and what is answered: piece by piece, so that what is printed before a write fails is
// all that came before it.
fn show(rt: &HostRuntime, reading: &str, request: &str) -> io::Result<()> {
    rt.stdout().write_all(reading.as_bytes())?;
    rt.stdout().write_all(b"\n    ")?;
    rt.stdout().write_all(request.as_bytes())?;
    rt.stdout().write_all(b"\n    ")?;
    let mut out = [0u8; 256];
    let filled = respond(request.as_bytes(), &mut out, 0);
    rt.stdout().write_all(&out[..filled])
}
