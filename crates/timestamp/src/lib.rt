// Instants as text: a date, alone or with a time of day (docs/FORMAT.md, "Instants").
#![tactic(auto)]

ghost use Rattle.std.specs.Prelude.{◌≡◌, ◌<◌, ◌≤◌, get_or};
ghost use Rattle.text.specs.Utf8.{between};
ghost use Rattle.timestamp.specs.Instant.{digit_value, is_two, two, three, is_marked_two, fields_of};
ghost use Rattle.timestamp.specs.Instant.{is_leap, days_in, is_date, is_day, is_separator, is_time, is_clock, is_zone, is_end, skip_digits, is_fraction, is_time_end, is_timed, is_instant};
ghost use Rattle.timestamp.specs.Parses.{Parses};
ghost use Rattle.timestamp.specs.Order.{is_earlier};

use text::is_digit;

// What an instant says; what its text leaves out is 0.
#[derive(Clone, Copy)]
pub struct Fields {
    pub year: u32,
    pub month: u32,
    pub day: u32,
    pub hour: u32,
    pub minute: u32,
    pub second: u32,
    pub nanoseconds: u32,
}

// The byte at a place, 0 where the text has ended.
fn byte_at(s: &[u8], at: usize) -> u8
    ensures { result ≡ get_or s.now at 0 }
{
    if at < s.len() { s[at] } else { 0 }
}

fn is_between(low: u32, high: u32, x: u32) -> bool
    ensures { result ≡ between low high x }
{
    low <= x && x <= high
}

fn digit_value(b: u8) -> u32
    ensures { (result ≡ digit_value b) × (result ≤ 9) }
{
    if is_digit(b) { (b as u32) - 0x30 } else { 0 }
}

fn is_two(s: &[u8], at: usize) -> bool
    requires { at < 64 }
    ensures { result ≡ is_two s.now at }
{
    is_digit(byte_at(s, at)) && is_digit(byte_at(s, at + 1))
}

fn two(s: &[u8], at: usize) -> u32
    requires { at < 64 }
    ensures { (result ≡ two s.now at) × (result ≤ 99) }
{
    digit_value(byte_at(s, at)) * 10 + digit_value(byte_at(s, at + 1))
}

fn three(s: &[u8], at: usize) -> u32
    requires { at < 64 }
    ensures { (result ≡ three s.now at) × (result ≤ 999) }
{
    two(s, at) * 10 + digit_value(byte_at(s, at + 2))
}

fn is_marked_two(s: &[u8], at: usize, mark: u8) -> bool
    requires { at < 63 }
    ensures { result ≡ is_marked_two s.now at mark }
{
    if byte_at(s, at) == mark {
        is_two(s, at + 1)
    } else {
        false
    }
}

fn fields_of(s: &[u8]) -> Fields
    ensures { result ≡ fields_of s.now }
{
    Fields {
        year: two(s, 0) * 100 + two(s, 2),
        month: two(s, 5),
        day: two(s, 8),
        hour: two(s, 11),
        minute: two(s, 14),
        second: two(s, 17),
        nanoseconds: three(s, 20) * 1000000 + three(s, 23) * 1000 + three(s, 26),
    }
}

fn is_leap(year: u32) -> bool
    ensures { result ≡ is_leap year }
{
    if year % 4 == 0 {
        year % 400 == 0 || year % 100 != 0
    } else {
        false
    }
}

fn days_in_month(year: u32, month: u32) -> u32
    ensures { result ≡ days_in year month }
{
    match month {
        2 => { if is_leap(year) { 29 } else { 28 } }
        4 | 6 | 9 | 11 => 30,
        _ => 31,
    }
}

fn is_date(s: &[u8]) -> bool
    ensures { result ≡ is_date s.now }
{
    if is_two(s, 0) {
        if is_two(s, 2) {
            if is_marked_two(s, 4, b'-') {
                return is_marked_two(s, 7, b'-');
            }
        }
    }
    false
}

fn is_day(year: u32, month: u32, day: u32) -> bool
    ensures { result ≡ is_day year month day }
{
    is_between(1, 12, month) && is_between(1, days_in_month(year, month), day)
}

fn is_separator(b: u8) -> bool
    ensures { result ≡ is_separator b }
{
    match b {
        b' ' | b'T' | b't' => true,
        _ => false,
    }
}

fn is_time(s: &[u8]) -> bool
    ensures { result ≡ is_time s.now }
{
    if is_separator(byte_at(s, 10)) {
        if is_two(s, 11) {
            if is_marked_two(s, 13, b':') {
                return is_marked_two(s, 16, b':');
            }
        }
    }
    false
}

fn is_clock(hour: u32, minute: u32, second: u32) -> bool
    ensures { result ≡ is_clock hour minute second }
{
    if hour <= 23 {
        if minute <= 59 {
            return second <= 60;
        }
    }
    false
}

fn is_zone(b: u8) -> bool
    ensures { result ≡ is_zone b }
{
    match b {
        b'Z' | b'z' => true,
        _ => false,
    }
}

fn is_end(s: &[u8], at: usize) -> bool
    requires { at < 64 }
    ensures { result ≡ is_end s.now at }
{
    if s.len() == at {
        true
    } else {
        is_zone(byte_at(s, at)) && s.len() == at + 1
    }
}

// Where the digits of a fraction end, of which nine are passed at most.
fn fraction_end(s: &[u8]) -> usize
    ensures { (result ≡ skip_digits s.now 20 9) × (result < 64) }
{
    for at in 20..29 {
        if !is_digit(byte_at(s, at)) {
            return at;
        }
    }
    29
}

fn is_fraction(s: &[u8]) -> bool
    ensures { result ≡ is_fraction s.now }
{
    if byte_at(s, 19) == b'.' {
        if is_digit(byte_at(s, 20)) {
            return is_end(s, fraction_end(s));
        }
    }
    false
}

fn is_time_end(s: &[u8]) -> bool
    ensures { result ≡ is_time_end s.now }
{
    if is_end(s, 19) { true } else { is_fraction(s) }
}

fn is_timed(s: &[u8], f: Fields) -> bool
    ensures { result ≡ is_timed s.now f }
{
    if is_time(s) {
        if is_clock(f.hour, f.minute, f.second) {
            return is_time_end(s);
        }
    }
    false
}

// Whether a text is an instant, given its fields.
fn is_instant(s: &[u8], f: Fields) -> bool
    ensures { result ≡ is_instant s.now f }
{
    if is_date(s) {
        if is_day(f.year, f.month, f.day) {
            if s.len() == 10 {
                return true;
            }
            return is_timed(s, f);
        }
    }
    false
}

// The instant that a text is, White_Space at its ends aside.
pub fn parse(s: &[u8]) -> Option<Fields>
    ensures { Parses s.now result }
{
    let t = text::trim(s);
    let f = fields_of(t);
    if is_instant(t, f) { Some(f) } else { None }
}

// Whether an instant lies before another: the first field that differs decides.
pub fn is_earlier(a: Fields, b: Fields) -> bool
    ensures { result ≡ is_earlier a b }
{
    if a.year != b.year {
        return a.year < b.year;
    }
    if a.month != b.month {
        return a.month < b.month;
    }
    if a.day != b.day {
        return a.day < b.day;
    }
    if a.hour != b.hour {
        return a.hour < b.hour;
    }
    if a.minute != b.minute {
        return a.minute < b.minute;
    }
    if a.second != b.second {
        return a.second < b.second;
    }
    a.nanoseconds < b.nanoseconds
}
