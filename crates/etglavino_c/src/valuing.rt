// Values with a type, and hours. Kinds: 1 a single, 2 a double, 3 a whole number, 4 raw; 0 in a refusal.
ghost use Rattle.std.specs.Prelude.{◌≡◌};
ghost use Rattle.typed.specs.Coding.{putting};
ghost use Rattle.typed.specs.Asked.{valuing, totalling, lining, summing};
ghost use Rattle.records.specs.Numbers.{numbers};
ghost use Rattle.etglavino_c.specs.Pointers.{output_of};
ghost use Rattle.etglavino_c.specs.Values.{value_out, handed_value, HandsValue, value_for, line_out, handed_line, HandsLine, total_out, handed_total, HandsTotal, week_out, handed_week, HandsWeek, line_for};

use records::Record;
use typed::{Line, Lining, Summing, Value, Valuing};

// The value of a kind: the payload of that kind counts, and the others are not looked at.
fn value_for(kind: u32, single: f32, double: f64, whole: i64, start: usize, end: usize) -> Value
    ensures { result ≡ value_for kind single double whole start end }
{
    if kind == 1 {
        return Value::Single(single);
    }
    if kind == 2 {
        return Value::Double(double);
    }
    if kind == 3 {
        return Value::Whole(whole);
    }
    Value::Raw { start, end }
}

// A value handed out.
fn hand_value(
    answer: Valuing,
    kind: &mut u32,
    single: &mut f32,
    double: &mut f64,
    whole: &mut i64,
    start: &mut usize,
    end: &mut usize,
) -> u32
    ensures { HandsValue answer result kind.new single.new double.new whole.new start.new end.new }
{
    *kind = 0;
    *single = 0.0;
    *double = 0.0;
    *whole = 0;
    *start = 0;
    *end = 0;
    match answer {
        Ok(value) => {
            match value {
                Value::Single(x) => {
                    *kind = 1;
                    *single = x;
                }
                Value::Double(x) => {
                    *kind = 2;
                    *double = x;
                }
                Value::Whole(x) => {
                    *kind = 3;
                    *whole = x;
                }
                Value::Raw {
                    start: from,
                    end: to,
                } => {
                    *kind = 4;
                    *start = from;
                    *end = to;
                }
            }
            0
        }
        Err(refusal) => refusal.number(),
    }
}

// A line handed out.
fn hand_line(
    answer: Lining,
    ordinary: &mut f64,
    night: &mut f64,
    holiday: &mut f64,
    quarters: &mut u32,
    hours: &mut f64,
) -> u32
    ensures { HandsLine answer result ordinary.new night.new holiday.new quarters.new hours.new }
{
    match answer {
        Ok(shift) => {
            *ordinary = shift.line.ordinary;
            *night = shift.line.night;
            *holiday = shift.line.holiday;
            *quarters = shift.total.quarters;
            *hours = shift.total.hours;
            0
        }
        Err(refusal) => {
            *ordinary = 0.0;
            *night = 0.0;
            *holiday = 0.0;
            *quarters = 0;
            *hours = 0.0;
            refusal.number()
        }
    }
}

// A week handed out.
fn hand_week(
    answer: Summing,
    lines: &mut usize,
    quarters: &mut u32,
    hours: &mut f64,
    bad: &mut usize,
) -> u32
    ensures { HandsWeek answer result lines.new quarters.new hours.new bad.new }
{
    match answer {
        Ok(week) => {
            *lines = week.lines;
            *quarters = week.total.quarters;
            *hours = week.total.hours;
            *bad = 0;
            0
        }
        Err(misfit) => {
            *lines = 0;
            *quarters = 0;
            *hours = 0.0;
            *bad = misfit.node;
            misfit.refusal.number()
        }
    }
}

#[unsafe(no_mangle)]
pub extern "C" fn etg_value(
    canonical: &[u8],
    length: usize,
    table: &[u32],
    nodes: usize,
    node: usize,
    kind: &mut u32,
    single: &mut f32,
    double: &mut f64,
    whole: &mut i64,
    start: &mut usize,
    end: &mut usize,
) -> u32
    ensures { value_out result kind.new single.new double.new whole.new start.new end.new ≡ handed_value (valuing canonical.now length table.now nodes node) }
{
    let answer = etglavino::value(canonical, length, table, nodes, node);
    hand_value(answer, kind, single, double, whole, start, end)
}

#[unsafe(no_mangle)]
pub extern "C" fn etg_put_value(
    kind: u32,
    single: f32,
    double: f64,
    whole: i64,
    start: usize,
    end: usize,
    octets: &[u8],
    out: &mut [u8],
    written: &mut usize,
) -> u32
    ensures { output_of result written.new out.new ≡ putting (value_for kind single double whole start end) octets.now out.old }
{
    let value = value_for(kind, single, double, whole, start, end);
    match etglavino::put_value(value, octets, out) {
        Ok(length) => {
            *written = length;
            0
        }
        Err(refusal) => {
            *written = 0;
            refusal.number()
        }
    }
}

#[unsafe(no_mangle)]
pub extern "C" fn etg_line(
    canonical: &[u8],
    length: usize,
    table: &[u32],
    nodes: usize,
    node: usize,
    ordinary: &mut f64,
    night: &mut f64,
    holiday: &mut f64,
    quarters: &mut u32,
    hours: &mut f64,
) -> u32
    ensures { line_out result ordinary.new night.new holiday.new quarters.new hours.new ≡ handed_line (lining canonical.now length table.now nodes node) }
{
    let answer = etglavino::line(canonical, length, table, nodes, node);
    hand_line(answer, ordinary, night, holiday, quarters, hours)
}

#[unsafe(no_mangle)]
pub extern "C" fn etg_total(
    ordinary: f64,
    night: f64,
    holiday: f64,
    quarters: &mut u32,
    hours: &mut f64,
) -> u32
    ensures { total_out result quarters.new hours.new ≡ handed_total (totalling (line_for ordinary night holiday)) }
{
    let line = Line {
        ordinary,
        night,
        holiday,
    };
    match etglavino::total(line) {
        Ok(total) => {
            *quarters = total.quarters;
            *hours = total.hours;
            0
        }
        Err(refusal) => {
            *quarters = 0;
            *hours = 0.0;
            refusal.number()
        }
    }
}

#[unsafe(no_mangle)]
pub extern "C" fn etg_week(
    canonical: &[u8],
    length: usize,
    table: &[u32],
    nodes: usize,
    node: usize,
    lines: &mut usize,
    quarters: &mut u32,
    hours: &mut f64,
    bad: &mut usize,
) -> u32
    ensures { week_out result lines.new quarters.new hours.new bad.new ≡ handed_week (summing canonical.now length table.now nodes node) }
{
    let answer = etglavino::week(canonical, length, table, nodes, node);
    hand_week(answer, lines, quarters, hours, bad)
}

// The same with the table lent as records.
#[unsafe(no_mangle)]
pub extern "C" fn etg_value_records(
    canonical: &[u8],
    length: usize,
    records: &[Record],
    nodes: usize,
    node: usize,
    kind: &mut u32,
    single: &mut f32,
    double: &mut f64,
    whole: &mut i64,
    start: &mut usize,
    end: &mut usize,
) -> u32
    ensures { value_out result kind.new single.new double.new whole.new start.new end.new ≡ handed_value (valuing canonical.now length (numbers records.now) nodes node) }
{
    let answer = rosters::value(canonical, length, records, nodes, node);
    hand_value(answer, kind, single, double, whole, start, end)
}

#[unsafe(no_mangle)]
pub extern "C" fn etg_line_records(
    canonical: &[u8],
    length: usize,
    records: &[Record],
    nodes: usize,
    node: usize,
    ordinary: &mut f64,
    night: &mut f64,
    holiday: &mut f64,
    quarters: &mut u32,
    hours: &mut f64,
) -> u32
    ensures { line_out result ordinary.new night.new holiday.new quarters.new hours.new ≡ handed_line (lining canonical.now length (numbers records.now) nodes node) }
{
    let answer = rosters::line(canonical, length, records, nodes, node);
    hand_line(answer, ordinary, night, holiday, quarters, hours)
}

#[unsafe(no_mangle)]
pub extern "C" fn etg_week_records(
    canonical: &[u8],
    length: usize,
    records: &[Record],
    nodes: usize,
    node: usize,
    lines: &mut usize,
    quarters: &mut u32,
    hours: &mut f64,
    bad: &mut usize,
) -> u32
    ensures { week_out result lines.new quarters.new hours.new bad.new ≡ handed_week (summing canonical.now length (numbers records.now) nodes node) }
{
    let answer = rosters::week(canonical, length, records, nodes, node);
    hand_week(answer, lines, quarters, hours, bad)
}
