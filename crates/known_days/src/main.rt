// The days whose answers are known from outside: the twelve of the scope on its small unit, pairs of lists, prices
// below zero and far above it and days of a calendar on that unit, days that open and close inside a sequence on a
// unit with longer trajectories, minimum times of up to 24 hours, and the days of the source, up to a week, whose case
// is read from standard input in the old form and written in form 3. Prints one line for each: what was asked, and the
// answer of best::schedule, of rules::check, of offers::compare with the part of offers::better, of
// calendar::schedule_by_calendar, or of codec::write.
#![tactic(auto)]

use cases::{
    Case, Comparison, FORM_BYTES, HOUR_BYTES, HOURS, LONG_WORK, MOST_PRICE, OLD_HOUR_BYTES,
    OLD_SECTIONS, OLD_UNIT_BYTES, PAIR_BYTES, Reading, SECTIONS, SHORT_WORK, STAGE_BYTES, STAGES,
    UNIT_BYTES, Verdict,
};
use input::read_full;
use quantities::{HalfMills, Hour, Mills, Output, Refusal};
use std::{fmt, io};

// The hours of the source's day, and the bytes of its trajectories, which have six outputs; the bytes of its case in
// the old form and in form 3.
const DAY: usize = 24;

const TRAJECTORIES: usize = 6 * STAGE_BYTES;

const SOURCE: usize = PAIR_BYTES * OLD_SECTIONS
    + OLD_UNIT_BYTES
    + TRAJECTORIES
    + DAY * OLD_HOUR_BYTES;

const SOURCE_NEW: usize = PAIR_BYTES * SECTIONS
    + UNIT_BYTES
    + TRAJECTORIES
    + DAY * HOUR_BYTES
    + FORM_BYTES;

// What a line says after its name: outputs, a plan with the outputs that were found, a verdict, and a comparison.
#[derive(Drop)]
struct List<'a>(&'a [u16]);

impl fmt::Display for List<'_> {
    fn fmt<W: fmt::Write>(&self, f: &mut fmt::Formatter<W>) -> fmt::Result {
        f.write_str(" list")?;
        for output in self.0 {
            write!(f, " {output}")?;
        }
        Ok(())
    }
}

#[derive(Drop)]
struct Planned<'a> {
    plan: Result<HalfMills, Refusal>,
    list: List<'a>,
}

impl fmt::Display for Planned<'_> {
    fn fmt<W: fmt::Write>(&self, f: &mut fmt::Formatter<W>) -> fmt::Result {
        match self.plan {
            Ok(profit) => write!(f, " profit {}{}", profit.0, self.list),
            Err(refusal) => write!(f, " refused {}", refusal.0),
        }
    }
}

#[derive(Drop)]
struct Checked(Result<Verdict, Refusal>);

impl fmt::Display for Checked {
    fn fmt<W: fmt::Write>(&self, f: &mut fmt::Formatter<W>) -> fmt::Result {
        match self.0 {
            Ok(Verdict::Passes(profit)) => write!(f, " profit {}", profit.0),
            Ok(Verdict::Breaks(breach)) => {
                write!(f, " breaks {} at hour {}", breach.rule, breach.hour.0)
            }
            Err(refusal) => write!(f, " refused {}", refusal.0),
        }
    }
}

#[derive(Drop)]
struct Compared(Result<Comparison, Refusal>);

impl fmt::Display for Compared {
    fn fmt<W: fmt::Write>(&self, f: &mut fmt::Formatter<W>) -> fmt::Result {
        match self.0 {
            Ok(Comparison::First(profit)) => write!(f, "first, profit {}", profit.0),
            Ok(Comparison::Second(profit)) => write!(f, "second, profit {}", profit.0),
            Ok(Comparison::Neither) => f.write_str("neither"),
            Err(refusal) => write!(f, "refused {}", refusal.0),
        }
    }
}

// A plan for as many hours, and the list that was found.
fn print_plan(
    rt: &impl Print,
    name: &str,
    plan: Result<HalfMills, Refusal>,
    case: Case,
    outputs: &[u16],
) -> io::Result<()> {
    let hours = case.hours.min(outputs.len());
    let list = List(&outputs[..hours]);
    println!(rt; "{name}{}", Planned { plan, list })
}

// The best list, in lent numbers.
fn print_lent(rt: &impl Print, name: &str, reading: Reading, work: &mut [i64]) -> io::Result<()> {
    let mut outputs = [0; HOURS];
    let plan = best::schedule(reading, work, &mut outputs);
    print_plan(rt, name, plan, reading.case, &outputs)
}

// The best list.
fn print_best(rt: &impl Print, name: &str, reading: Reading) -> io::Result<()> {
    print_lent(rt, name, reading, &mut [0; SHORT_WORK])
}

// The best list in as many numbers as a minimum time above 8 asks for.
fn print_long(rt: &impl Print, name: &str, reading: Reading) -> io::Result<()> {
    print_lent(rt, name, reading, &mut [0; LONG_WORK])
}

// The verdict of a list.
fn print_check(rt: &impl Print, name: &str, reading: Reading, list: &[u16]) -> io::Result<()> {
    println!(rt; "{name}{}", Checked(rules::check(reading, list)))
}

// A day of the year: its on-line and off-line windows, its first hour and how many hours it has.
#[derive(Clone, Copy)]
struct Day<'a> {
    on: &'a [u16],
    off: &'a [u16],
    first: Hour,
    hours: Hour,
}

// From hour 100 of the year on, 24 hours with no window.
const OPEN: Day<'static> = Day {
    on: &[],
    off: &[],
    first: Hour(100),
    hours: Hour(24),
};

// The best list on a day of the year.
fn print_day(rt: &impl Print, name: &str, reading: Reading, day: &Day<'_>) -> io::Result<()> {
    let mut work = [0; SHORT_WORK];
    let mut outputs = [0; HOURS];
    let plan = calendar::schedule_by_calendar(
        reading,
        day.on,
        day.off,
        day.first,
        day.hours,
        &mut work,
        &mut outputs,
    );
    print_plan(rt, name, plan, reading.case, &outputs)
}

// With on-line windows, or with off-line windows, alone.
fn print_on(rt: &impl Print, name: &str, reading: Reading, on: &[u16]) -> io::Result<()> {
    print_day(rt, name, reading, &Day { on, ..OPEN })
}

fn print_off(rt: &impl Print, name: &str, reading: Reading, off: &[u16]) -> io::Result<()> {
    print_day(rt, name, reading, &Day { off, ..OPEN })
}

// Which of two lists to offer, and the part that is handed back.
fn print_better(
    rt: &impl Print,
    name: &str,
    reading: Reading,
    first: &[u16],
    second: &[u16],
) -> io::Result<()> {
    let compared = Compared(offers::compare(reading, first, second));
    let list = List(offers::better(reading, first, second));
    println!(rt; "{name}: {compared}{list}")
}

// The outputs of a trajectory, and 0 after them.
fn trajectory(outputs: &[u16]) -> [Output; STAGES] {
    let mut stages = [Output(0); STAGES];
    for (stage, &output) in stages.iter_mut().zip(outputs) {
        *stage = Output(output);
    }
    stages
}

// The scope's small unit, off-line for two hours, before an hour at a price of F without orders.
fn small() -> Case {
    Case {
        capacity: Output(4),
        minimum: Output(2),
        rampup: Output(1),
        rampdown: Output(1),
        minup: Hour(1),
        mindown: Hour(1),
        variable: Mills(10),
        fixed: Mills(1),
        startcost: Mills(3),
        stopcost: Mills(2),
        initial: Output(0),
        elapsed: Hour(2),
        upstage: 0,
        downstage: 0,
        rise: trajectory(&[1, 2]),
        fall: trajectory(&[2, 1]),
        prices: [Mills(10); HOURS],
        orders: [0; HOURS],
        rises: 2,
        falls: 2,
        hours: 1,
    }
}

// A unit with three outputs to a trajectory, of which 2 MW is one of both, on an hour at a price of F.
fn staged() -> Case {
    Case {
        capacity: Output(6),
        minimum: Output(4),
        rampup: Output(2),
        rampdown: Output(2),
        rise: trajectory(&[1, 2, 4]),
        fall: trajectory(&[4, 2, 1]),
        rises: 3,
        falls: 3,
        ..small()
    }
}

// A day after two hours in the same state, without orders: p(0), T, the price.
fn plain(initial: Output, hours: Hour, price: Mills) -> Reading {
    codec::admit(Case {
        initial,
        hours: hours.0.into(),
        prices: [price; HOURS],
        ..small()
    })
}

// An hour of the unit off-line, and of the unit at 2 MW.
fn idle(price: Mills, order: u8) -> Reading {
    codec::admit(Case {
        prices: [price; HOURS],
        orders: [order; HOURS],
        ..small()
    })
}

fn running(price: Mills) -> Reading {
    plain(Output(2), Hour(1), price)
}

// The known days 1 to 7, which have no orders.
fn print_free(rt: &impl Print) -> io::Result<()> {
    print_best(rt, "1", idle(Mills(10), 0))?;
    print_best(rt, "2", idle(Mills(18), 0))?;
    print_best(rt, "3", idle(Mills(19), 0))?;
    print_best(rt, "4", running(Mills(10)))?;
    print_best(rt, "5", plain(Output(2), Hour(2), Mills(5)))?;
    print_best(rt, "6", plain(Output(3), Hour(2), Mills(5)))?;
    print_best(rt, "7", plain(Output(3), Hour(3), Mills(5)))
}

// The known days 8 to 12: those with orders, and the lists that are checked.
fn print_ordered(rt: &impl Print) -> io::Result<()> {
    let mut orders = [0; HOURS];
    orders[1] = 1;
    orders[3] = 2;
    let mut day = Case {
        hours: 4,
        orders,
        ..small()
    };
    let early = Case {
        elapsed: Hour(1),
        mindown: Hour(2),
        orders: [1; HOURS],
        ..small()
    };
    print_best(rt, "8", codec::admit(day))?;
    print_check(rt, "9", idle(Mills(10), 0), &[2])?;
    print_check(rt, "10", running(Mills(10)), &[4])?;
    print_best(rt, "11", codec::admit(early))?;
    day.orders[0] = 2;
    print_best(rt, "12", codec::admit(day))
}

// At a price of F and above it: one list passes; both do, and the higher profit, or the lower output, wins; identical
// lists; neither passes.
fn print_pairs(rt: &impl Print) -> io::Result<()> {
    let level = running(Mills(10));
    let dear = running(Mills(12));
    print_better(rt, "one passes", level, &[2], &[4])?;
    print_better(rt, "the other passes", dear, &[4], &[3])?;
    print_better(rt, "3 earns more", dear, &[3], &[2])?;
    print_better(rt, "3 earns more", dear, &[2], &[3])?;
    print_better(rt, "equal profit", level, &[2], &[3])?;
    print_better(rt, "equal profit", level, &[3], &[2])?;
    print_better(rt, "identical", level, &[2], &[2])?;
    print_better(rt, "neither passes", level, &[4], &[0])
}

// A first and a second list of another length; and a case that is refused, which comes before 9.
fn print_refused_pairs(rt: &impl Print) -> io::Result<()> {
    let level = running(Mills(10));
    let refused = plain(Output(1), Hour(1), Mills(10));
    print_better(rt, "first of 2 outputs", level, &[2, 2], &[2])?;
    print_better(rt, "second of 2 outputs", level, &[2], &[2, 2])?;
    print_better(rt, "refused case", refused, &[2, 2], &[2])
}

// Below zero: staying off-line earns 0, and an order on-line is kept at a loss; above 65.535 dollars.
fn print_prices(rt: &impl Print) -> io::Result<()> {
    print_best(rt, "-5 mills, free", idle(Mills(-5), 0))?;
    print_best(rt, "-5 mills, on-line", idle(Mills(-5), 1))?;
    print_best(rt, "65536 mills", running(Mills(65536)))?;
    print_best(rt, "100000 mills", running(Mills(100000)))
}

// The limits of a price, above 0 and below, and a mill past each; a price past the last hour is not looked at.
fn print_limits(rt: &impl Print) -> io::Result<()> {
    print_best(rt, "most", running(Mills(MOST_PRICE)))?;
    print_best(rt, "past the most", running(Mills(MOST_PRICE + 1)))?;
    print_best(rt, "least", running(Mills(-MOST_PRICE)))?;
    print_best(rt, "past the least", running(Mills(-MOST_PRICE - 1)))?;
    let mut case = small();
    case.prices[1] = Mills(MOST_PRICE + 1);
    print_best(rt, "past the last hour", codec::admit(case))?;
    case.hours = 2;
    print_best(rt, "in the last hour", codec::admit(case))
}

// A day of the unit off-line at a price of F, with one order for every hour: what is ordered on-line costs.
fn quiet(hours: Hour, order: u8) -> Reading {
    codec::admit(Case {
        hours: hours.0.into(),
        orders: [order; HOURS],
        ..small()
    })
}

// Days of 23 and 25 hours; a window holds its first hour and not the hour after its last; windows that touch.
fn print_windows(rt: &impl Print) -> io::Result<()> {
    let short = Day {
        hours: Hour(23),
        ..OPEN
    };
    let long = Day {
        on: &[100, 25],
        hours: Hour(25),
        ..OPEN
    };
    let day = quiet(Hour(24), 0);
    print_day(rt, "23 hours, no window", quiet(Hour(23), 0), &short)?;
    print_day(rt, "25 hours on-line", quiet(Hour(25), 0), &long)?;
    print_on(rt, "hour 2 on-line", day, &[101, 1])?;
    print_on(rt, "ends at hour 1", day, &[90, 10])?;
    print_on(rt, "begins after hour 24", day, &[124, 10])?;
    print_on(rt, "touching", day, &[100, 2, 102, 2])
}

// The windows replace the case's own orders, which 8 still tests; a start that the unit cannot make is 11.
fn print_replaced(rt: &impl Print) -> io::Result<()> {
    let own = quiet(Hour(24), 1);
    let late = codec::admit(Case {
        elapsed: Hour(1),
        mindown: Hour(2),
        hours: 24,
        ..small()
    });
    print_off(rt, "own on-line, off-line by a window", own, &[100, 24])?;
    print_day(rt, "own on-line, no window", own, &OPEN)?;
    print_off(rt, "own order 3", quiet(Hour(24), 3), &[100, 24])?;
    print_on(rt, "too early", late, &[100, 1])
}

// 15: both lists hold an hour of the day, and not only one of another day.
fn print_meeting(rt: &impl Print) -> io::Result<()> {
    let day = quiet(Hour(24), 0);
    let both = Day {
        on: &[100, 2],
        off: &[101, 2],
        ..OPEN
    };
    let another = Day {
        first: Hour(200),
        ..both
    };
    print_day(rt, "both lists", day, &both)?;
    print_day(rt, "both lists, another day", day, &another)
}

// 2: T is not the day's number of hours, also where the record would be refused by 3.
fn print_other_day(rt: &impl Print) -> io::Result<()> {
    let short = Day {
        hours: Hour(23),
        ..OPEN
    };
    let reading = quiet(Hour(24), 0);
    let wrong = Reading {
        outcome: Ok(()),
        case: Case {
            minimum: Output(0),
            ..reading.case
        },
    };
    print_day(rt, "T 24 of 23 hours", reading, &short)?;
    print_day(rt, "T 24 of 23 hours, minimum 0", wrong, &short)?;
    print_day(rt, "T 24 of 24 hours, minimum 0", wrong, &OPEN)
}

// 14: windows that are not whole, empty, unsorted, overlapping or past the year.
fn print_misplaced(rt: &impl Print) -> io::Result<()> {
    let day = quiet(Hour(24), 0);
    print_on(rt, "odd", day, &[100])?;
    print_on(rt, "unsorted", day, &[200, 5, 100, 5])?;
    print_on(rt, "past 8784", day, &[8783, 2])?;
    print_off(rt, "empty", day, &[100, 0])?;
    print_off(rt, "overlapping", day, &[100, 5, 104, 5])
}

// The last day of the year; 14 for a day past it and for one of another length.
fn print_edges(rt: &impl Print) -> io::Result<()> {
    let day = quiet(Hour(24), 0);
    let last = Day {
        first: Hour(8760),
        ..OPEN
    };
    let past = Day {
        first: Hour(8761),
        ..OPEN
    };
    let short = Day {
        hours: Hour(22),
        ..OPEN
    };
    print_day(rt, "day up to 8784", day, &last)?;
    print_day(rt, "day past 8784", day, &past)?;
    print_day(rt, "day of 22 hours", quiet(Hour(22), 0), &short)
}

// The best list of two hours from an opening of the unit with longer trajectories, or the refusal of the opening: p(0),
// h, start-up stage, shut-down stage.
fn print_opening(
    rt: &impl Print,
    name: &str,
    initial: Output,
    elapsed: Hour,
    upstage: u8,
    downstage: u8,
) -> io::Result<()> {
    let case = Case {
        initial,
        elapsed,
        upstage,
        downstage,
        hours: 2,
        ..staged()
    };
    print_best(rt, name, codec::admit(case))
}

// Each stage of a start-up and of a shut-down.
fn print_openings(rt: &impl Print) -> io::Result<()> {
    print_opening(rt, "start-up stage 1", Output(1), Hour(1), 1, 0)?;
    print_opening(rt, "start-up stage 2", Output(2), Hour(2), 2, 0)?;
    print_opening(rt, "shut-down stage 2", Output(2), Hour(4), 0, 2)?;
    print_opening(rt, "shut-down stage 3", Output(1), Hour(5), 0, 3)?;
    print_opening(rt, "h 10000", Output(1), Hour(10000), 0, 3)
}

// 7: each condition of a stage.
fn print_stages(rt: &impl Print) -> io::Result<()> {
    print_opening(rt, "both stages", Output(2), Hour(2), 2, 2)?;
    print_opening(rt, "start-up stage 3 of 3", Output(4), Hour(3), 3, 0)?;
    print_opening(rt, "not the output of stage 1", Output(2), Hour(1), 1, 0)?;
    print_opening(rt, "h not stage 2", Output(2), Hour(3), 2, 0)?;
    print_opening(rt, "shut-down stage 1", Output(4), Hour(4), 0, 1)?;
    print_opening(rt, "shut-down stage 4 of 3", Output(1), Hour(9), 0, 4)?;
    print_opening(rt, "not the output of stage 3", Output(2), Hour(5), 0, 3)?;
    print_opening(rt, "h below UD + stage - 1", Output(1), Hour(4), 0, 3)?;
    print_opening(rt, "h 10001", Output(1), Hour(10001), 0, 3)?;
    print_opening(rt, "2 MW without a stage", Output(2), Hour(9), 0, 0)
}

// Days that close at each output of a shut-down, and after it; a shut-down that goes on past the day; one whose stop
// comes before the minimum up time.
fn print_closings(rt: &impl Print) -> io::Result<()> {
    let mut low = Case {
        initial: Output(4),
        elapsed: Hour(3),
        prices: [Mills(5); HOURS],
        ..staged()
    };
    let mut second = Case {
        initial: Output(2),
        elapsed: Hour(4),
        downstage: 2,
        ..low
    };
    print_best(rt, "closes at PD(2)", codec::admit(low))?;
    low.hours = 2;
    print_best(rt, "closes at PD(3)", codec::admit(low))?;
    low.hours = 3;
    print_best(rt, "closes at 0", codec::admit(low))?;
    print_best(rt, "opens and closes in a shut-down", codec::admit(second))?;
    second.hours = 2;
    second.minup = Hour(6);
    print_best(rt, "opening stop too early", codec::admit(second))?;
    second.minup = Hour(5);
    print_best(rt, "opening stop late enough", codec::admit(second))
}

// 2 MW is PU(2) in a start-up and PD(2) after it; rule 21 at the stop after T, which stands at hour 6.
fn print_shared(rt: &impl Print) -> io::Result<()> {
    let mut rising = Case {
        elapsed: Hour(1),
        minup: Hour(8),
        hours: 2,
        ..staged()
    };
    let above = Case {
        initial: Output(5),
        elapsed: Hour(9),
        ..staged()
    };
    print_check(rt, "2 MW in a start-up", codec::admit(rising), &[1, 2])?;
    rising.minup = Hour(5);
    rising.hours = 4;
    print_check(
        rt,
        "2 MW after a start-up",
        codec::admit(rising),
        &[1, 2, 4, 2],
    )?;
    rising.minup = Hour(6);
    print_check(
        rt,
        "stop after T too early",
        codec::admit(rising),
        &[1, 2, 4, 2],
    )?;
    print_check(rt, "2 MW from above", codec::admit(above), &[2])
}

// The small unit after two hours on-line, with these minimum times and prices that pay for no hour: it stops as soon as
// it may.
fn held(minup: Hour, mindown: Hour, hours: Hour) -> Reading {
    codec::admit(Case {
        initial: Output(2),
        minup,
        mindown,
        hours: hours.0.into(),
        prices: [Mills(0); HOURS],
        ..small()
    })
}

// Minimum times from 9 to 25.
fn print_times(rt: &impl Print) -> io::Result<()> {
    let nine = held(Hour(9), Hour(1), Hour(9));
    print_best(rt, "minimum up time 9, 8192 numbers", nine)?;
    print_long(rt, "minimum up time 9", nine)?;
    print_long(rt, "minimum up time 20", held(Hour(20), Hour(1), Hour(21)))?;
    print_long(rt, "minimum times 24", held(Hour(24), Hour(24), Hour(26)))?;
    print_long(rt, "minimum up time 25", held(Hour(25), Hour(1), Hour(26)))
}

// The source's day, and the days of its Table V: the same prices for 48, 96 and 168 hours; and an hour more.
fn print_source(rt: &impl Print, file: &[u8]) -> io::Result<()> {
    let reading = codec::read(file);
    let mut case = reading.case;
    print_best(rt, "source", reading)?;
    // the prices of days that are alike: those of the first again and again
    for k in DAY..HOURS {
        case.prices[k] = case.prices[k - DAY];
    }
    case.hours = 2 * DAY;
    print_best(rt, "source, 48 hours", codec::admit(case))?;
    case.hours = 4 * DAY;
    print_best(rt, "source, 96 hours", codec::admit(case))?;
    case.hours = 7 * DAY;
    print_best(rt, "source, 168 hours", codec::admit(case))?;
    case.hours = 7 * DAY + 1;
    print_best(rt, "source, 169 hours", codec::admit(case))
}

// Lists of the source's day: the one that the source prints, and an output that is held.
fn print_lists(rt: &impl Print, file: &[u8]) -> io::Result<()> {
    let list = [
        120, 112, 70, 30, 0, 0, 0, 37, 75, 112, 172, 232, 292, 294, 294, 294, 294, 294, 294, 294,
        294, 244, 194, 144,
    ];
    let reading = codec::read(file);
    print_check(rt, "source, printed list", reading, &list)?;
    print_check(rt, "source, 120 held", reading, &[120; DAY])?;
    print_check(rt, "source, 115 held", reading, &[115; DAY])?;
    print_check(rt, "source, 23 outputs", reading, &[120; DAY - 1])
}

// The source's case written, and read again in form 3; a form that has another unit, and one that there is not.
fn print_forms(rt: &impl Print, file: &[u8]) -> io::Result<()> {
    let mut bytes = [0; SOURCE_NEW];
    match codec::write(codec::read(file).case, &mut bytes) {
        Ok(length) => println!(rt; "source, bytes of form 3: {length}")?,
        Err(refusal) => println!(rt; "source, not written: {}", refusal.0)?,
    }
    print_best(rt, "source, form 3", codec::read(&bytes))?;
    bytes[SOURCE_NEW - FORM_BYTES] = 2;
    print_best(
        rt,
        "source, form 2 with a unit of 34 bytes",
        codec::read(&bytes),
    )?;
    bytes[SOURCE_NEW - FORM_BYTES] = 4;
    print_best(rt, "source, form 4", codec::read(&bytes))
}

// The days that the program holds itself.
fn print_held(rt: &impl Print) -> io::Result<()> {
    print_free(rt)?;
    print_ordered(rt)?;
    print_pairs(rt)?;
    print_refused_pairs(rt)?;
    print_prices(rt)?;
    print_limits(rt)?;
    print_windows(rt)?;
    print_replaced(rt)?;
    print_meeting(rt)?;
    print_other_day(rt)?;
    print_misplaced(rt)?;
    print_edges(rt)?;
    print_openings(rt)?;
    print_stages(rt)?;
    print_closings(rt)?;
    print_shared(rt)?;
    print_times(rt)
}

fn main(rt: HostRuntime) -> io::Result<()> {
    print_held(&rt)?;
    let mut file = [0; SOURCE + 1];
    let n = read_full(&mut rt.reader(), &mut file)?;
    print_source(&rt, &file[..n])?;
    print_lists(&rt, &file[..n])?;
    print_best(&rt, "source, a byte long", codec::read(&file))?;
    print_forms(&rt, &file[..n])
}
