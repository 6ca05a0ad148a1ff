//! Worked values and edges of cells, rates, names and numbers, and writers that fail.
ghost use Rattle.rrd_fixed.specs.Rate.{IsAccepted};

use rrd_fixed::{
    Cell, Kind, Meter, Name, Number, Raw, StoredCell, admit, cell_string, near, numbered_message,
    rate, raw_string, read_number, read_whole, time_string, write_bytes,
};
use std::io::ErrorKind;
use std::test::Fail;
use test_data::streams::{Manner, PLAIN, Taker};

const TOP: i128 = 18_446_744_073_709_551_615_000_000;

const GAUGE: Kind = Kind::Gauge;

const COUNTER: Kind = Kind::Counter;

const DERIVE: Kind = Kind::Derive;

const ABSOLUTE: Kind = Kind::Absolute;

// The least and the greatest whole numbers.
const LOW: &str = "-9223372036854775808";

const HIGH: &str = "9223372036854775807";

// The greatest size of a gauge's value.
const MAX_MILLIONTHS: i128 = 999_999_999_999_999_999_999_999;

const MAX_GAUGE: &str = "999999999999999999.999999";

const MIN_GAUGE: &str = "-999999999999999999.999999";

// What a source of this kind keeps of a text: unknown if it doesn't accept it.
fn raw_of(kind: Kind, text: &str) -> Raw
    ensures { IsAccepted kind result }
{
    let Some(number) = read_number(text.as_bytes()) else {
        return Raw::Unknown;
    };
    match admit(kind, number) {
        Some(raw) => Raw::Known(raw),
        None => Raw::Unknown,
    }
}

// A kind, the old and the new value, the interval, the least and the greatest rate, and the rate, if it is known.
const RATES: &[(Kind, &str, &str, u64, [Option<i128>; 2], Option<i128>)] = &[
    (COUNTER, "4294967000", "200", 300, FREE, Some(1_653_333)),
    (COUNTER, "18446744073709551000", "85", 100, FREE, SEVEN),
    (COUNTER, "4294967296", "0", 1, FREE, Some(0)),
    (COUNTER, "U", "200", 300, FREE, None),
    (COUNTER, "200", "U", 300, FREE, None),
    (DERIVE, "10", "9", 2, FREE, Some(-500_000)),
    (DERIVE, LOW, HIGH, 1, FREE, Some(TOP)),
    (DERIVE, HIGH, LOW, 1, FREE, Some(-TOP)),
    (DERIVE, "U", "9", 2, FREE, None),
    (ABSOLUTE, "U", "100", 40, FREE, Some(2_500_000)),
    (GAUGE, "U", "5", 600, TO_FIVE, Some(5_000_000)),
    (GAUGE, "U", "5", 601, TO_FIVE, None),
    (GAUGE, "U", "5.000001", 600, TO_FIVE, None),
    (GAUGE, "U", "-5", 1, FROM_FIVE, Some(-5_000_000)),
    (GAUGE, "U", "-5.000001", 1, FROM_FIVE, None),
];

const FREE: [Option<i128>; 2] = [None, None];

const TO_FIVE: [Option<i128>; 2] = [None, Some(5_000_000)];

const FROM_FIVE: [Option<i128>; 2] = [Some(-5_000_000), None];

const SEVEN: Option<i128> = Some(7_010_000);

#[test]
fn rates(rt: HostRuntime) {
    for (kind, old, new, interval, bounds, wanted) in RATES {
        assert!(rt; 1 <= *interval && *interval <= 10_000_000_000, "{interval}");
        let (old, new) = (raw_of(*kind, old), raw_of(*kind, new));
        let found = rate(*kind, old, new, *interval, 600, bounds[0], bounds[1]);
        let wanted = wanted.map_or(Cell::Unknown, |known| Cell::Known(known));
        assert_eq!(rt; found, wanted, "{old:?} to {new:?} in {interval}");
    }
    assert_eq!(rt; near(1, 2), 1);
    assert_eq!(rt; near(-1, 2), 0);
    assert_eq!(rt; near(-3, 2), -1);
}

// A kind, a text, and what a source of the kind keeps of it.
const ACCEPTED: &[(Kind, &str, Raw)] = &[
    (COUNTER, "0", Raw::Known(0)),
    (COUNTER, "-0", Raw::Known(0)),
    (COUNTER, "-1", Raw::Unknown),
    (COUNTER, "0.0", Raw::Unknown),
    (COUNTER, "18446744073709551615", Raw::Known(MAX_COUNTER)),
    (COUNTER, "18446744073709551616", Raw::Unknown),
    (DERIVE, LOW, Raw::Known(-9_223_372_036_854_775_808)),
    (DERIVE, "-9223372036854775809", Raw::Unknown),
    (DERIVE, HIGH, Raw::Known(9_223_372_036_854_775_807)),
    (DERIVE, "9223372036854775808", Raw::Unknown),
    (DERIVE, "1.0", Raw::Unknown),
    (GAUGE, "-1.5", Raw::Known(-1_500_000)),
    (GAUGE, MAX_GAUGE, Raw::Known(MAX_MILLIONTHS)),
    (GAUGE, "1000000000000000000", Raw::Unknown),
    (ABSOLUTE, MIN_GAUGE, Raw::Known(-MAX_MILLIONTHS)),
    (ABSOLUTE, "-1000000000000000000", Raw::Unknown),
];

const MAX_COUNTER: i128 = 18_446_744_073_709_551_615;

#[test]
fn accepted_values(rt: HostRuntime) {
    for (kind, text, wanted) in ACCEPTED {
        assert_eq!(rt; raw_of(*kind, text), *wanted, "{text}");
    }
}

// A kind, millionths without a point, and what a source of the kind keeps of them.
const WITHOUT_A_POINT: &[(Kind, i128, Option<i128>)] = &[
    (COUNTER, 1_500_000, None),
    (COUNTER, 2_000_000, Some(2)),
    (COUNTER, 2_000_001, None),
    (COUNTER, 1_999_999, None),
    (DERIVE, 1_500_000, None),
    (DERIVE, -1_500_000, None),
    (DERIVE, 2_000_000, Some(2)),
    (DERIVE, -2_000_000, Some(-2)),
    (GAUGE, 1_500_000, Some(1_500_000)),
    (ABSOLUTE, -1_500_000, Some(-1_500_000)),
];

#[test]
fn numbers_that_no_text_makes(rt: HostRuntime) {
    for (kind, millionths, wanted) in WITHOUT_A_POINT {
        let number = Number {
            millionths: *millionths,
            point: false,
        };
        assert_eq!(rt; admit(*kind, number), *wanted, "{kind:?} {millionths}");
    }
}

// A kind, a raw value in units or in millionths, and whether a source of the kind accepts it.
const RAW_VALUES: &[(Kind, i128, bool)] = &[
    (COUNTER, -1, false),
    (COUNTER, 0, true),
    (COUNTER, 18_446_744_073_709_551_615, true),
    (COUNTER, 18_446_744_073_709_551_616, false),
    (DERIVE, -9_223_372_036_854_775_809, false),
    (DERIVE, -9_223_372_036_854_775_808, true),
    (DERIVE, 9_223_372_036_854_775_807, true),
    (DERIVE, 9_223_372_036_854_775_808, false),
    (GAUGE, -1_000_000_000_000_000_000_000_000, false),
    (GAUGE, -999_999_999_999_999_999_999_999, true),
    (ABSOLUTE, 999_999_999_999_999_999_999_999, true),
    (ABSOLUTE, 1_000_000_000_000_000_000_000_000, false),
];

#[test]
fn accepted_raw_values(rt: HostRuntime) {
    for (kind, value, wanted) in RAW_VALUES {
        let is_accepted = kind.accepts(Raw::Known(*value));
        assert_eq!(rt; is_accepted, *wanted, "{kind:?} {value}");
        assert!(rt; kind.accepts(Raw::Unknown), "{kind:?}");
    }
}

#[test]
fn texts_with_a_number(rt: HostRuntime) {
    let text = numbered_message("not later than ", 18_446_744_073_709_551_615);
    assert_eq!(rt; text.as_str(), "not later than 18446744073709551615");
}

// A text, and its value.
const WHOLE_NUMBERS: &[(&str, Option<u64>)] = &[
    ("0", Some(0)),
    ("00000000000000000017", Some(17)),
    ("000000000000000000017", None),
    ("18446744073709551615", Some(u64::MAX)),
    ("18446744073709551616", None),
    ("99999999999999999999", None),
    ("", None),
    ("-1", None),
    ("+1", None),
    ("1.0", None),
    ("1 ", None),
];

#[test]
fn whole_numbers(rt: HostRuntime) {
    for (text, wanted) in WHOLE_NUMBERS {
        assert_eq!(rt; read_whole(text.as_bytes()), *wanted, "{text}");
    }
}

const MANY_DIGITS: i128 = 99_999_999_999_999_999_999_999_999;

// A text, its value in millionths, and whether it has a point.
const NUMBERS: &[(&str, i128, bool)] = &[
    ("0", 0, false),
    ("-0", 0, false),
    ("007", 7_000_000, false),
    ("1.5", 1_500_000, true),
    ("-0.000001", -1, true),
    ("12.345678", 12_345_678, true),
    ("99999999999999999999", MANY_DIGITS - 999_999, false),
    ("-99999999999999999999.999999", -MANY_DIGITS, true),
];

#[test]
fn numbers(rt: HostRuntime) {
    for (text, millionths, point) in NUMBERS {
        let wanted = Number {
            millionths: *millionths,
            point: *point,
        };
        assert_eq!(rt; read_number(text.as_bytes()), Some(wanted), "{text}");
    }
    for text in [
        "",
        "-",
        "--1",
        "+1",
        "1.",
        ".5",
        "-.5",
        "1.2.3",
        "1.0000000",
        "1e3",
        "0x1",
        " 1",
        "100000000000000000000",
    ] {
        assert_eq!(rt; read_number(text.as_bytes()), None, "{text}");
    }
}

// A cell, and its text.
const CELLS: &[(Cell, &str)] = &[
    (Cell::Unknown, "nan"),
    (Cell::Known(0), "0.000000"),
    (Cell::Known(40_000), "0.040000"),
    (Cell::Known(-1), "-0.000001"),
    (Cell::Known(1_653_333), "1.653333"),
    (Cell::Known(TOP), "18446744073709551615.000000"),
    (Cell::Known(-TOP), "-18446744073709551615.000000"),
];

#[test]
fn cells(rt: HostRuntime) {
    for (cell, wanted) in CELLS {
        assert_eq!(rt; cell_string(*cell).as_str(), *wanted, "{cell:?}");
    }
}

// The number of a stored cell, and the cell.
const STORED: &[(i128, Cell)] = &[
    (i128::MIN, Cell::Unknown),
    (-TOP, Cell::Known(-TOP)),
    (0, Cell::Known(0)),
    (TOP, Cell::Known(TOP)),
];

#[test]
fn stored_cells(rt: HostRuntime) {
    for (number, cell) in STORED {
        let stored = StoredCell::of_number(*number);
        assert_eq!(rt; stored.cell(), *cell, "{number}");
        assert_eq!(rt; stored.number(), *number);
        assert_eq!(rt; stored.is_unknown(), *cell == Cell::Unknown, "{number}");
    }
    assert_eq!(rt; StoredCell::new(Cell::Known(5)).number(), 5);
    assert_eq!(rt; StoredCell::default(), StoredCell::new(Cell::Unknown));
    assert_eq!(rt; StoredCell::default(), StoredCell::unknown());
}

// A kind, a raw value, and its text.
const RAWS: &[(Kind, Raw, &str)] = &[
    (GAUGE, Raw::Unknown, "U"),
    (GAUGE, Raw::Known(1_000_000), "1.000000"),
    (COUNTER, Raw::Known(MAX_COUNTER), "18446744073709551615"),
    (DERIVE, Raw::Known(-3), "-3"),
    (ABSOLUTE, Raw::Known(-500_000), "-0.500000"),
];

#[test]
fn raws(rt: HostRuntime) {
    for (kind, raw, wanted) in RAWS {
        assert_eq!(rt;
            raw_string(*kind, *raw).as_str(),
            *wanted,
            "{kind:?} {raw:?}"
        );
    }
}

#[test]
fn times(rt: HostRuntime) {
    for (seconds, wanted) in [(0i64, "0"), (-20, "-20"), (920_804_700, "920804700")] {
        assert_eq!(rt; time_string(seconds).as_str(), wanted, "{seconds}");
    }
}

// A text, whether a name holds it, and whether that name is good.
const NAMES: &[(&str, bool, bool)] = &[
    ("speed", true, true),
    ("_A9", true, true),
    ("", true, false),
    ("a-b", true, false),
    ("nineteen_characters", true, true),
    ("twenty_characters_no", false, false),
    ("caf\u{e9}", false, false),
];

#[test]
fn names(rt: HostRuntime) {
    for (text, fits, good) in NAMES {
        let name = Name::fit(text.as_bytes());
        assert_eq!(rt; name.is_some(), *fits, "{text}");
        let Some(name) = name else {
            continue;
        };
        assert_eq!(rt; name.good(), *good, "{text}");
        assert_eq!(rt; name.as_str(), *text, "{text}");
        assert!(rt; name.same(&name.duplicate()), "{text}");
    }
}

#[test]
fn turns(rt: HostRuntime) {
    let mut meter = Meter::new();
    meter.tick();
    meter.tick();
    assert_eq!(rt; meter.turns(), 2);
}

// How often each write is interrupted, after how many bytes it fails and how, whether all is written,
// and what is.
const FAILING: &[(u64, usize, Option<ErrorKind>, bool, &str)] = &[
    (0, 12, Some(ErrorKind::Other), true, "twelve bytes"),
    (1_000, 12, Some(ErrorKind::Other), true, "twelve bytes"),
    (1_001, 12, Some(ErrorKind::Other), false, ""),
    (0, 9, Some(ErrorKind::Other), false, "twelve by"),
    (0, 7, None, false, "twelve "),
];

#[test]
fn failing_writers(rt: HostRuntime) -> Result<(), Fail> {
    for (interrupts, room, fault, whole, taken) in FAILING {
        let writing = Manner {
            at_once: 7,
            interrupts: *interrupts,
            room: *room,
            fault: *fault,
        };
        let mut out = Taker::new(rt.alloc(), writing, PLAIN);
        let written = write_bytes(&mut out, b"twelve bytes");
        assert_eq!(rt; written.is_ok(), *whole, "{interrupts} {room}");
        assert_eq!(rt;
            out.taken.as_slice(),
            taken.as_bytes(),
            "{interrupts} {room}"
        );
    }
    Ok(())
}
