//! Rows of values with types. The answers are read from the definitions by hand.
use ini_dialect::{as_bool, as_duration, as_float, as_integer, as_size};

/// Words for yes and no.
const BOOLS: [(&'static str, Option<bool>); 12] = [
    ("yes", Some(true)),
    ("On", Some(true)),
    ("TRUE", Some(true)),
    ("1", Some(true)),
    ("no", Some(false)),
    ("oFF", Some(false)),
    ("false", Some(false)),
    ("0", Some(false)),
    ("", None),
    ("y", None),
    ("2", None),
    ("yes ", None),
];

/// Numbers with units.
const INTEGERS: [(&'static str, Option<i64>); 16] = [
    ("12", Some(12)),
    ("-3", Some(-3)),
    ("+7", Some(7)),
    ("1k", Some(1024)),
    ("-2K", Some(-2048)),
    ("3m", Some(3_145_728)),
    ("1G", Some(1_073_741_824)),
    ("9223372036854775807", Some(i64::MAX)),
    ("-9223372036854775808", Some(i64::MIN)),
    ("9223372036854775808", None),
    ("8589934592g", None),
    ("k", None),
    ("1kk", None),
    ("1 k", None),
    ("1.5", None),
    ("", None),
];

/// Sizes.
const SIZES: [(&'static str, Option<u64>); 6] = [
    ("0", Some(0)),
    ("64K", Some(65_536)),
    ("17179869183g", Some(18_446_744_072_635_809_792)),
    ("17179869184g", None),
    ("-1", None),
    ("1t", None),
];

/// Spans of time, in milliseconds.
const SPANS: [(&'static str, Option<u128>); 10] = [
    ("90", Some(90_000)),
    ("90s", Some(90_000)),
    ("1min", Some(60_000)),
    ("2H", Some(7_200_000)),
    ("5ms", Some(5)),
    ("1d", Some(86_400_000)),
    ("1w", Some(604_800_000)),
    ("min", None),
    ("1y", None),
    ("1.5s", None),
];

/// Numbers with fractions.
const FLOATS: [(&'static str, Option<f64>); 5] = [
    ("1.5", Some(1.5)),
    ("-2", Some(-2.0)),
    ("1e3", Some(1000.0)),
    ("1,5", None),
    ("", None),
];

#[test]
fn values_have_types(rt: HostRuntime) {
    for (text, want) in BOOLS {
        assert!(rt; as_bool(text) == want, "{text}");
    }
    for (text, want) in INTEGERS {
        assert!(rt; as_integer(text) == want, "{text}");
    }
    for (text, want) in SIZES {
        assert!(rt; as_size(text) == want, "{text}");
    }
    for (text, want) in SPANS {
        let millis = as_duration(text).map(|span| span.as_millis());
        assert!(rt; millis == want, "{text}");
    }
    for (text, want) in FLOATS {
        assert!(rt; as_float(text) == want, "{text}");
    }
}
