use ci_http_messages::payloads::range::start_in;
use ci_values::number::{id_in, is_number, number_within, value_within};
use std::test::Fail;

// Texts, and the number of a record that each is.
const IDS: &[(&[u8], Option<u64>)] = &[
    (b"1", Some(1)),
    (b"10", Some(10)),
    (b"9007199254740991", Some(9_007_199_254_740_991)),
    (b"9007199254740992", None),
    (b"18446744073709551617", None),
    (b"", None),
    (b"0", None),
    (b"01", None),
    (b"+1", None),
    (b"-1", None),
    (b" 1", None),
    (b"1x", None),
    (b"1.0", None),
    (b"request", None),
];

#[test]
fn numbers_of_records(rt: HostRuntime) -> Result<(), Fail> {
    for (text, wanted) in IDS {
        assert!(&rt; id_in(text) == *wanted);
    }
    Ok(())
}

#[test]
fn numbers_within_a_limit(rt: HostRuntime) -> Result<(), Fail> {
    assert!(&rt; number_within(65_536, b"65536") == Some(65_536));
    assert!(&rt; number_within(65_536, b"65537") == None);
    assert!(&rt; number_within(65_536, b"0065536") == Some(65_536));
    assert!(&rt; number_within(65_536, b"") == None);
    assert!(&rt; number_within(65_536, b"+1") == None);
    assert!(&rt; is_number(b"00"));
    assert!(&rt; !is_number(b"0x"));
    assert!(&rt; value_within(7, b"007") == Some(7));
    assert!(&rt; value_within(7, b"8") == None);
    Ok(())
}

// Lengths and ranges of pieces, and where each piece begins.
const RANGES: &[(u64, &[u8], Option<u64>)] = &[
    (5, b"5-9", Some(5)),
    (1, b"0-0", Some(0)),
    (2, b"0000000000000005-0000000000000006", Some(5)),
    (
        2,
        b"9999999999999998-9999999999999999",
        Some(9_999_999_999_999_998),
    ),
    (10_000_000_000_000_000, b"0-9999999999999999", Some(0)),
    (2, b"00000000000000005-0000000000000006", None),
    (2, b"0000000000000005-00000000000000006", None),
    (2, b"9999999999999999-10000000000000000", None),
    (0, b"10-9", None),
    (0, b"0-0", None),
    (4, b"5-9", None),
    (6, b"5-9", None),
    (5, b"9-5", None),
    (5, b"", None),
    (5, b"-", None),
    (5, b"5", None),
    (5, b"5-", None),
    (5, b"-9", None),
    (5, b"5-9-", None),
    (5, b"5--9", None),
    (5, b"+5-9", None),
    (5, b"5 - 9", None),
    (5, b"bytes 5-9", None),
];

#[test]
fn ranges_of_pieces(rt: HostRuntime) -> Result<(), Fail> {
    for (len, range, wanted) in RANGES {
        assert!(&rt; start_in(*len, range) == *wanted);
    }
    Ok(())
}
