use crate::{Sense, number, sensed_value, signed_number};
use tdl_base::{ModuleId, Us};

#[test]
fn numbers_have_1_to_19_digits(rt: HostRuntime) {
    let cases = [
        (b"0".as_slice(), Some(0)),
        (b"0000000000000000010".as_slice(), Some(10)),
        (
            b"9999999999999999999".as_slice(),
            Some(9_999_999_999_999_999_999),
        ),
        (b"00000000000000000010".as_slice(), None),
        (b"".as_slice(), None),
        (b"-1".as_slice(), None),
        (b"1x".as_slice(), None),
        (b"+1".as_slice(), None),
    ];
    for (word, wanted) in cases {
        assert_eq!(rt; number(word), wanted, "{word:?}");
    }
}

#[test]
fn one_minus_may_stand_before_a_number(rt: HostRuntime) {
    let cases = [
        (b"-0".as_slice(), Some(0)),
        (b"-2147483648".as_slice(), Some(-2_147_483_648)),
        (b"7".as_slice(), Some(7)),
        (b"-".as_slice(), None),
        (b"--1".as_slice(), None),
    ];
    for (word, wanted) in cases {
        assert_eq!(rt; signed_number(word), wanted, "{word:?}");
    }
}

fn entry(sensor: u16, at: u64, value: i64) -> Sense {
    Sense {
        module: ModuleId(0),
        sensor,
        at: Us(at),
        value,
    }
}

#[test]
fn a_sensor_reads_its_last_entry(rt: HostRuntime) {
    let senses = [entry(0, 3, 7), entry(1, 4, 9), entry(0, 6, 8)];
    for (sensor, at, wanted) in [(0, 2, 0), (0, 3, 7), (0, 5, 7), (0, 6, 8), (1, 9, 9)] {
        let value = sensed_value(&senses, ModuleId(0), sensor, Us(at));
        assert_eq!(rt; value, wanted, "{sensor} at {at}");
    }
}
