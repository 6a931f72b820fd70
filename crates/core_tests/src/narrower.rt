//! Facts that are narrower than others, and the two ends of that order.
use term_form::{Facts, anything, holds, is_narrower, only};

#[test]
fn narrower_part_by_part(rt: HostRuntime) {
    let small = Facts {
        low: 0,
        high: 10,
        ..anything()
    };
    let smaller = Facts {
        low: 1,
        high: 10,
        ..anything()
    };
    let sixths = Facts {
        modulus: 6,
        rest: 4,
        ..anything()
    };
    let thirds = Facts {
        modulus: 3,
        rest: 1,
        ..anything()
    };
    let odd = Facts {
        ones: 1,
        ..anything()
    };
    let cases = [
        (only(5), anything(), true),
        (anything(), only(5), false),
        (only(5), only(5), true),
        (only(5), only(6), false),
        (smaller, small, true),
        (small, smaller, false),
        (sixths, thirds, true),
        (thirds, sixths, false),
        (only(0xffff_fffe), sixths, true),
        (only(0xffff_fffd), sixths, false),
        (only(7), odd, true),
        (only(6), odd, false),
        (odd, small, false),
    ];
    for (facts, wider, expected) in cases.iter() {
        assert_eq!(rt;
            is_narrower(facts, wider),
            *expected,
            "{facts:?} in {wider:?}"
        );
    }
}

#[test]
fn one_word_and_any_word(rt: HostRuntime) {
    assert!(rt; holds(&only(0x8000_0000), 0x8000_0000));
    assert!(rt; !holds(&only(0x8000_0000), 0));
    assert!(rt; holds(&anything(), 0x8000_0000));
    assert!(rt; holds(&anything(), 0));
}
