//! Widening: bounds move to thresholds or go to their ends, bits and congruences take the hull or go.
use domain_laws::{Widening, widened};
use term_form::{Facts, anything, only};

/// Facts that tell the signed interval alone.
fn signed(low: i32, high: i32) -> Facts {
    Facts {
        low,
        high,
        ..anything()
    }
}

/// Facts that tell the unsigned interval alone.
fn unsigned(least: u32, most: u32) -> Facts {
    Facts {
        least,
        most,
        ..anything()
    }
}

#[test]
fn bounds_move_to_thresholds(rt: HostRuntime) {
    let cases = [
        (signed(0, 0), signed(1, 1), signed(0, 127)),
        (signed(0, 10), signed(-5, 3), signed(-128, 10)),
        (signed(0, 10), signed(-1, 255), signed(-1, 255)),
        (signed(0, 10), signed(0, 256), signed(0, 32767)),
        (
            signed(-128, 10),
            signed(-129, 65536),
            signed(-32768, 2147483647),
        ),
        (signed(5, 10), signed(-40000, 10), signed(-2147483648, 10)),
        (signed(0, 10), signed(2, 9), signed(0, 10)),
        (unsigned(1, 1), unsigned(0, 2), unsigned(0, 127)),
        (
            unsigned(300, 400),
            unsigned(256, 70000),
            unsigned(255, 2147483647),
        ),
        (
            unsigned(0, 0),
            unsigned(0, 2147483648),
            unsigned(0, 4294967295),
        ),
    ];
    for (assumed, back, expected) in cases.iter() {
        assert_eq!(rt;
            widened(assumed, back, Widening::Threshold),
            *expected,
            "{assumed:?} by {back:?}"
        );
    }
}

#[test]
fn bounds_go_to_their_ends(rt: HostRuntime) {
    let cases = [
        (signed(0, 0), signed(1, 1), signed(0, 2147483647)),
        (signed(0, 10), signed(-5, 3), signed(-2147483648, 10)),
        (unsigned(1, 9), unsigned(1, 10), unsigned(1, 4294967295)),
        (unsigned(1, 9), unsigned(0, 9), unsigned(0, 9)),
    ];
    for (assumed, back, expected) in cases.iter() {
        assert_eq!(rt;
            widened(assumed, back, Widening::Extreme),
            *expected,
            "{assumed:?} by {back:?}"
        );
    }
}

#[test]
fn bits_and_congruences_take_the_hull_or_go(rt: HostRuntime) {
    let tens = Facts {
        ones: 10,
        zeros: 5,
        modulus: 6,
        rest: 4,
        ..anything()
    };
    let eights = Facts {
        ones: 8,
        zeros: 7,
        modulus: 4,
        rest: 0,
        ..anything()
    };
    let hulled = Facts {
        ones: 8,
        zeros: 5,
        modulus: 2,
        rest: 0,
        ..anything()
    };
    assert_eq!(rt; widened(&tens, &eights, Widening::Threshold), hulled);
    assert_eq!(rt; widened(&tens, &eights, Widening::Extreme), anything());
    assert_eq!(rt; widened(&tens, &tens, Widening::Extreme), tens);
    let bits_alone = Facts {
        ones: 10,
        zeros: 5,
        ..anything()
    };
    let by_ten = Facts {
        low: 0,
        high: 2147483647,
        least: 0,
        ..anything()
    };
    assert_eq!(rt; widened(&bits_alone, &tens, Widening::Extreme), bits_alone);
    assert_eq!(rt; widened(&only(0), &only(10), Widening::Extreme), by_ten);
}
