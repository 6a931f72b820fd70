//! Facts: which words they hold of, and their hulls and meets.
use term_form::{Facts, holds, hull, meet};

/// Facts of which nothing is known.
const ANY: Facts = Facts {
    low: i32::MIN,
    high: i32::MAX,
    least: 0,
    most: u32::MAX,
    zeros: 0,
    ones: 0,
    modulus: 1,
    rest: 0,
};

/// What is known of one word.
fn only(word: u32) -> Facts {
    Facts {
        low: word.cast_signed(),
        high: word.cast_signed(),
        least: word,
        most: word,
        zeros: !word,
        ones: word,
        modulus: 0,
        rest: word,
    }
}

#[test]
fn words_that_facts_hold_of(rt: HostRuntime) {
    let listed = Facts {
        low: 1,
        high: 10,
        least: 1,
        most: 10,
        zeros: 0xffff_fff0,
        ones: 0,
        modulus: 1,
        rest: 0,
    };
    let thirds = Facts {
        modulus: 3,
        rest: 2,
        ..ANY
    };
    let wide = Facts {
        modulus: 4_000_000_000,
        rest: 3_000_000_000,
        ..ANY
    };
    let cases = [
        (ANY, 0x8000_0000, true),
        (listed, 10, true),
        (listed, 0, false),
        (listed, 11, false),
        (only(0xffff_ffff), 0xffff_ffff, true),
        (only(0xffff_ffff), 0, false),
        (Facts { zeros: 1, ..ANY }, 3, false),
        (Facts { ones: 6, ..ANY }, 4, false),
        (Facts { high: -1, ..ANY }, 0x8000_0000, true),
        (Facts { high: -1, ..ANY }, 5, false),
        (Facts { most: 5, ..ANY }, 0x8000_0000, false),
        (thirds, 5, true),
        (thirds, 0xffff_ffff, true),
        (thirds, 0xffff_fffe, false),
        (wide, 3_294_967_296, true),
        (wide, 3_000_000_000, false),
    ];
    for (facts, word, answer) in cases {
        assert_eq!(rt; holds(&facts, word), answer, "{facts:?} of {word}");
    }
}

#[test]
fn hulls_and_meets(rt: HostRuntime) {
    let even = hull(&only(0xffff_fffe), &only(6));
    assert_eq!(rt;
        even,
        Facts {
            low: -2,
            high: 6,
            least: 6,
            most: 0xffff_fffe,
            zeros: 1,
            ones: 6,
            modulus: 8,
            rest: 6
        }
    );
    let twelve = hull(
        &Facts {
            modulus: 24,
            rest: 5,
            ..ANY
        },
        &Facts {
            modulus: 36,
            rest: 17,
            ..ANY
        },
    );
    assert_eq!(rt;
        twelve,
        Facts {
            modulus: 12,
            rest: 5,
            ..ANY
        }
    );
    assert_eq!(rt; hull(&only(7), &only(7)), only(7));
    assert_eq!(rt;
        hull(&only(0x8000_0000), &only(0x7fff_ffff)).modulus,
        u32::MAX
    );
    assert_eq!(rt;
        meet(
            &even,
            &Facts {
                low: 0,
                most: 100,
                modulus: 4,
                rest: 2,
                ..ANY
            }
        ),
        Facts {
            low: 0,
            high: 6,
            least: 6,
            most: 100,
            zeros: 1,
            ones: 6,
            modulus: 8,
            rest: 6
        }
    );
    assert_eq!(rt; meet(&ANY, &only(7)), only(7));
    assert_eq!(rt; meet(&only(7), &ANY), only(7));
}
