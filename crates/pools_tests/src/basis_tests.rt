use crate::places::by_place;
use pools::basis::{Basis, Exemption, FixedShares, Withdrawn};

#[test]
fn withdrawn_is_capped(rt: HostRuntime) {
    for (place, withdrawn, weight) in [
        (0, 0, 0),
        (31, 6_399_999, 6_399_999),
        (0, 6_400_000, 6_400_000),
        (0, 6_400_001, 6_400_000),
        (0, u32::MAX, 6_400_000),
    ] {
        assert_eq!(rt; Withdrawn.weight(place, withdrawn), weight);
    }
}

#[test]
fn fixed_shares_are_capped_and_end_at_place_31(rt: HostRuntime) {
    let mut shares = by_place([9_999, 10_000, 10_001]);
    shares[31] = 7;
    let basis = FixedShares { shares };
    for (place, weight) in [(0, 9_999), (1, 10_000), (2, 10_000), (31, 7), (32, 0)] {
        assert_eq!(rt; basis.weight(place, 5), weight);
    }
}

#[test]
fn exemptions_nest(rt: HostRuntime) {
    let pile = Exemption {
        exempt: by_place([false, true, false]),
        below: Exemption {
            exempt: by_place([false, false, true]),
            below: Withdrawn,
        },
    };
    for (place, weight) in [(0, 40), (1, 0), (2, 0), (3, 40), (32, 40)] {
        assert_eq!(rt; pile.weight(place, 40), weight);
    }
}
