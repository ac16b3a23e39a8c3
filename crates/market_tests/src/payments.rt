use crate::makers::{kwh, micro};
use units::{Fen, Grains, Payment, fee, pay};

fn paid(fen: i64, carry: i64) -> Option<Payment> {
    Some(Payment {
        fen: Fen::from_count(fen),
        carry: Grains::from_count(carry),
    })
}

fn of(net: i64, carry: i64) -> Option<Payment> {
    pay(Grains::from_count(net), Grains::from_count(carry))
}

#[test]
fn rounds_down_below_zero_too(rt: HostRuntime) {
    assert_eq!(rt; of(252_488_000, 0), paid(252, 488_000));
    assert_eq!(rt; of(-1, 0), paid(-1, 999_999));
    assert_eq!(rt; of(-1_000_000, 0), paid(-1, 0));
    assert_eq!(rt; of(-1_000_001, 1), paid(-1, 0));
    assert_eq!(rt; of(999_999, 1), paid(1, 0));
}

#[test]
fn declines_what_does_not_fit(rt: HostRuntime) {
    assert_eq!(rt; of(i64::MAX, 1), None);
    assert_eq!(rt; of(i64::MIN, -1), None);
    assert_eq!(rt; kwh(u64::MAX).hundredths(), None);
    assert_eq!(rt; kwh(u64::MAX).worth(micro(1)), None);
    assert_eq!(rt; kwh(u64::MAX).worth(micro(0)), Some(Grains::from_count(0)));
}

#[test]
fn a_fee_has_a_sign(rt: HostRuntime) {
    assert_eq!(rt;
        fee(kwh(10), micro(3), micro(1)),
        Some(Grains::from_count(2_000))
    );
    assert_eq!(rt;
        fee(kwh(10), micro(1), micro(3)),
        Some(Grains::from_count(-2_000))
    );
}

#[test]
fn limits_are_inclusive(rt: HostRuntime) {
    assert!(rt; kwh(3_000_000_000).within_limit());
    assert!(rt; !kwh(3_000_000_001).within_limit());
    assert!(rt; micro(1_000_000).within_limit());
    assert!(rt; !micro(1_000_001).within_limit());
    assert!(rt; Fen::from_count(100_000_000).within_compensation_limit());
    assert!(rt; !Fen::from_count(-1).within_compensation_limit());
    assert!(rt; Grains::from_count(-300_000_000_000_000_000).within_side_limit());
    assert!(rt; !Grains::from_count(-300_000_000_000_000_001).within_side_limit());
}
