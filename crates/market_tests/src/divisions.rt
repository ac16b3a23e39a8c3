use crate::makers::kwh;
use market::{Refusal, divide};
use units::Energy;

fn seven(claims: [u64; 7]) -> [Energy; 7] {
    claims.map(kwh)
}

#[test]
fn fills_in_order(rt: HostRuntime) {
    let claims = seven([3, 0, 4, 5, 0, 2, 1]);
    let mut parts = [kwh(9); 7];
    assert_eq!(rt; divide(kwh(10), &claims, &mut parts), Ok((kwh(0), kwh(5))));
    assert_eq!(rt; parts, seven([3, 0, 4, 3, 0, 0, 0]));
    assert_eq!(rt; divide(kwh(17), &claims, &mut parts), Ok((kwh(2), kwh(0))));
    assert_eq!(rt; parts, claims);
    assert_eq!(rt; divide(kwh(0), &claims, &mut parts), Ok((kwh(0), kwh(15))));
    assert_eq!(rt; parts, [kwh(0); 7]);
}

#[test]
fn large_claims_need_no_product(rt: HostRuntime) {
    let claims = [kwh(3_000_000_000); 7];
    let mut parts = [kwh(0); 7];
    assert_eq!(rt;
        divide(kwh(3_000_000_000), &claims, &mut parts),
        Ok((kwh(0), kwh(18_000_000_000)))
    );
    assert_eq!(rt; parts, seven([3_000_000_000, 0, 0, 0, 0, 0, 0]));
}

#[test]
fn declines_lengths_before_limits(rt: HostRuntime) {
    let claims = [kwh(3_000_000_001); 7];
    let mut six = [kwh(1); 6];
    let mut parts = [kwh(1); 7];
    assert_eq!(rt;
        divide(kwh(1), &claims, &mut six),
        Err(Refusal::SliceLength)
    );
    assert_eq!(rt; divide(kwh(1), &six, &mut parts), Err(Refusal::SliceLength));
    assert_eq!(rt;
        divide(kwh(1), &claims, &mut parts),
        Err(Refusal::PastLimit)
    );
    assert_eq!(rt;
        divide(kwh(3_000_000_001), &[kwh(0); 7], &mut parts),
        Err(Refusal::PastLimit)
    );
    assert_eq!(rt; parts, [kwh(1); 7]);
    assert_eq!(rt; Refusal::SliceLength.number(), 11);
}
