// Refusals and edges of both rules.
use sharing::{EqualRatio, InOrder, Refusal, Share, admit};
use std::process::Abort;

fn declined_by<R: Share>(
    rt: &impl Abort,
    rule: &R,
    claims: &[u64],
    total: u64,
    parts: &mut [u64],
    why: Refusal,
) {
    assert_eq!(rt; rule.share(claims, total, parts), Err(why));
}

fn declined_by_both(rt: &impl Abort, claims: &[u64], total: u64, parts: &mut [u64], why: Refusal) {
    declined_by(rt, &EqualRatio, claims, total, parts, why);
    declined_by(rt, &InOrder, claims, total, parts, why);
}

#[test]
fn examples(rt: HostRuntime) {
    let mut two = [9; 2];
    assert_eq!(rt; EqualRatio.share(&[1, 1], 1, &mut two), Ok(()));
    assert_eq!(rt; two, [0, 1]);
    assert_eq!(rt; InOrder.share(&[1, 1], 1, &mut two), Ok(()));
    assert_eq!(rt; two, [1, 0]);
    let mut three = [9; 3];
    assert_eq!(rt; EqualRatio.share(&[5, 3, 2], 7, &mut three), Ok(()));
    assert_eq!(rt; three, [3, 2, 2]);
    assert_eq!(rt; EqualRatio.share(&[1, 1, 1], 2, &mut three), Ok(()));
    assert_eq!(rt; three, [0, 1, 1]);
}

#[test]
fn no_claims(rt: HostRuntime) {
    assert_eq!(rt; EqualRatio.share(&[], 0, &mut []), Ok(()));
    assert_eq!(rt; InOrder.share(&[], 0, &mut []), Ok(()));
    declined_by_both(&rt, &[], 1, &mut [], Refusal::NothingClaimed);
}

#[test]
fn more_than_is_claimed(rt: HostRuntime) {
    let mut parts = [7; 4];
    assert_eq!(rt; InOrder.share(&[0, 4, 2, 0], 9, &mut parts), Ok(()));
    assert_eq!(rt; parts, [0, 4, 5, 0]);
    assert_eq!(rt; EqualRatio.share(&[0, 4, 2, 0], 9, &mut parts), Ok(()));
    assert_eq!(rt; parts, [0, 6, 3, 0]);
}

#[test]
fn nothing_claimed(rt: HostRuntime) {
    let mut parts = [7; 2];
    assert_eq!(rt;
        EqualRatio.share(&[0, 0], 1, &mut parts),
        Err(Refusal::NothingClaimed)
    );
    assert_eq!(rt;
        InOrder.share(&[0, 0], u64::MAX, &mut parts),
        Err(Refusal::NothingClaimed)
    );
    assert_eq!(rt; parts, [7, 7], "a declined share writes nothing");
    assert_eq!(rt; EqualRatio.share(&[0, 0], 0, &mut parts), Ok(()));
    assert_eq!(rt; parts, [0, 0]);
}

#[test]
fn lengths_differ(rt: HostRuntime) {
    let mut parts = [7; 2];
    assert_eq!(rt;
        EqualRatio.share(&[0], u64::MAX, &mut parts),
        Err(Refusal::Lengths),
        "lengths are looked at first"
    );
    assert_eq!(rt;
        InOrder.share(&[u64::MAX, 1, 1], 1, &mut parts),
        Err(Refusal::Lengths)
    );
    assert_eq!(rt; parts, [7, 7]);
}

#[test]
fn as_many_claims_as_may_be(rt: HostRuntime) {
    let claims = [1; 256];
    let mut parts = [0; 256];
    assert_eq!(rt; EqualRatio.share(&claims, 256, &mut parts), Ok(()));
    assert_eq!(rt; parts, [1; 256]);
    assert_eq!(rt; InOrder.share(&claims, 0, &mut parts), Ok(()));
    assert_eq!(rt; parts, [0; 256]);
}

#[test]
fn one_claim_too_many(rt: HostRuntime) {
    let claims = [1; 257];
    let mut parts = [7; 257];
    declined_by_both(&rt, &claims, 1, &mut parts, Refusal::Lengths);
    assert_eq!(rt; parts, [7; 257]);
}

#[test]
fn claim_at_its_limit(rt: HostRuntime) {
    let mut parts = [7; 1];
    assert_eq!(rt;
        EqualRatio.share(&[300_000_000_000], 30_000_000, &mut parts),
        Ok(())
    );
    assert_eq!(rt; parts, [30_000_000]);
    declined_by_both(&rt, &[300_000_000_001], 0, &mut parts, Refusal::TooLarge);
    assert_eq!(rt; parts, [30_000_000]);
}

#[test]
fn product_at_its_limit(rt: HostRuntime) {
    assert_eq!(rt;
        admit(&[300_000_000_000], 30_000_000, 1),
        Ok(300_000_000_000)
    );
    assert_eq!(rt;
        admit(&[300_000_000_000], 30_000_001, 1),
        Err(Refusal::TooLarge)
    );
    assert_eq!(rt; admit(&[1], 9_000_000_000_000_000_000, 1), Ok(1));
    assert_eq!(rt;
        admit(&[1], 9_000_000_000_000_000_001, 1),
        Err(Refusal::TooLarge)
    );
    assert_eq!(rt;
        admit(&[2], u64::MAX, 1),
        Err(Refusal::TooLarge),
        "the product is one of true integers"
    );
}

#[test]
fn numbers(rt: HostRuntime) {
    assert_eq!(rt; Refusal::Lengths.number(), 21);
    assert_eq!(rt; Refusal::NothingClaimed.number(), 22);
    assert_eq!(rt; Refusal::TooLarge.number(), 23);
}
