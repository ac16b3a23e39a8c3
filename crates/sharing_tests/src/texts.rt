// Lines of text that are questions, and lines that are none.
use question::{
    ChosenRule, Failure, Fault, Lines, Question, Step, claimed_in_all, read_question, split_line,
    work_out,
};
use sharing::Refusal;
use std::test::Fail;

fn fault_of(rt: &HostRuntime, line: &[u8]) -> Option<Fault> {
    read_question(rt.alloc(), line).err()
}

fn question_of(rt: &HostRuntime, line: &[u8]) -> Result<Question, Fail> {
    read_question(rt.alloc(), line)
        .map_err(|_| Fail::new("a fault"))?
        .ok_or_else(|| Fail::new("no question"))
}

fn asks_nothing(rt: &HostRuntime, line: &[u8]) -> bool {
    read_question(rt.alloc(), line).is_ok_and(|question| question.is_none())
}

#[test]
fn a_question(rt: HostRuntime) -> Result<(), Fail> {
    let q = question_of(&rt, b"\tequal-ratio  7 05 18446744073709551615\r")?;
    assert_eq!(rt; q.rule, ChosenRule::EqualRatio);
    assert_eq!(rt; q.total, 7);
    assert_eq!(rt; q.claims.as_slice(), [5, u64::MAX].as_slice());
    Ok(())
}

#[test]
fn no_question(rt: HostRuntime) {
    assert!(rt; asks_nothing(&rt, b""));
    assert!(rt; asks_nothing(&rt, b" \t\r"));
    assert!(rt; asks_nothing(&rt, b"  # in-order 1 1"));
    assert!(rt; asks_nothing(&rt, b"#in-order 1 1"));
}

#[test]
fn faults(rt: HostRuntime) {
    assert_eq!(rt; fault_of(&rt, b"equal_ratio 1 1"), Some(Fault::UnknownRule));
    assert_eq!(rt; fault_of(&rt, b"in-orde"), Some(Fault::UnknownRule));
    assert_eq!(rt; fault_of(&rt, b"\xff\xfe"), Some(Fault::UnknownRule));
    assert_eq!(rt; fault_of(&rt, b"in-order "), Some(Fault::NoTotal));
    assert_eq!(rt; fault_of(&rt, b"in-order +1"), Some(Fault::BadTotal));
    assert_eq!(rt;
        fault_of(&rt, b"in-order 18446744073709551616"),
        Some(Fault::BadTotal)
    );
    assert_eq!(rt; fault_of(&rt, b"in-order 1 2 3x"), Some(Fault::BadClaim(1)));
    assert_eq!(rt;
        fault_of(&rt, b"in-order 1 184467440737095516150 2"),
        Some(Fault::BadClaim(0))
    );
}

#[test]
fn lines(rt: HostRuntime) {
    let (first, rest) = split_line(b"one\n\ntwo");
    assert_eq!(rt; first, b"one".as_slice());
    let (second, rest) = split_line(rest);
    assert_eq!(rt; second, b"".as_slice());
    let (third, rest) = split_line(rest);
    assert_eq!(rt; third, b"two".as_slice());
    assert!(rt; rest.is_empty());
}

#[test]
fn lines_in_turn(rt: HostRuntime) {
    let mut lines = Lines::of(b"one\n\ntwo\n");
    assert_eq!(rt; lines.next(), Some(b"one".as_slice()));
    assert_eq!(rt; lines.next(), Some(b"".as_slice()));
    assert_eq!(rt; lines.next(), Some(b"two".as_slice()));
    assert_eq!(rt; lines.next(), None);
}

#[test]
fn steps(rt: HostRuntime) -> Result<(), Fail> {
    let q = question_of(&rt, b"equal-ratio 2 1 1 1")?;
    assert_eq!(rt; claimed_in_all(q.claims.as_slice()), 3);
    let shown = work_out(rt.alloc(), &q).map_err(|_| Fail::new("declined"))?;
    let second = Step {
        claim: 1,
        sum: 2,
        part: 1,
        given: 1,
    };
    assert_eq!(rt; shown.get(1).copied(), Some(second));
    assert_eq!(rt; shown.len(), 3);
    Ok(())
}

#[test]
fn declined(rt: HostRuntime) -> Result<(), Fail> {
    let q = question_of(&rt, b"in-order 1 0")?;
    let why = work_out(rt.alloc(), &q).err();
    assert_eq!(rt; why, Some(Failure::Declined(Refusal::NothingClaimed)));
    Ok(())
}
