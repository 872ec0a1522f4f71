// How an answer is seen to be a refusal.
use forms::Refusal;
use std::process::Abort;
use std::test::Fail;

// The answer must be refused with this number at this depth.
pub fn check_refused<A: Drop>(
    rt: &impl Abort,
    answer: Result<A, Refusal>,
    number: u8,
    depth: u16,
) -> Result<(), Fail> {
    let Err(refusal) = answer else {
        return Err(Fail::new("not refused"));
    };
    assert_eq!(rt; refusal.cause.number(), number);
    assert_eq!(rt; refusal.depth, depth);
    Ok(())
}
