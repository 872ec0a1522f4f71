// What becomes of a line of this list, which has three kinds of line, and may name fixed forms that there are not.
ghost use Rattle.std.specs.Prelude.{IfOk};
ghost use Rattle.lists.specs.Lines.{Found, VerdictFor};
ghost use Rattle.vectors.specs.Lines.{AgreedHere};

use lists::claims::{NoClaim, claim_of};
use lists::line::Words;
use lists::replay::{unmarked, verdict};
use lists::tally::{LineKind, Verdict};

// Whether the line agrees, its first word being its kind. One that names a fixed form that there is not does not agree.
fn agrees(line: &str) -> Result<(LineKind, bool), NoClaim>
    ensures { IfOk result (λ found. Found AgreedHere line.now found.0 found.1) }
{
    let mut words = Words::new(line);
    let sort = words.word()?.parse()?;
    match sort {
        LineKind::Kind | LineKind::NegAbs | LineKind::Compare => {}
        _ => return Err(NoClaim::Malformed),
    }
    let agrees = match claim_of(sort, &mut words) {
        Ok(claim) => claim.holds(),
        Err(NoClaim::Unlawful) => false,
        Err(NoClaim::Malformed) => return Err(NoClaim::Malformed),
    };
    Ok((sort, agrees))
}

// What becomes of a line.
pub fn verdict_of(line: &str) -> Verdict
    ensures { VerdictFor AgreedHere line.now result }
{
    let (altered, told) = unmarked(line);
    verdict(altered, agrees(told))
}
