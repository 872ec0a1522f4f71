// A list replayed: the verdict on each line, and the tally of all.
ghost use Rattle.std.specs.Prelude.{◌≡◌, IfOk, IfSome};
ghost use Rattle.std.specs.Fn.{FnReturnsAt};
ghost use Rattle.std.specs.Str.Lines.{lines};
ghost use Rattle.std.specs.Str.Lossy.{utf8_lossy};
ghost use Rattle.std.specs.String.{string_bytes};
ghost use Rattle.lists.specs.Cuts.{Marked};
ghost use Rattle.lists.specs.Lines.{Agreed, Found, VerdictFor};
ghost use Rattle.lists.specs.Tallies.{verdict, TalliedBy};

use crate::claims::{NoClaim, claim_of};
use crate::line::Words;
use crate::tally::{LineKind, Tally, Verdict};
use std::alloc::Global;
use std::io;
use std::io::Read;

// At most so many lines that are not as they should be are printed.
const SHOWN: usize = 20;

// Whether the line agrees, its first word being its kind.
fn agrees(line: &str) -> Result<(LineKind, bool), NoClaim>
    ensures { IfOk result (λ found. Found Agreed line.now found.0 found.1) }
{
    let mut words = Words::new(line);
    let sort = words.word()?.parse()?;
    let claim = claim_of(sort, &mut words)?;
    Ok((sort, claim.holds()))
}

// Whether a line is altered, and what it says: before an altered one stands `not`.
pub fn unmarked(line: &str) -> (bool, &str)
    ensures { Marked line.now result.0 result.1.now }
{
    match line.strip_prefix("not ") {
        Some(told) => (true, told),
        None => (false, line),
    }
}

// What becomes of a line that is altered or not, by what was found of it.
pub fn verdict(altered: bool, found: Result<(LineKind, bool), NoClaim>) -> Verdict
    ensures { result ≡ verdict altered found }
{
    match found {
        Ok((kind, agrees)) => Verdict::judged(altered, kind, agrees),
        Err(_) => Verdict::Malformed,
    }
}

// What becomes of a line.
pub fn verdict_of(line: &str) -> Verdict
    ensures { VerdictFor Agreed line.now result }
{
    let (altered, told) = unmarked(line);
    verdict(altered, agrees(told))
}

// The tally of a list, by the verdict on each line; the first lines that are not as they should be are printed.
pub fn replay_all<F: Fn(&str) -> Verdict>(
    rt: &impl Print,
    list: &str,
    verdict_of: F,
) -> io::Result<Tally>
    requires { F.IsAlwaysCallable verdict_of }
    ensures { IfOk result (λ tally. TalliedBy (λ line verdict. FnReturnsAt F.Fn verdict_of line verdict) (lines list.now) tally) }
{
    let mut tally = Tally::new();
    let mut to_show = 0..SHOWN;
    for (index, line) in list.lines().enumerate() {
        let verdict = verdict_of(line);
        tally.count(verdict);
        if let Some(fault) = verdict.fault()
            && to_show.next().is_some()
        {
            let number = index + 1;
            println!(rt; "line {number} {fault}: {line}")?;
        }
    }
    Ok(tally)
}

// What can be read of an input, as text; bytes that are none are replaced, which makes their line a malformed one.
fn text_of<R: Read>(heap: Global, input: &mut R) -> io::Result<String>
    ensures { IfOk result (λ text. IfSome (R.remaining input.old) (λ bytes. string_bytes text ≡ utf8_lossy bytes)) }
{
    let mut bytes = Vec::new(heap);
    input.read_to_end(&mut bytes)?;
    Ok(String::from_utf8_lossy(heap, bytes.as_slice())?)
}

// The tally of a list that is read of an input, likewise.
pub fn replay_input<R: Read, F: Fn(&str) -> Verdict>(
    rt: &impl Print,
    heap: Global,
    input: &mut R,
    verdict_of: F,
) -> io::Result<Tally>
    requires { F.IsAlwaysCallable verdict_of }
    ensures { IfOk result (λ tally. IfSome (R.remaining input.old) (λ bytes. TalliedBy (λ line verdict. FnReturnsAt F.Fn verdict_of line verdict) (lines (utf8_lossy bytes)) tally)) }
{
    let list = text_of(heap, input)?;
    replay_all(rt, list.as_str(), verdict_of)
}
