// What became of the lines, counted.
ghost use Rattle.std.specs.Prelude.{◌≡◌, Some};
ghost use Rattle.std.specs.Option.{option_map};
ghost use Rattle.forms.specs.Spellings.{Spells};
ghost use Rattle.lists.specs.Spellings.{kind_word};
ghost use Rattle.lists.specs.Tallies.{judged, fault_of, counted, nothing, with_line, tallied, count_text, readings_text, conversions_text, tally_text};

use forms::UnknownWord;
use std::fmt;
use std::str::FromStr;

// The kinds of line that there are.
#[derive(Clone, Copy, Debug, PartialEq, Eq, Hash)]
pub enum LineKind {
    Kind,
    NegAbs,
    Compare,
    ToFloat,
    FromFloat,
    Convert,
}

impl FromStr for LineKind {
    type Err = UnknownWord;

    ghost from_str_gives = { Spells kind_word };

    fn from_str(word: &str) -> Result<LineKind, UnknownWord> {
        match word {
            "kind" => Ok(LineKind::Kind),
            "neg_abs" => Ok(LineKind::NegAbs),
            "compare" => Ok(LineKind::Compare),
            "to_float" => Ok(LineKind::ToFloat),
            "from_float" => Ok(LineKind::FromFloat),
            "convert" => Ok(LineKind::Convert),
            _ => Err(UnknownWord),
        }
    }
}

// What became of a line.
#[derive(Clone, Copy, Debug, PartialEq, Eq, Hash)]
pub enum Verdict {
    Agrees(LineKind),
    Differs(LineKind),
    // an altered line that differs, as it should
    Refused,
    // an altered line that agrees
    Accepted,
    Malformed,
}

impl Verdict {
    // The verdict on a line of a kind that is altered or not, and agrees or not.
    pub fn judged(altered: bool, kind: LineKind, agrees: bool) -> Verdict
        ensures { result ≡ judged altered kind agrees }
    {
        match (altered, agrees) {
            (false, true) => Verdict::Agrees(kind),
            (false, false) => Verdict::Differs(kind),
            (true, true) => Verdict::Accepted,
            (true, false) => Verdict::Refused,
        }
    }

    // What is wrong with a line that is not as it should be.
    pub fn fault(self) -> Option<&'static str>
        ensures { option_map (λ x. x.now) result ≡ fault_of self }
    {
        match self {
            Verdict::Agrees(_) | Verdict::Refused => None,
            Verdict::Differs(_) => Some("differs"),
            Verdict::Accepted => Some("is altered, and agrees"),
            Verdict::Malformed => Some("is malformed"),
        }
    }
}

// The lines of one sort, and those of them that are as they should be.
#[derive(Clone, Copy, Debug, Default, PartialEq, Eq, Hash)]
pub struct Count {
    lines: u64,
    right: u64,
}

impl Count {
    // One line more.
    fn count(&mut self, is_right: bool)
        ensures { self.new ≡ counted is_right self.old }
    {
        self.lines = self.lines.saturating_add(1);
        if is_right {
            self.right = self.right.saturating_add(1);
        }
    }
}

impl fmt::Display for Count {
    ghost output = { λ c. Some (count_text c) };

    fn fmt<W: fmt::Write>(&self, f: &mut fmt::Formatter<W>) -> fmt::Result {
        let lines = self.lines;
        let right = self.right;
        write!(f, "{lines} lines, {right}")
    }
}

// The lines of each kind, and those that are malformed or altered, which count as no kind's.
#[derive(Clone, Copy, Debug, Default, PartialEq, Eq, Hash)]
pub struct Tally {
    pub kind: Count,
    pub neg_abs: Count,
    pub compare: Count,
    pub to_float: Count,
    pub from_float: Count,
    pub convert: Count,
    pub malformed: u64,
    pub altered: Count,
}

impl Tally {
    // The tally of no lines.
    pub fn new() -> Tally
        ensures { result ≡ nothing }
    {
        Tally::default()
    }

    // One line more of a kind.
    fn count_line(&mut self, kind: LineKind, agrees: bool)
        ensures { self.new ≡ with_line kind agrees self.old }
    {
        match kind {
            LineKind::Kind => self.kind.count(agrees),
            LineKind::NegAbs => self.neg_abs.count(agrees),
            LineKind::Compare => self.compare.count(agrees),
            LineKind::ToFloat => self.to_float.count(agrees),
            LineKind::FromFloat => self.from_float.count(agrees),
            LineKind::Convert => self.convert.count(agrees),
        }
    }

    // One line more, by what became of it.
    pub fn count(&mut self, verdict: Verdict)
        ensures { self.new ≡ tallied verdict self.old }
    {
        match verdict {
            Verdict::Agrees(kind) => self.count_line(kind, true),
            Verdict::Differs(kind) => self.count_line(kind, false),
            Verdict::Refused => self.altered.count(true),
            Verdict::Accepted => self.altered.count(false),
            Verdict::Malformed => self.malformed = self.malformed.saturating_add(1),
        }
    }
}

// The rows of the kinds of line that ask what bits are, and how they compare.
#[derive(Drop)]
pub struct Readings(pub Tally);

impl fmt::Display for Readings {
    ghost output = { λ r. Some (readings_text r.0) };

    fn fmt<W: fmt::Write>(&self, f: &mut fmt::Formatter<W>) -> fmt::Result {
        let kind = self.0.kind;
        let neg_abs = self.0.neg_abs;
        let compare = self.0.compare;
        write!(
            f,
            "kind: {kind} agree\nneg_abs: {neg_abs} agree\ncompare: {compare} agree\n"
        )
    }
}

// The rows of the kinds that ask for conversions, and what is malformed or altered.
#[derive(Drop)]
struct Conversions(Tally);

impl fmt::Display for Conversions {
    ghost output = { λ c. Some (conversions_text c.0) };

    fn fmt<W: fmt::Write>(&self, f: &mut fmt::Formatter<W>) -> fmt::Result {
        let to_float = self.0.to_float;
        let from_float = self.0.from_float;
        let convert = self.0.convert;
        let malformed = self.0.malformed;
        let altered = self.0.altered;
        write!(
            f,
            "to_float: {to_float} agree\nfrom_float: {from_float} agree\nconvert: {convert} agree\nmalformed: {malformed}\naltered: {altered} refused"
        )
    }
}

impl fmt::Display for Tally {
    ghost output = { λ t. Some (tally_text t) };

    fn fmt<W: fmt::Write>(&self, f: &mut fmt::Formatter<W>) -> fmt::Result {
        let readings = Readings(*self);
        let conversions = Conversions(*self);
        write!(f, "{readings}{conversions}")
    }
}
