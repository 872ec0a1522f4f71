ghost use Rattle.std.specs.Prelude.{◌^◌, ◌<◌, ◌≤◌};

use forms::words;

// The decimal digits of rest / 2^places after the point, up to the last that is not 0.
#[derive(Drop)]
pub(crate) struct Digits {
    rest: u64,
    places: u32,
    ghost below: { rest < 2 ^ places },
    ghost word: { places ≤ 60 },
}

impl Digits {
    ghost use Rattle.std.specs.Prelude.{◌≡◌};
    ghost use Rattle.telling.specs.Decimals.{digits, digits_left};
    ghost use Rattle.telling.specs.Exact.{Exact};

    pub(crate) fn new(rest: u64, places: u32) -> Digits
        requires below { rest < 2 ^ places }
        requires word { places ≤ 60 }
        ensures made { digits_left result ≡ digits places rest }
        ensures exact { Exact places rest (digits places rest) }
    {
        Digits { rest, places }
    }
}

impl Iterator for Digits {
    ghost use Rattle.std.specs.Iterator.{YieldsFirst, item_count};
    ghost use Rattle.telling.specs.Decimals.{digits_left};

    type Item = u64;

    ghost next_gives = { YieldsFirst digits_left };

    ghost remaining = { item_count digits_left };

    // Ten times rest / 2^places is 5 × rest over one power of two less; the whole part of it is the digit.
    fn next(&mut self) -> Option<u64> {
        if self.rest == 0 {
            return None;
        }
        let places = self.places - 1;
        let tenfold = self.rest * 5;
        *self = Digits {
            rest: words::low_digits(tenfold, places),
            places,
        };
        Some(tenfold >> places)
    }
}
