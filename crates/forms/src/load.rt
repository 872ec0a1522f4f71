ghost use Rattle.std.specs.Prelude.{◌≡◌, ◌^◌, pos, ◌-ℤ◌, ◌*ℤ◌};
ghost use Rattle.forms.specs.Loads.{nat_of, signed, load_of, worth, endless};

// A load: a number of kilonewtons, worth size / 2^scale, or minus that. Zero has size 0, scale 0 and no sign.
// The loads that sources read have scales from -1,000 to 1,074.
// Loads are equal when their worth is equal, whatever their scales, so there is no `==` on them: see `cmp::equal`.
#[derive(Clone, Copy, Debug)]
pub struct Load {
    // whether it is below 0
    pub negative: bool,
    pub size: u64,
    pub scale: i32,
}

impl Load {
    // The load worth size / 2^scale, or minus that, for a scale up to 1,074.
    pub fn new(negative: bool, size: u64, scale: i32) -> Load
        ensures made { result ≡ load_of (signed negative size) scale }
        ensures worth { worth result ≡ signed negative size *ℤ pos (2 ^ nat_of (pos 1074 -ℤ scale)) }
    {
        if size == 0 {
            Load {
                negative: false,
                size: 0,
                scale: 0,
            }
        } else {
            Load {
                negative,
                size,
                scale,
            }
        }
    }
}

// A reading: what a source says that bits stand for, where it does not refuse them.
#[derive(Clone, Copy, Debug)]
pub enum Reading {
    // nothing that could be compared
    NoNumber,
    // more than every load
    EndlessUp,
    // less than every load
    EndlessDown,
    // a load
    Finite(Load),
}

impl Reading {
    // The endless reading of a sign.
    pub fn endless(negative: bool) -> Reading
        ensures { result ≡ endless negative }
    {
        if negative {
            Reading::EndlessDown
        } else {
            Reading::EndlessUp
        }
    }
}
