ghost use Rattle.std.specs.Prelude.{◌<◌};
ghost use Rattle.forms.specs.Loads.{SoundLoad};

use crate::load::Load;

// A load in range, as every source promises them: see the law `sound` of `Source`.
#[derive(Clone, Copy)]
pub(crate) struct RangedLoad {
    pub(crate) load: Load,
    ghost sound: { SoundLoad load },
}

// One other than 0, which has an exponent.
#[derive(Clone, Copy)]
pub(crate) struct NonZeroLoad {
    pub(crate) load: Load,
    ghost sound: { SoundLoad load },
    ghost some: { 0 < load.size },
}
