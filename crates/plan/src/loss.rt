// What lies between two loads.
ghost use Rattle.std.specs.Prelude.{◌≡◌, ◌*◌, ◌^◌, ◌-ℤ◌, ◌≤ℤ◌, pos, IfSome};
ghost use Rattle.forms.specs.Loads.{nat_of, weight, worth};
ghost use Rattle.std.specs.Int.{abs_diff};

use forms::Load;

// A load's size at a finer scale, if it has room there.
#[tactic(auto, using(crate::proofs::Losses::moved))]
fn size_at(load: Load, scale: i32) -> Option<u64>
    ensures { scale ≤ℤ pos 1074 → IfSome result (λ size. size * 2 ^ nat_of (pos 1074 -ℤ scale) ≡ weight load) }
{
    let places = u32::try_from(scale.checked_sub(load.scale)?).ok()?;
    load.size.checked_mul(2_u64.checked_pow(places)?)
}

// The load that two sizes of one scale lie apart.
#[tactic(auto, using(crate::proofs::Losses::abs_diff_times))]
fn between(a: u64, b: u64, scale: i32) -> Load
    ensures { worth result ≡ pos (abs_diff (a * 2 ^ nat_of (pos 1074 -ℤ scale)) (b * 2 ^ nat_of (pos 1074 -ℤ scale))) }
{
    Load::new(false, a.abs_diff(b), scale)
}

// How far apart two loads of one sign are, at the finer of their scales.
pub fn apart(left: Load, right: Load) -> Option<Load>
    ensures { left.scale ≤ℤ pos 1074 → right.scale ≤ℤ pos 1074 → IfSome result (λ lost. worth lost ≡ pos (abs_diff (weight left) (weight right))) }
{
    let scale = left.scale.max(right.scale);
    let a = size_at(left, scale)?;
    let b = size_at(right, scale)?;
    Some(between(a, b, scale))
}
