// The values that a load is drawn from.
ghost use Rattle.std.specs.Prelude.{◌≡◌};
ghost use Rattle.workload.specs.Load.{xorshift32};

// The value after this one.
#[tactic(auto, unfolding(crate::specs::Load::xorshift32))]
pub(crate) fn xorshift32(x: u32) -> u32
    ensures { result ≡ xorshift32 x }
{
    let a = x ^ (x << 13);
    let b = a ^ (a >> 17);
    b ^ (b << 5)
}
