// A flag as a number.

ghost use Rattle.std.specs.Prelude.{◌≡◌};
ghost use Rattle.laws.specs.Sum.{ind};

// 1 for true, 0 for false.
pub fn one_if(t: bool) -> u64
    ensures { result ≡ ind t }
{
    u64::from(t)
}
