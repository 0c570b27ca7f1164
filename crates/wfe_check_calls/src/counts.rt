// Numbers of 64 bits that count.
ghost use Rattle.std.specs.Prelude.{◌≡◌, ◌<◌, ◌+◌, ◌*◌, ◌==◌, IfOk};

// Whether the steps are three for each of a count, and some more.
pub(crate) fn is_thrice(steps: u64, count: u64, more: u32) -> bool
    ensures { result ≡ (steps == 3 * count + more) }
{
    u128::from(steps) == 3 * u128::from(count) + u128::from(more)
}

// Whether the steps are two for each of a count, and some more.
pub(crate) fn is_twice(steps: u64, count: u64, more: u32) -> bool
    ensures { result ≡ (steps == 2 * count + more) }
{
    u128::from(steps) == 2 * u128::from(count) + u128::from(more)
}

// Whether the steps are as many as the two numbers together.
pub(crate) fn is_sum(steps: u64, first: u32, second: u64) -> bool
    ensures { result ≡ (steps == first + second) }
{
    u128::from(steps) == u128::from(first) + u128::from(second)
}

// The number in 64 bits.
pub(crate) fn wide(number: u32) -> u64
    ensures value { result ≡ number }
    ensures range { result < 4294967296 }
{
    u64::from(number)
}
