ghost use Rattle.std.specs.Prelude.{◌≡◌};
ghost use Rattle.host.specs.Numbers.{number_up_to, number_in};

/// The number, where it is one from 0 up to `most`.
pub fn number_up_to(n: i64, most: u32) -> Option<u32>
    ensures { result ≡ number_up_to most n }
{
    u32::try_from(n).ok().filter(|n| *n <= most)
}

/// Number `i` of those from `from` up to `to`, which is left out. A number that 64 bits do not hold is past every end.
pub fn number_in(from: i64, to: i64, i: u32) -> Option<i64>
    ensures { result ≡ number_in from to i }
{
    from.checked_add(i64::from(i)).filter(|n| *n < to)
}
