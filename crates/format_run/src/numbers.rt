// Whole numbers of 64 bits.
ghost use Rattle.std.specs.Prelude.{◌≡◌};
ghost use Rattle.format_run.specs.Numbers.{is_not_zero as is_not_zero_of, quotient as quotient_of, remainder as remainder_of, truth as truth_of};

/// 1 for yes, 0 for no.
pub(crate) fn truth(yes: bool) -> i64
    ensures { result ≡ truth_of yes }
{
    if yes { 1 } else { 0 }
}

pub(crate) fn is_not_zero(n: i64) -> bool
    ensures { result ≡ is_not_zero_of n }
{
    n != 0
}

/// The quotient toward 0, and 0 where the divisor is 0.
pub(crate) fn quotient(n: i64, divisor: i64) -> i64
    ensures { result ≡ quotient_of n divisor }
{
    if divisor == 0 {
        0
    } else if n == i64::MIN && divisor == -1 {
        i64::MAX
    } else {
        n / divisor
    }
}

/// The remainder, with the sign of the number, and 0 where the divisor is 0.
pub(crate) fn remainder(n: i64, divisor: i64) -> i64
    ensures { result ≡ remainder_of n divisor }
{
    if divisor == 0 {
        0
    } else {
        n.wrapping_rem(divisor)
    }
}
