// The binary digits of numbers.
ghost use Rattle.std.specs.Prelude.{◌≡◌, ◌/◌, ◌%◌, ◌^◌, ◌<◌};
ghost use Rattle.ground.specs.Bits.{bits};

// The digit of a at `place`; the lowest digit is at place 0.
pub(crate) fn digit(a: u64, place: u32) -> u32
    requires { place < 64 }
    ensures { result ≡ a / 2 ^ place % 2 }
{
    ((a >> place) % 2) as u32
}

// a without the digits below its highest; a is not 0.
pub(crate) fn leading_term(a: u32) -> u32
    requires { 0 < a }
    ensures { result ≡ 2 ^ bits (a / 2) }
{
    1 << (31 - a.leading_zeros())
}
