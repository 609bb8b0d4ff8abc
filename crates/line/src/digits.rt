// Binary digits of a number: cut out and joined, as the words of a byte and the bits of a word are.
ghost use Rattle.std.specs.Prelude.{◌≡◌, ◌+◌, ◌*◌, ◌/◌, ◌%◌, ◌^◌, ◌<◌, ◌≤◌};

// The last b binary digits of x.
pub(crate) fn low(x: usize, b: usize) -> usize
    requires { b ≤ 16 }
    ensures { result ≡ x % 2 ^ b }
{
    x % (1usize << b)
}

// b binary digits of x, behind them c digits.
pub(crate) fn part(x: usize, b: usize, c: usize) -> usize
    requires { (b ≤ 16) × (c ≤ 16) }
    ensures { result ≡ x / 2 ^ c % 2 ^ b }
{
    low(x >> c, b)
}

// x, and behind it b binary digits of y.
pub(crate) fn join(x: usize, b: usize, y: usize) -> usize
    requires { (b ≤ 16) × (x * 2 ^ b + y < 2 ^ 32) }
    ensures { result ≡ x * 2 ^ b + y }
{
    x * (1usize << b) + y
}
