// The ends of a child's edges, from the digits of its family (crate cutting): four a child.
#![tactic(auto)]

ghost use Rattle.std.specs.Prelude.{◌≡◌, ◌<◌};
ghost use Rattle.digits.specs.Ends.{low_at, high_at};

// The digit of the first end of an edge of a child, from the family's digits.
pub fn low_digit(digits: &[u8; 32], j: usize, y: usize) -> u8
    requires { (j < 8) × (y < 6) }
    ensures { result ≡ low_at digits.now j y }
{
    digits[4 * j + rows::low_corner(y)]
}

// The digit of the second end.
pub fn high_digit(digits: &[u8; 32], j: usize, y: usize) -> u8
    requires { (j < 8) × (y < 6) }
    ensures { result ≡ high_at digits.now j y }
{
    digits[4 * j + rows::high_corner(y)]
}
