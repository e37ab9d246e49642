// What tables hold before a call, and a checksum of what they hold after it.
ghost use Rattle.std.specs.Prelude.{◌≡◌, ◌-◌, ◌<◌, ◌≤◌, ◌%◌, length, ℕ, pos};
ghost use Rattle.base.specs.Bools.{one_if};
ghost use Rattle.trial.specs.Pattern.{turned, tab_of, fill_at, check_from, above_least};

// What a table holds: made from a number of the pattern, and taken as a number by a checksum.
pub trait Entry: Copy {
    ghost made: { ℕ → Self };

    ghost taken: { Self → ℕ };

    fn make(x: u64) -> Self
        requires { x < 2147483647 }
        ensures { result ≡ made x };

    fn take(self) -> u64
        ensures { (result ≡ taken self) × (result < 4294967296) };
}

impl Entry for u8 {
    ghost made = { λ x. x % 256 };

    ghost taken = { λ x. x };

    fn make(x: u64) -> u8 {
        (x % 256) as u8
    }

    fn take(self) -> u64 {
        u64::from(self)
    }
}

impl Entry for u16 {
    ghost made = { λ x. x % 65536 };

    ghost taken = { λ x. x };

    fn make(x: u64) -> u16 {
        (x % 65536) as u16
    }

    fn take(self) -> u64 {
        u64::from(self)
    }
}

impl Entry for i32 {
    ghost made = { pos };

    ghost taken = { above_least };

    fn make(x: u64) -> i32 {
        x as i32
    }

    // How far it lies above the least i32.
    fn take(self) -> u64 {
        (i64::from(self) + 2147483648) as u64
    }
}

// One turn of the checksum: a polynomial at 48,271, modulo the prime 2 ^ 31 - 1.
fn turn(sum: u64, x: u64) -> u64
    requires sum_bound { sum < 2147483647 }
    requires x_bound { x < 4294967296 }
    ensures { (result ≡ turned sum x) × (result < 2147483647) }
{
    (sum * 48271 + x) % 2147483647
}

// Fills a list with the first numbers of the pattern, as many as it has places.
pub fn fill<T: Entry>(list: &mut [T])
    ensures { list.new ≡ tab_of (λ k. T.made (fill_at k)) (length list.old) }
{
    let mut x = 1;
    for place in list.iter_mut() {
        *place = T::make(x);
        x = turn(x, 1);
    }
}

pub fn checksum<T: Entry>(list: &[T]) -> u64
    ensures { result ≡ check_from T.taken 1 list.now }
{
    let mut sum = 1;
    for entry in list {
        sum = turn(sum, entry.take());
    }
    sum
}

// The length at which a table is lent: one less where it is to be short.
pub fn lent(full: usize, short: bool) -> usize
    ensures { (result ≡ full - one_if short) × (result ≤ full) }
{
    full.saturating_sub(usize::from(short))
}
