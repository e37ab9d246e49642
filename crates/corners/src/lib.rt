// The tables of a mesh's corners, from the ends of the new ones (docs/METHOD.md, rules 9.3 and 9.4).
// A mesh has n coarse corners and m new ones. New corner j has the number n + j, and is the midpoint of xs[j] and ys[j].
#![tactic(auto)]

ghost use Rattle.std.specs.Prelude.{◌≡◌, [], ◌++◌, ◌∷◌, ◌+◌, ◌*◌, ◌≤◌, ◌<◌, length, take, drop, pos, ◌+ℤ◌, ◌*ℤ◌};
ghost use Rattle.std.proofs.lemmas.List.Edits.{sets};
ghost use Rattle.base.specs.Limits.{most_corners};
ghost use Rattle.mesh.specs.Coarse.{coordinate_at};
ghost use Rattle.corners.specs.Ends.{Ends, coarse_ends, add_ends, end_numbers};
ghost use Rattle.corners.specs.Sums.{SmallSum, Smalls, SumHeld, half, coarse_sums, mid_sums, add_sums, sum_numbers};

// Stores the numbers of a corner.
fn put<T: Copy>(table: &mut [T], at: usize, part: &[T])
    requires { at + length part.now ≤ length table.old }
    ensures { table.new ≡ sets table.old at part.now }
{
    table[at..at + part.len()].copy_from_slice(part);
}

// A coarse corner is both its ends.
fn coarse_ends(n: usize, ends: &mut [u16])
    requires n_le_most_corners { n ≤ most_corners }
    requires n_in_bounds { 2 * n ≤ length ends.old }
    ensures { ends.new ≡ coarse_ends n ++ drop (2 * n) ends.old }
{
    for i in 0..n {
        put(ends, 2 * i, &[i as u16; 2]);
    }
}

// The ends of the new corners, behind those of the coarse ones.
fn new_ends(xs: &[u32], ys: &[u32], n: usize, m: usize, ends: &mut [u16])
    requires ends { Ends n xs.now ys.now m }
    requires m_bound { n + m ≤ most_corners }
    requires m_in_bounds { 2 * (n + m) ≤ length ends.old }
    ensures { ends.new
        ≡ add_ends (take (2 * n) ends.old) xs.now ys.now m
        ++ drop (2 * (n + m)) ends.old }
{
    for j in 0..m {
        put(ends, 2 * (n + j), &[xs[j] as u16, ys[j] as u16]);
    }
}

// Two numbers a corner: the numbers of its ends.
pub fn fill_ends(xs: &[u32], ys: &[u32], n: usize, m: usize, ends: &mut [u16])
    requires ends { Ends n xs.now ys.now m }
    requires m_bound { n + m ≤ most_corners }
    requires m_in_bounds { 2 * (n + m) ≤ length ends.old }
    ensures { ends.new
        ≡ end_numbers n xs.now ys.now m ++ drop (2 * (n + m)) ends.old }
{
    coarse_ends(n, ends);
    new_ends(xs, ys, n, m, ends);
}

// 1,024 times a number of a position.
fn scaled(z: i32) -> i32
    requires { SmallSum 500000 z }
    ensures { result ≡ pos 1024 *ℤ z }
{
    1024 * z
}

// Half the sum of two numbers of corners.
fn half_sum(a: i32, b: i32) -> i32
    requires small_sum { SmallSum 512000000 a }
    requires small_sum_2 { SmallSum 512000000 b }
    ensures { result ≡ half (a +ℤ b) }
{
    (a + b) / 2
}

// 1,024 times coordinate k of a coarse corner.
fn coarse_sum(positions: &[i32], i: usize, k: usize) -> i32
    requires k_in_bounds { 3 * i + k < length positions.now }
    requires smalls { Smalls 500000 positions.now }
    ensures { result ≡ pos 1024 *ℤ coordinate_at positions.now i k }
{
    scaled(positions[3 * i + k])
}

// Coordinate k of the midpoint of the corners a and b.
fn mid_sum(sums: &[i32], a: usize, b: usize, k: usize) -> i32
    requires sum_held { SumHeld sums.now a }
    requires sum_held_2 { SumHeld sums.now b }
    requires k_bound { k < 3 }
    ensures { result ≡ half (coordinate_at sums.now a k +ℤ coordinate_at sums.now b k) }
{
    half_sum(sums[3 * a + k], sums[3 * b + k])
}

// Stores the sums of the midpoint of the corners a and b.
fn put_mid(sums: &mut [i32], at: usize, a: usize, b: usize)
    requires sum_held { SumHeld sums.old a }
    requires sum_held_2 { SumHeld sums.old b }
    requires at_in_bounds { at + 3 ≤ length sums.old }
    ensures { sums.new ≡ sets sums.old at (mid_sums sums.old a b) }
{
    let mid = [
        mid_sum(sums, a, b, 0),
        mid_sum(sums, a, b, 1),
        mid_sum(sums, a, b, 2),
    ];
    put(sums, at, &mid);
}

// A coarse corner has all 1,024 of its weight on itself.
fn coarse_sums(positions: &[i32], n: usize, sums: &mut [i32])
    requires n_in_bounds { 3 * n ≤ length positions.now }
    requires smalls { Smalls 500000 positions.now }
    requires n_in_bounds_2 { 3 * n ≤ length sums.old }
    ensures { sums.new ≡ coarse_sums positions.now n ++ drop (3 * n) sums.old }
{
    for i in 0..n {
        let scaled = [
            coarse_sum(positions, i, 0),
            coarse_sum(positions, i, 1),
            coarse_sum(positions, i, 2),
        ];
        put(sums, 3 * i, &scaled);
    }
}

// The sums of the new corners, behind those of the coarse ones. Both ends of a corner stand before it.
fn new_sums(xs: &[u32], ys: &[u32], n: usize, m: usize, sums: &mut [i32])
    requires ends { Ends n xs.now ys.now m }
    requires m_in_bounds { 3 * (n + m) ≤ length sums.old }
    requires smalls { Smalls 512000000 (take (3 * n) sums.old) }
    ensures { sums.new
        ≡ add_sums (take (3 * n) sums.old) xs.now ys.now m
        ++ drop (3 * (n + m)) sums.old }
{
    for j in 0..m {
        put_mid(sums, 3 * (n + j), xs[j] as usize, ys[j] as usize);
    }
}

// Three numbers a corner: the weighted sums of its coordinates.
pub fn fill_sums(positions: &[i32], xs: &[u32], ys: &[u32], n: usize, m: usize, sums: &mut [i32])
    requires n_in_bounds { 3 * n ≤ length positions.now }
    requires smalls { Smalls 500000 positions.now }
    requires ends { Ends n xs.now ys.now m }
    requires m_in_bounds { 3 * (n + m) ≤ length sums.old }
    ensures { sums.new
        ≡ sum_numbers positions.now n xs.now ys.now m
        ++ drop (3 * (n + m)) sums.old }
{
    coarse_sums(positions, n, sums);
    new_sums(xs, ys, n, m, sums);
}
