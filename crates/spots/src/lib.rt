// Spots of single numbers in a table of pairs, so that a search can be spared where no entry has a number. They stand behind the table's
// buckets, 1,024 of them or none, and each has the last entry with a number that lies in it. There are 4,096 buckets, or 1,024 where the
// heads are fewer than 4,096. 65535 stands for no entry (an Option would take twice the memory).
#![tactic(auto)]

ghost use Rattle.std.specs.Prelude.{◌≡◌, ◌+◌, ◌<◌, ◌≤◌};
ghost use Rattle.spots.specs.Spots.{buckets_of, spot_of, noted, may_have};

// How many buckets so many heads are for.
fn buckets_of(k: usize) -> usize
    ensures { (result ≡ buckets_of k) × (result ≤ 4096) }
{
    if k < 4096 {
        return 1024;
    }
    4096
}

// Where the last entry with x stands, behind so many buckets.
fn spot_of(buckets: usize, x: u32) -> usize
    requires { buckets ≤ 4096 }
    ensures { (result ≡ buckets + spot_of x) × (result < buckets + 1024) }
{
    buckets + x as usize % 1024
}

// Whether an entry from `from` on may have x for one of its two numbers. Where it may not, none has.
pub fn may_have(heads: &[u16], from: usize, x: u32) -> bool
    ensures { result ≡ may_have heads.now from x }
{
    let m = buckets_of(heads.len());
    if heads.len() < m + 1024 {
        return true;
    }
    let s = spot_of(m, x);
    let e = heads[s];
    (e as usize + 1) % 65536 > from
}

// Notes n as the last entry with x and with y.
pub fn note(heads: &mut [u16], n: usize, x: u32, y: u32)
    requires { n < 65536 }
    ensures { heads.new ≡ noted heads.old n x y }
{
    let m = buckets_of(heads.len());
    if heads.len() < m + 1024 {
        return;
    }
    let a = spot_of(m, x);
    let b = spot_of(m, y);
    heads[a] = n as u16;
    heads[b] = n as u16;
}
