// A table of pairs of numbers in which a pair is found fast: the pairs in the order in which they were added; each bucket's last entry; and
// behind each entry the one before it in its bucket. 65535 stands for no entry (an Option would take twice the memory). There
// are 4,096 buckets, or 1,024 where the heads are fewer than 4,096; behind them there may be spots.
#![tactic(auto)]

ghost use Rattle.std.specs.Prelude.{◌≡◌, ◌+◌, ◌-◌, ◌<◌, ◌≤◌, length, MatchOption};
ghost use Rattle.spots.specs.Spots.{buckets_of, may_have};
ghost use Rattle.pairs.specs.Keys.{bucket, hereb, seek, Keys, Added};

// Room for N pairs, with H heads. The entries from `from` on are looked at; there are n.
#[derive(Drop)]
pub struct PairTable<const N: usize, const H: usize> {
    pub xs: [u32; N],
    pub ys: [u32; N],
    pub heads: [u16; H],
    pub links: [u16; N],
    pub from: usize,
    pub n: usize,
    pub ghost sized: { (length xs ≡ N) × (length ys ≡ N) × (length heads ≡ H) × (length links ≡ N) },
    pub ghost in_order: { Keys xs ys heads links n },
    pub ghost up: { from ≤ n },
}

// The bucket that the pair lies in, of those of k heads.
pub fn bucket_of(k: usize, x: u32, y: u32) -> usize
    requires { 1024 ≤ k }
    ensures { (result ≡ bucket (buckets_of k) x y) × (result < buckets_of k) × (result < k) }
{
    let v = x as usize * 2531 + y as usize;
    if k < 4096 { v % 1024 } else { v % 4096 }
}

impl<const N: usize, const H: usize> PairTable<N, H> {
    // An empty table. It is not compiled into its callers: there it would be made aside and copied.
    #[inline(never)]
    pub fn new() -> Self
        requires { 1024 ≤ H }
        ensures { (result.from ≡ 0) × (result.n ≡ 0) }
    {
        PairTable {
            xs: [0; N],
            ys: [0; N],
            heads: [65535; H],
            links: [0; N],
            from: 0,
            n: 0,
        }
    }

    // Makes the table empty.
    pub fn clear(&mut self)
        ensures empty { (self.new.from ≡ 0) × (self.new.n ≡ 0) }
        ensures kept { (self.new.xs ≡ self.old.xs) × ((self.new.ys ≡ self.old.ys) × (self.new.links ≡ self.old.links)) }
    {
        self.heads.fill(65535);
        (self.from, self.n) = (0, 0);
    }

    // Whether entry e is the pair.
    fn stands(&self, e: usize, x: u32, y: u32) -> bool
        requires { e < self.now.n }
        ensures { result ≡ hereb self.now.xs self.now.ys x y e }
    {
        self.xs[e] == x && self.ys[e] == y
    }

    // The last entry, from `from` on, at which the pair stands. A chain goes down, so older entries cost nothing.
    pub fn find(&self, x: u32, y: u32) -> Option<usize>
        ensures { MatchOption result (seek self.now.xs self.now.ys x y self.now.from (self.now.n - self.now.from) ≡ 65535)
            (λ e. (e ≡ seek self.now.xs self.now.ys x y self.now.from (self.now.n - self.now.from)) × (e < self.now.n)) }
    {
        let b = bucket_of(H, x, y);
        let mut e = self.heads[b];
        while e != 65535 {
            let i = e as usize;
            if i < self.from {
                return None;
            }
            if self.stands(i, x, y) {
                return Some(i);
            }
            e = self.links[i];
        }
        None
    }

    // Adds the pair as entry n, whether it is there already or not.
    pub fn add(&mut self, x: u32, y: u32)
        requires { (self.old.n < N) × (self.old.n < 65535) }
        ensures added { Added self.old.xs self.old.ys self.old.n x y self.new.xs self.new.ys self.new.heads self.new.links }
        ensures one { (self.new.n ≡ self.old.n + 1) × (self.new.from ≡ self.old.from) }
    {
        let n = self.n;
        let b = bucket_of(H, x, y);
        self.xs[n] = x;
        self.ys[n] = y;
        self.links[n] = self.heads[b];
        self.heads[b] = n as u16;
        spots::note(&mut self.heads, n, x, y);
        self.n = n + 1;
    }

    // Whether an entry from `from` on may have x for one of its two numbers. Where it may not, none has.
    pub fn may_have(&self, x: u32) -> bool
        ensures { result ≡ may_have self.now.heads self.now.from x }
    {
        spots::may_have(&self.heads, self.from, x)
    }

    // From now on the entries that are added later are looked at, and no other.
    pub fn start_level(&mut self)
        ensures from { self.new.from ≡ self.old.n }
        ensures kept { (self.new.xs ≡ self.old.xs) × (self.new.ys ≡ self.old.ys) × (self.new.n ≡ self.old.n) }
        ensures searched { (self.new.heads ≡ self.old.heads) × (self.new.links ≡ self.old.links) }
    {
        self.from = self.n;
    }

    // From now on all entries are looked at.
    pub fn look_at_all(&mut self)
        ensures from { self.new.from ≡ 0 }
        ensures kept { (self.new.xs ≡ self.old.xs) × (self.new.ys ≡ self.old.ys) × (self.new.n ≡ self.old.n) }
        ensures searched { (self.new.heads ≡ self.old.heads) × (self.new.links ≡ self.old.links) }
    {
        self.from = 0;
    }
}
