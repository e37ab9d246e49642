// How often pairs come.

ghost use Rattle.std.specs.Prelude.{◌≡◌, ◌≤◌, length};

use pairs::PairTable;

// The pairs so far, each once, with its count beside it: N at most.
#[derive(Drop)]
pub struct Tally<const N: usize> {
    pub pairs: PairTable<N, 1024>,
    pub counts: [u8; N],
    pub ghost room: { (length counts ≡ N) × (N ≤ 1024) },
}

impl<const N: usize> Tally<N> {
    ghost use Rattle.coarse.specs.Tally.{Fresh, Open, Tallied};

    // Forgets all pairs. The counts stay: none is looked at without its pair.
    pub fn clear(&mut self)
        ensures { Fresh self.new }
    {
        self.pairs.clear();
    }

    // Counts a pair: how often it has come, this time included.
    pub fn count(&mut self, x: u32, y: u32) -> u8
        requires { Open self.old x y }
        ensures { Tallied self.old x y self.new result }
    {
        match self.pairs.find(x, y) {
            Some(e) => {
                self.counts[e] += 1;
                self.counts[e]
            },
            None => {
                self.counts[self.pairs.n] = 1;
                self.pairs.add(x, y);
                1
            },
        }
    }
}
