// The masters of all stores, one behind the other, the last one first.

ghost use Rattle.std.specs.Prelude.{◌≡◌, length};
ghost use Rattle.base.specs.Limits.{most_cells};

use base::{MOST_CELLS, Refusal};
use held::{is_ghost, key_of, status_of};
use pairs::PairTable;
use store::ENTRIES;

// Their keys, with a status beside each.
#[derive(Drop)]
pub struct Masters {
    pub keys: PairTable<4096, 4096>,
    pub statuses: [u8; 4096],
    pub ghost sized: { length statuses ≡ most_cells },
    pub ghost all: { keys.from ≡ 0 },
}

impl Masters {
    ghost use Rattle.std.specs.Prelude.{[], ◌∷◌, ◌*◌, ◌≤◌, ◌<◌, MatchResult};
    ghost use Rattle.base.specs.Limits.{most_parts};
    ghost use Rattle.store.specs.Fields.{field, full, ENTRIES};
    ghost use Rattle.held.specs.Held.{entry_in, held_in};
    ghost use Rattle.merge.specs.Load.{Loaded, Overfull};
    ghost use Rattle.merge.specs.Steps.{FewEntries, entries_by};

    // None yet.
    #[inline(never)]
    pub fn new() -> Masters
        ensures { result.keys.n ≡ 0 }
    {
        Masters {
            keys: PairTable::new(),
            statuses: [0; 4096],
        }
    }

    // Puts an entry's key behind the others, if it is a master.
    fn load_entry(&mut self, store: &[u16], j: usize) -> Result<(), Refusal>
        requires { (full ≤ length store.now) × (j < most_cells) }
        ensures { MatchResult result (λ _. Loaded (entry_in store.now j ∷ []) self.old self.new)
            (λ r. (r ≡ Refusal.Store) × Overfull (entry_in store.now j ∷ []) self.old) }
    {
        if is_ghost(store, j) {
            return Ok(());
        }
        let n = self.keys.n;
        if n >= MOST_CELLS {
            return Err(Refusal::Store);
        }
        let key = key_of(store, j);
        self.keys.add(key.head, key.digits);
        self.statuses[n] = status_of(store, j);
        Ok(())
    }

    // Puts the keys of a store's masters behind the others, the last one first.
    fn load_store(&mut self, store: &[u16]) -> Result<(), Refusal>
        requires { (full ≤ length store.now) × (field store.now ENTRIES ≤ most_cells) }
        ensures { MatchResult result (λ _. Loaded (held_in store.now) self.old self.new)
            (λ r. (r ≡ Refusal.Store) × Overfull (held_in store.now) self.old) }
    {
        for j in (0..store[ENTRIES] as usize).rev() {
            self.load_entry(store, j)?;
        }
        Ok(())
    }

    // Puts the keys of all stores' masters behind the others, the last one first.
    pub fn load_stores(&mut self, stores: &[u16], parts: usize) -> Result<(), Refusal>
        requires full_in_bounds { (most_parts * full ≤ length stores.now) × (parts ≤ most_parts) }
        requires few_entries { FewEntries stores.now parts }
        ensures { MatchResult result (λ _. Loaded (entries_by stores.now parts) self.old self.new)
            (λ r. (r ≡ Refusal.Store) × Overfull (entries_by stores.now parts) self.old) }
    {
        for i in (0..parts).rev() {
            self.load_store(crate::store_at(stores, i))?;
        }
        Ok(())
    }
}
