//! The words of a heap, with the list of stores that produced them.

ghost use Rattle.std.specs.Prelude.{◌≡◌, ◌<◌, ◌-◌, ◌^◌, [], ◌∷◌, ◌++◌, IfOk, length};
ghost use Rattle.mrpc_base.specs.Heap.{word_after};

use crate::log::Log;
use std::alloc::{AllocError, Global};
use std::marker::Model;

#[derive(Drop)]
pub(crate) struct StoredWords {
    words: Vec<u64>,
    stores: Log,
}

impl Model for StoredWords {
    ghost use Rattle.std.specs.Prelude.{vec_len};
    ghost use Rattle.mrpc_base.specs.Parts.{StoredWordsState, AreWordsAfter};

    ghost Value = { StoredWordsState };

    ghost view = { λ s. record { size = vec_len s.words; stores = s.stores } };

    ghost invariant = { λ s. AreWordsAfter s.stores s.words.items };
}

impl StoredWords {
    // All words are 0, and nothing was stored.
    pub(crate) fn open(alloc: Global, words: usize) -> Result<StoredWords, AllocError>
        ensures size { IfOk result (λ stored. stored.size ≡ words) }
        ensures stores { IfOk result (λ stored. stored.stores ≡ []) }
    {
        Ok(StoredWords {
            words: vec![in alloc; 0; words]?,
            stores: Log::new(),
        })
    }

    pub(crate) fn size(&self) -> u64
        ensures { result ≡ self.now.size }
    {
        self.words.len() as u64
    }

    // How many stores there were.
    pub(crate) fn made(&self) -> u64
        ensures { result ≡ length self.now.stores }
    {
        self.stores.len()
    }

    pub(crate) fn word(&self, place: u64) -> u64
        requires { place < self.now.size }
        ensures { result ≡ word_after self.now.stores place }
    {
        self.words[place as usize]
    }

    pub(crate) fn store(&mut self, place: u64, value: u64)
        requires in_heap { place < self.old.size }
        requires few { length self.old.stores < 2 ^ 64 - 1 }
        ensures stores { self.new.stores ≡ self.old.stores ++ (place, value) ∷ [] }
        ensures size { self.new.size ≡ self.old.size }
    {
        self.stores.append(place, value);
        self.words[place as usize] = value;
    }
}
