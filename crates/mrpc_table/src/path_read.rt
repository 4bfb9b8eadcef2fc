//! Paths from their words.

ghost use Rattle.std.specs.Prelude.{◌≡◌, IfOk};
ghost use Rattle.mrpc_table.specs.PathWords.{path_of};

use crate::limits::MAX_PATH;
use crate::memory::Memory;
use crate::path::PathWord;
use crate::sequence::Sequence;
use crate::words::{number_of, split_once};
use std::alloc::Global;

impl PathWord {
    /// The numbers that a word spells, joined by dots. `None` if there are too many parts, or one is not a number.
    /// Takes time linear in the word.
    pub fn read(alloc: Global, word: &[u8]) -> Result<Option<PathWord>, Memory>
        ensures { IfOk result (λ p. p ≡ path_of word.now) }
    {
        let mut way = Vec::new(alloc);
        let mut rest = word;
        while let Some((part, others)) = split_once(rest, b'.') {
            let Some(number) = number_of(part) else {
                return Ok(None);
            };
            way.push(number)?;
            rest = others;
        }
        let Some(last) = number_of(rest) else {
            return Ok(None);
        };
        if way.len() >= MAX_PATH {
            return Ok(None);
        }
        let way = Sequence::from_vec(way);
        Ok(Some(PathWord { way, last }))
    }
}
