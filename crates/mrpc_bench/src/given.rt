//! The input of the parts: words, counts, inputs and tables.

ghost use Rattle.std.specs.Prelude.{IfSome};
ghost use Rattle.mrpc_table.specs.Valid.{IsValid};

use mrpc_table::Table;
use std::alloc::Global;
use std::io::Read;
use table_text::read_table;

// The value of the row with this word; `None` if no row has it.
pub(crate) fn named<T: Copy>(rows: &[(&str, T)], word: &str) -> Option<T> {
    for (name, meaning) in rows {
        if *name == word {
            return Some(*meaning);
        }
    }
    None
}

// The count that the first word spells; `None` if there is no word, or it spells none.
pub(crate) fn count_of(words: &[String]) -> Option<u32> {
    words.first()?.as_str().parse().ok()
}

// The whole of an input; `None` if a read failed, or it ran out of memory.
pub(crate) fn text_of<I: Read>(alloc: Global, input: &mut I) -> Option<Vec<u8>> {
    let mut text = Vec::new(alloc);
    input.read_to_end(&mut text).ok()?;
    Some(text)
}

// The table of a text; `None` if it is at fault, or it ran out of memory.
pub(crate) fn table_of(alloc: Global, text: &[u8]) -> Option<Table>
    ensures { IfSome result IsValid }
{
    read_table(alloc, text).ok()
}
