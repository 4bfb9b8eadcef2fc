//! Texts, looked up by a word.

ghost use Rattle.std.specs.Prelude.{◌≡◌, ◌⊎◌, Contains, IfSome, map};

use mrpc_table::is_word;

/// A word, and the text that goes with it.
pub type WordText = (&'static str, &'static str);

/// The text for a word; `None` if the table doesn't have the word.
pub fn text_for(rows: &[WordText], word: &[u8]) -> Option<&'static str>
    ensures { IfSome result (λ text. Contains (map (λ row. row.1.now) rows.now) text.now) }
{
    for row in rows {
        if is_word(word, row.0.as_bytes()) {
            return Some(row.1);
        }
    }
    None
}

/// Like [`text_for`], with a text for words that the table doesn't have.
pub fn text_or(rows: &[WordText], word: &[u8], others: &'static str) -> &'static str
    ensures { (result.now ≡ others.now) ⊎ Contains (map (λ row. row.1.now) rows.now) result.now }
{
    match text_for(rows, word) {
        Some(text) => text,
        None => others,
    }
}
