//! Splits a line into its words, from the left.

ghost use Rattle.std.specs.Prelude.{◌≡◌, ◌∷◌};
ghost use Rattle.mrpc_table.specs.Lines.{words_of};
ghost use Rattle.script_grammar.specs.Remainders.{words_in};

use mrpc_table::split_once;

/// The remainder of a line after some of its words: the text after a space, or `None` at the end of the line.
pub type Remainder<'a> = Option<&'a [u8]>;

/// Returns the first word, and the remainder after it.
pub fn first_word(text: &[u8]) -> (&[u8], Remainder<'_>)
    ensures { words_of text.now ≡ result.0.now ∷ words_in result.1 }
{
    match split_once(text, b' ') {
        Some((word, behind)) => (word, Some(behind)),
        None => (text, None),
    }
}
