//! The text of a table within a text.

ghost use Rattle.std.specs.Prelude.{◌≡◌, ◌⊎◌, ◌++◌, ℕ, List, [], IfSome, MatchOption, codes};
ghost use Rattle.mrpc_table.specs.Text.{table_text};
ghost use Rattle.mrpc_table.specs.Valid.{IsValid};
ghost use Rattle.mrpc_table.specs.declared.table.Table.{Table};
ghost use Rattle.table_text.specs.TableText.{HasTableAfter, IsEndless};

use mrpc_table::split_once;

// The line after the text of a table.
const END: &[u8] = b"end";

/// Splits a text: after `head`, returns the text of a table up to the first line `end`, and the remainder after that
/// line. `None` if the text lacks the head, or has no line `end` after it.
pub fn split_table<'a>(text: &'a [u8], head: &[u8]) -> Option<(&'a [u8], &'a [u8])>
    // The text has these parts.
    ensures found { IfSome result (λ p. HasTableAfter head.now text.now p.0.now p.1.now) }
    // Such parts are found, and no others.
    ensures only { (table rest : List ℕ) → HasTableAfter head.now text.now table rest
        → MatchOption result ⊥ (λ p. (p.0.now ≡ table) × (p.1.now ≡ rest)) }
{
    split_at_end(text.strip_prefix(head)?)
}

fn split_at_end(text: &[u8]) -> Option<(&[u8], &[u8])>
    ensures found { IfSome result (λ p. HasTableAfter [] text.now p.0.now p.1.now) }
    ensures only { (table rest : List ℕ) → HasTableAfter [] text.now table rest
        → MatchOption result ⊥ (λ p. (p.0.now ≡ table) × (p.1.now ≡ rest)) }
{
    let mut rest = text;
    while let Some((line, behind)) = split_once(rest, b'\n') {
        if line == END {
            return Some((&text[..text.len() - rest.len()], behind));
        }
        rest = behind;
    }
    None
}

/// At most one table text follows a head: the text up to the first line `end`. Either there is one, or no line `end`
/// follows. The canonical text of a valid table has no line `end`.
pub fn table_after_is_unique()
    ensures one { (head text table rest other more : List ℕ) → HasTableAfter head text table rest
        → HasTableAfter head text other more → (other ≡ table) × (more ≡ rest) }
    ensures some { (head body : List ℕ)
        → ((table : List ℕ) × (rest : List ℕ) × HasTableAfter head (head ++ body) table rest)
        ⊎ IsEndless head (head ++ body) body }
    ensures canonical { (head rest : List ℕ) (t : Table) → IsValid t
        → HasTableAfter head (head ++ (table_text t ++ (codes "end\n" ++ rest))) (table_text t) rest }
    ensures endless { (head : List ℕ) (t : Table) → IsValid t → IsEndless head (head ++ table_text t) (table_text t) }
{}
