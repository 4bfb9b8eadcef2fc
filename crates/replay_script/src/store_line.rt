//! Reads lines that store a word, in one pass over their bytes: nearly all lines of a long script are such.

ghost use Rattle.std.specs.Prelude.{◌≡◌, ◌∷◌, true, IfSome};
ghost use Rattle.std.specs.Char.{is_ascii_digit};
ghost use Rattle.std.specs.List.{list_all};
ghost use Rattle.script_grammar.specs.declared.form.LineForm.TheVariants.{Store as StoreForm};
ghost use Rattle.replay_script.specs.Stores.{store_words, IsNumberBefore, IsFirstLineOf};

use mrpc_table::Decimal;

// Any number of this many digits fits 64 bits.
const FEW_DIGITS: usize = 19;

// The values of a `store` line.
#[derive(Clone, Copy)]
pub(crate) struct StoreLine {
    pub conn: u64,
    pub place: Decimal,
    pub value: u64,
}

// Reads the leading digits of a text as a number. Returns it with the remainder; `None` if the text doesn't start with
// a number. At most 19 digits are read; further ones stay in the remainder. Inlined, since a call costs as much as some
// digits, and nearly every line of a long script has three numbers.
#[inline(always)]
pub(crate) fn prefix_number(text: &[u8]) -> Option<(u64, &[u8])>
    ensures { IfSome result (λ r. IsNumberBefore text.now r.0 r.1.now) }
{
    let [first, ..] = text else {
        return None;
    };
    if !first.is_ascii_digit() {
        return None;
    }
    let mut number = u64::from(*first) - u64::from(b'0');
    let mut count = 1;
    // (After a leading zero no digit follows.)
    let most = if number == 0 {
        1
    } else {
        text.len().min(FEW_DIGITS)
    };
    while count < most && text[count].is_ascii_digit() {
        number = number * 10 + (u64::from(text[count]) - u64::from(b'0'));
        count += 1;
    }
    Some((number, &text[count..]))
}

// Returns the remainder of a text after a space.
pub(crate) fn after_space(text: &[u8]) -> Option<&[u8]>
    ensures { IfSome result (λ r. text.now ≡ 32 ∷ r.now) }
{
    match text {
        [b' ', rest @ ..] => Some(rest),
        _ => None,
    }
}

// Returns the remainder of a text after a line feed.
pub(crate) fn after_feed(text: &[u8]) -> Option<&[u8]>
    ensures { IfSome result (λ r. text.now ≡ 10 ∷ r.now) }
{
    match text {
        [b'\n', rest @ ..] => Some(rest),
        _ => None,
    }
}

// Returns the remainder after the first word of a `store` line.
fn after_store(text: &[u8]) -> Option<&[u8]>
    ensures { IfSome result (λ r. text.now ≡ 115 ∷ 116 ∷ 111 ∷ 114 ∷ 101 ∷ 32 ∷ r.now) }
{
    match text {
        [b's', b't', b'o', b'r', b'e', b' ', rest @ ..] => Some(rest),
        _ => None,
    }
}

// Reads a `store` line with short decimal numbers at the start of a text. Returns its values and the remainder; `None`
// for each other line, which has to be read word by word.
#[inline(always)]
pub(crate) fn prefix_store(text: &[u8]) -> Option<(StoreLine, &[u8])>
    ensures { IfSome result (λ r. IsFirstLineOf StoreForm text.now (store_words r.0) r.1.now) }
{
    let words = after_store(text)?;
    let (conn, behind) = prefix_number(words)?;
    if conn < 1 || conn > 16 {
        return None;
    }
    let (place, behind) = prefix_number(after_space(behind)?)?;
    let (value, behind) = prefix_number(after_space(behind)?)?;
    let left = after_feed(behind)?;
    let store = StoreLine {
        conn,
        place: Decimal::Small(place),
        value,
    };
    Some((store, left))
}
