//! The pieces that a drawing's text is made of.

// A piece of the text.
#[derive(Clone, Copy)]
pub(crate) enum SvgPiece<'a> {
    // The drawing's own text.
    Text(&'a [u8]),
    Number(u64),
    // Words of the input, with the markup characters escaped. Long ones are truncated.
    Quote(&'a [u8]),
}
