//! The text of an SVG, which is plain ASCII whatever it quotes.

ghost use Rattle.std.specs.Prelude.{◌≡◌, ◌++◌, [], OnOk, map};
ghost use Rattle.std.specs.Fmt.{decimal};
ghost use Rattle.std.specs.List.{flat_map};
ghost use Rattle.view_top.specs.SvgPieces.{ArePlain, IsPlainPiece, quoted_words, quoted_byte, svg, piece_text};
ghost use Rattle.view_top.specs.Plain.{IsPlain, is_plain};
ghost use Rattle.view_top.specs.DrawingData.{svg_piece as piece_view};

use crate::limits::QUOTED;
use crate::svg_piece::SvgPiece;
use mrpc_table::{Bytes, Memory};
use std::alloc::Global;
use std::marker::Model;

// Bytes that a terminal prints. Clauses see a list of bytes.
#[derive(Drop)]
pub(crate) struct Picture {
    bytes: Bytes,
}

impl Model for Picture {
    ghost use Rattle.std.specs.Prelude.{ℕ, List};
    ghost use Rattle.view_top.specs.Plain.{IsPlain};

    ghost Value = { List ℕ };

    ghost view = { λ p. p.bytes };

    ghost invariant = { λ p. IsPlain p.bytes };
}

impl Picture {
    // An empty picture.
    pub(crate) fn new(alloc: Global) -> Picture
        ensures { result ≡ [] }
    {
        Picture {
            bytes: Bytes::new(alloc),
        }
    }

    // The bytes.
    pub(crate) fn into_bytes(self) -> Bytes
        ensures same { result ≡ self }
        ensures plain { IsPlain result }
    {
        self.bytes
    }

    // Appends pieces in order.
    #[tactic(auto, unfolding(crate::specs::SvgPieces::svg))]
    pub(crate) fn put(&mut self, pieces: &[SvgPiece<'_>]) -> Result<(), Memory>
        requires { ArePlain (map piece_view pieces.now) }
        ensures { OnOk result (self.new ≡ self.old ++ svg (map piece_view pieces.now)) }
    {
        for piece in pieces {
            self.put_piece(*piece)?;
        }
        Ok(())
    }

    fn put_piece(&mut self, piece: SvgPiece<'_>) -> Result<(), Memory>
        requires { IsPlainPiece (piece_view piece) }
        ensures { OnOk result (self.new ≡ self.old ++ piece_text (piece_view piece.entry)) }
    {
        match piece {
            SvgPiece::Text(text) => self.put_text(text),
            SvgPiece::Number(number) => self.put_number(number),
            SvgPiece::Quote(words) => self.put_quote(words),
        }
    }

    #[tactic(auto, using(crate::proofs::Plainness::plain_both))]
    fn put_text(&mut self, text: &[u8]) -> Result<(), Memory>
        requires { IsPlain text.now }
        ensures { OnOk result (self.new ≡ self.old ++ text.now) }
    {
        self.bytes.append(text)
    }

    #[tactic(auto, using(crate::proofs::Plainness::plain_both, crate::proofs::Plainness::plain_decimal))]
    fn put_number(&mut self, number: u64) -> Result<(), Memory>
        ensures { OnOk result (self.new ≡ self.old ++ decimal number) }
    {
        self.bytes.append_decimal(number)
    }

    #[tactic(auto, using(std::proofs::lemmas::List::take_min))]
    fn put_quote(&mut self, words: &[u8]) -> Result<(), Memory>
        ensures { OnOk result (self.new ≡ self.old ++ quoted_words words.now) }
    {
        self.put_bytes(&words[..QUOTED.min(words.len())])
    }

    // Appends bytes of the input.
    fn put_bytes(&mut self, bytes: &[u8]) -> Result<(), Memory>
        ensures { OnOk result (self.new ≡ self.old ++ flat_map quoted_byte bytes.now) }
    {
        for byte in bytes {
            self.put_byte(*byte)?;
        }
        Ok(())
    }

    // Appends a byte of the input.
    #[tactic(auto, using(crate::proofs::Plainness::plain_one))]
    fn put_byte(&mut self, byte: u8) -> Result<(), Memory>
        ensures { OnOk result (self.new ≡ self.old ++ quoted_byte byte) }
    {
        if byte == b'&' {
            self.put_text(b"&amp;")
        } else if byte == b'<' {
            self.put_text(b"&lt;")
        } else if byte == b'>' {
            self.put_text(b"&gt;")
        } else if is_plain(byte) {
            self.put_text(&[byte])
        } else {
            self.put_text(b"?")
        }
    }
}

// Whether a terminal prints a byte.
fn is_plain(byte: u8) -> bool
    ensures { result ≡ is_plain byte }
{
    (byte >= 32 && byte < 127) || byte == b'\n'
}
