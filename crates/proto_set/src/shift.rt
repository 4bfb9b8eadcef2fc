//! The parts of declarations, shifted past other texts.

ghost use Rattle.std.specs.Prelude.{◌≡◌, ℕ, ◌+◌, ◌-◌, ◌<◌, ◌^◌, All, map};
ghost use Rattle.proto_set.specs.Shifted.{shift_span, shift_word, shift_number, shift_range, shift_type, shift_field, shift_value, shift_rpc};
ghost use Rattle.proto_ast.specs.Within.{IsSpanWithin, IsWordWithin, IsNumberWithin, IsRangeWithin, IsTypeWithin, IsFieldWithin, IsValueWithin, IsRpcWithin};

use mrpc_table::Sequence;
use proto_ast::{FieldDecl, FieldType, Number, Range, RpcDecl, Span, ValueDecl, Word};

// Something with offsets in a text, which can be shifted past other texts.
pub(crate) trait Shift {
    ghost shifted: { ℕ → Self → Self };

    ghost is_within: { ℕ → Self → Type 0 };

    // Adds this many bytes to its offsets, in place.
    fn shift(&mut self, bytes: usize)
        requires { is_within (2 ^ 64 - 1 - bytes) self.old }
        ensures { self.new ≡ shifted bytes self.old };
}

// Adds this many bytes to the offsets of each item, in place.
pub(crate) fn shift_all<T: Shift>(items: Sequence<T>, bytes: usize) -> Sequence<T>
    requires { All (T.is_within (2 ^ 64 - 1 - bytes)) items }
    ensures { result ≡ map (T.shifted bytes) items }
{
    let mut items = items.into_vec();
    for item in items.iter_mut() {
        item.shift(bytes);
    }
    Sequence::from_vec(items)
}

fn shifted_span(span: Span, bytes: usize) -> Span
    requires { IsSpanWithin (2 ^ 64 - 1 - bytes) span }
    ensures { result ≡ shift_span bytes span }
{
    Span {
        start: bytes + span.start,
        end: bytes + span.end,
        line: span.line,
    }
}

// A number with this many bytes added to its offsets.
pub(crate) fn shifted_number(number: Number, bytes: usize) -> Number
    requires { IsNumberWithin (2 ^ 64 - 1 - bytes) number }
    ensures { result ≡ shift_number bytes number }
{
    Number {
        negative: number.negative,
        value: number.value,
        span: shifted_span(number.span, bytes),
    }
}

impl Shift for Word {
    ghost shifted = { shift_word };

    ghost is_within = { IsWordWithin };

    fn shift(&mut self, bytes: usize) {
        self.span = shifted_span(self.span, bytes);
    }
}

impl Shift for Range {
    ghost shifted = { shift_range };

    ghost is_within = { IsRangeWithin };

    fn shift(&mut self, bytes: usize) {
        self.first = shifted_number(self.first, bytes);
        if let Some(last) = self.last {
            self.last = Some(shifted_number(last, bytes));
        }
    }
}

impl Shift for FieldType {
    ghost shifted = { shift_type };

    ghost is_within = { IsTypeWithin };

    fn shift(&mut self, bytes: usize) {
        match self {
            FieldType::Named(word) => word.shift(bytes),
            FieldType::Map { key, value } => {
                key.shift(bytes);
                value.shift(bytes);
            }
            FieldType::NestedMap { key } => key.shift(bytes),
        }
    }
}

impl Shift for FieldDecl {
    ghost shifted = { shift_field };

    ghost is_within = { IsFieldWithin };

    fn shift(&mut self, bytes: usize) {
        self.name.shift(bytes);
        self.number = shifted_number(self.number, bytes);
        self.kind.shift(bytes);
    }
}

impl Shift for ValueDecl {
    ghost shifted = { shift_value };

    ghost is_within = { IsValueWithin };

    fn shift(&mut self, bytes: usize) {
        self.name.shift(bytes);
        self.number = shifted_number(self.number, bytes);
    }
}

impl Shift for RpcDecl {
    ghost shifted = { shift_rpc };

    ghost is_within = { IsRpcWithin };

    fn shift(&mut self, bytes: usize) {
        self.name.shift(bytes);
        self.input.shift(bytes);
        self.output.shift(bytes);
    }
}
