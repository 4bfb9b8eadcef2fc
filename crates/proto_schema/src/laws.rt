//! Laws of proto files. The functions have no effect: each clause is a law.

ghost use Rattle.std.specs.Prelude.{◌≡◌, ◌⊎◌, ℕ, List, length};
ghost use Rattle.proto_schema.specs.Faults.{IsProtoTextOf, HasProtoFault};
ghost use Rattle.proto_ast.specs.Joined.{alone};
ghost use Rattle.proto_ast.specs.Order.{IsFormed, IsOrdered};
ghost use Rattle.proto_ast.specs.Within.{IsWithin};
ghost use Rattle.proto_ast.specs.Together as Together;
ghost use Rattle.proto_ast.specs.declared.file.File.{File};
ghost use Rattle.proto_ast.specs.declared.file.Span.{Span};
ghost use Rattle.proto_grammar.specs.declared.fault.ProtoReason.{ProtoReason};

use proto_lexer::token_list_is_determined;

/// A text reads as at most one file.
pub fn file_is_unique()
    ensures { (text : List ℕ) (f g : File) → IsProtoTextOf text f → IsProtoTextOf text g → f ≡ g }
{
    token_list_is_determined();
}

/// A text has at most one first fault.
pub fn text_fault_is_unique()
    ensures { (text : List ℕ) (q r : ProtoReason) (s t : Span) → HasProtoFault text q s → HasProtoFault text r t
        → (q ≡ r) × (s ≡ t) }
{
    token_list_is_determined();
}

/// Every text reads as a file or has a first fault, and never both.
pub fn file_or_fault()
    ensures either { (text : List ℕ)
        → ((f : File) × IsProtoTextOf text f) ⊎ ((q : ProtoReason) × (s : Span) × HasProtoFault text q s) }
    ensures not_both { (text : List ℕ) (f : File) (q : ProtoReason) (s : Span)
        → IsProtoTextOf text f → HasProtoFault text q s → ⊥ }
{
    token_list_is_determined();
}

/// A file that was read is well-formed: its indices are within its lists, each oneof has a field, each enum a value,
/// and its names have the forms of names. Its names and numbers start in the order of its lists, no two at the same
/// offset.
pub fn file_is_ordered()
    ensures formed { (text : List ℕ) (F : File) → IsProtoTextOf text F → IsFormed F }
    ensures ordered { (text : List ℕ) (F : File) → IsProtoTextOf text F → IsOrdered F }
{}

/// A file that was read is also well-formed and in order as a file that is resolved alone.
pub fn alone_is_ordered()
    ensures formed { (text : List ℕ) (F : File) → IsProtoTextOf text F → Together.IsFormed (alone F) }
    ensures ordered { (text : List ℕ) (F : File) → IsProtoTextOf text F → Together.IsOrdered (alone F) }
{}

/// Each name and number of a file starts before the end of its text, and ends there at the latest.
pub fn file_is_within()
    ensures { (text : List ℕ) (F : File) → IsProtoTextOf text F → IsWithin (length text) F }
{}
