//! Laws of joined files. The functions have no effect: each clause is a law.

ghost use Rattle.std.specs.Prelude.{◌≡◌, ℕ, List, [], ◌∷◌, All};
ghost use Rattle.proto_ast.specs.Joined.{alone};
ghost use Rattle.proto_ast.specs.Order.{DeclPart as Piece};
ghost use Rattle.proto_ast.specs.Together.{DeclIndex, IsPartSpan, IsInFile, IsFormed, IsOrdered};
ghost use Rattle.proto_ast.specs.declared.file.Span.{Span};
ghost use Rattle.proto_set.specs.declared.linked_file.LinkedFile.{LinkedFile};
ghost use Rattle.proto_set.specs.Joining.{joined, IsInText};
ghost use Rattle.proto_set.specs.WellPlaced.{AreWellPlaced};
ghost use Rattle.proto_set.specs.Texts.{IsInTextOf};

/// Files that were read are well-formed together once they are joined, and in order.
pub fn joined_is_ordered()
    ensures formed { (ps : List LinkedFile) → AreWellPlaced ps → IsFormed (joined ps) }
    ensures ordered { (ps : List LinkedFile) → AreWellPlaced ps → IsOrdered (joined ps) }
{}

/// Joining one file that sees only itself gives that file alone.
pub fn joined_alone()
    ensures { (p : LinkedFile) → p.sees ≡ 0 ∷ [] → All (λ m. m.file ≡ 0) p.file.messages → All (λ e. e.file ≡ 0) p.file.enums
        → All (λ s. s.file ≡ 0) p.file.services → joined (p ∷ []) ≡ alone p.file }
{}

/// An offset lies in the text of at most one file. Each part of a declaration starts in the text of its file.
pub fn offset_is_in_one_file()
    ensures one { (sizes : List ℕ) (j k place : ℕ) → IsInTextOf sizes j place → IsInTextOf sizes k place → j ≡ k }
    ensures own { (ps : List LinkedFile) (k : ℕ) (x : DeclIndex) (piece : Piece) (s : Span) → AreWellPlaced ps
        → IsInFile (joined ps) k x → IsPartSpan (joined ps) s x piece → IsInText ps k s.start }
{}
