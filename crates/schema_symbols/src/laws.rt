//! Laws of names. The functions have no effect: each clause is a law.

ghost use Rattle.std.specs.Prelude.{◌≡◌, ◌<◌, ℕ, List};
ghost use Rattle.proto_ast.specs.Joined.{Joined};
ghost use Rattle.proto_ast.specs.declared.joined.Enclosing.{Enclosing};
ghost use Rattle.schema_symbols.specs.Numbers.{AreWellNested, HaveDistinctStarts, IsEnclosing, IsScopeNumber, scope_count};
ghost use Rattle.schema_symbols.specs.Scopes.{DeclKind, IsScope, IsReferenceTo};

/// A file or a message that exists has exactly one scope.
pub fn scope_is_determined()
    ensures exists { (F : Joined) (home : Enclosing) → AreWellNested F → IsEnclosing F home
        → (scope : List (List ℕ)) × IsScope F home scope }
    ensures one { (F : Joined) (home : Enclosing) (s t : List (List ℕ)) → IsScope F home s → IsScope F home t → s ≡ t }
{}

/// A scope has at most one number, less than `scope_count`, and no other scope has the same number.
pub fn scope_number_is_unique()
    ensures scope { (F : Joined) (s t : List (List ℕ)) (k : ℕ) → IsScopeNumber F s k → IsScopeNumber F t k → s ≡ t }
    ensures number { (F : Joined) (s : List (List ℕ)) (k l : ℕ) → IsScopeNumber F s k → IsScopeNumber F s l → k ≡ l }
    ensures small { (F : Joined) (s : List (List ℕ)) (k : ℕ) → IsScopeNumber F s k → k < scope_count F }
{}

/// If no two names start at the same offset, a reference names at most one message or enum.
pub fn reference_is_unique()
    ensures { (F : Joined) (file : ℕ) (scope : List (List ℕ)) (name : List ℕ) (a b : DeclKind) (f g : List (List ℕ))
        → HaveDistinctStarts F → IsReferenceTo F file scope name a f → IsReferenceTo F file scope name b g → (a ≡ b) × (f ≡ g) }
{}
