//! Laws of violations. The functions have no effect: each clause is a law.

ghost use Rattle.std.specs.Prelude.{◌≡◌};
ghost use Rattle.proto_ast.specs.Order.{DeclPart};
ghost use Rattle.proto_ast.specs.Together.{IsOrdered, DeclIndex, IsPartSpan};
ghost use Rattle.proto_ast.specs.declared.file.Span.{Span};
ghost use Rattle.proto_ast.specs.Joined.{Joined};
ghost use Rattle.schema_validation.specs.Violations.{IsViolated, HasFirstViolation};
ghost use Rattle.schema_validation.specs.declared.reason.ResolveReason.{ResolveReason};

/// Files in order have at most one first violation: two of them have the same reason and span.
pub fn first_violation_is_unique()
    ensures { (F : Joined) (q r : ResolveReason) (s t : Span) → IsOrdered F → HasFirstViolation F q s → HasFirstViolation F r t
        → (q ≡ r) × (s ≡ t) }
{}

/// Every violation is at a name or a number.
pub fn violations_have_spans()
    ensures { (F : Joined) (q : ResolveReason) (s : Span) → IsViolated F q s
        → (d : DeclIndex) × (part : DeclPart) × IsPartSpan F s d part }
{}
