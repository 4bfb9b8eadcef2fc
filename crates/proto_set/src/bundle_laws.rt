//! Laws of all inputs, and of all lists of files. The functions have no effect: each clause is a law.

ghost use Rattle.std.specs.Prelude.{◌≡◌, ◌<◌, ◌^◌, ℕ, Some};
ghost use Rattle.std.specs.Fmt.{decimal};
ghost use Rattle.mrpc_table.specs.Lines.{number_of};
ghost use Rattle.proto_set.specs.Bundle.{decimal_word};
ghost use Rattle.proto_set.specs.Laws.{IsBundleUnique, IsNeverBundleAndFault, IsBundleOrFault, IsBundleFaultUnique};
ghost use Rattle.proto_set.specs.Laws.{AreValidOrRejected, AreNeverValidAndRejected, IsRejectionUnique};

/// An input is the text of at most one list of files, and has at most one first file that can't be read, and never
/// both. An input with the first line `mrpc-files 1` has one of the two.
pub fn bundle_or_fault()
    ensures once { IsBundleUnique }
    ensures never_both { IsNeverBundleAndFault }
    ensures never_neither { IsBundleOrFault }
    ensures one_fault { IsBundleFaultUnique }
{}

/// Every list of files has valid paths or a first file whose path is rejected, and never both.
pub fn valid_or_rejected()
    ensures once { IsRejectionUnique }
    ensures never_both { AreNeverValidAndRejected }
    ensures never_neither { AreValidOrRejected }
{}

/// The digits of a header line are read as the number that they spell. For a number of 64 bits they are the digits of
/// `decimal`.
pub fn decimal_is_round_trip()
    ensures read { (n : ℕ) → number_of (decimal_word n) ≡ Some n }
    ensures printed { (n : ℕ) → n < 2 ^ 64 → decimal_word n ≡ decimal n }
{}
