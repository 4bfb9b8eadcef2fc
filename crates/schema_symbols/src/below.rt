//! The names directly below the prefixes of packages.
//!
//! A package may have many parts, and below most of its prefixes there is only its next part. The other prefixes are
//! few, and are found once.

ghost use Rattle.std.specs.Prelude.{◌≡◌, ◌<◌, IfOk, length};
ghost use Rattle.schema_symbols.specs.Numbers.{AreWellNested, scope_count};
ghost use Rattle.schema_symbols.specs.Below.{with_prefix, is_one, KnowsMore, KnowsPackage, KnowsBelow, IsBusy, AreBusy};

use crate::scope_indices::ScopeIndices;
use mrpc_table::Memory;
use proto_ast::Enclosing;
use std::alloc::Global;

// What is known of the names directly below a scope.
#[derive(Clone, Copy)]
pub(crate) enum KnownBelow {
    Nothing,
    // Package prefixes of one full name, whose scope has this number.
    One(usize),
    // Package prefixes of several full names, or types.
    Several,
}

impl KnownBelow {
    // Adds a package prefix.
    fn with(self, scope: usize) -> KnownBelow
        ensures { result ≡ with_prefix self scope }
    {
        match self {
            KnownBelow::Nothing => KnownBelow::One(scope),
            KnownBelow::One(other) => {
                if other == scope {
                    KnownBelow::One(other)
                } else {
                    KnownBelow::Several
                }
            }
            KnownBelow::Several => KnownBelow::Several,
        }
    }

    // True if only package prefixes of one full name are known.
    fn is_one(self) -> bool
        ensures { result ≡ is_one self }
    {
        matches!(self, KnownBelow::One(_))
    }
}

// Records the prefixes of a file's package, and that the package may contain types.
fn note_package(places: &ScopeIndices, file: usize, below: &mut [KnownBelow])
    requires there { file < length places.now.heads }
    requires all { length below.old ≡ scope_count places.now }
    ensures grows { KnowsMore below.old below.new }
    ensures notes { KnowsPackage places.now file below.new }
{
    let depth = places.depth(file);
    for n in 0..depth {
        let outer = places.prefix(file, n);
        let next = places.prefix(file, n + 1);
        below[outer] = below[outer].with(next);
    }
    let package = places.prefix(file, depth);
    below[package] = KnownBelow::Several;
}

// What is below each scope.
fn names_below(alloc: Global, places: &ScopeIndices) -> Result<Vec<KnownBelow>, Memory>
    ensures all { IfOk result (λ v. length v.items ≡ scope_count places.now) }
    ensures tells { IfOk result (λ v. KnowsBelow places.now v.items) }
{
    let mut below = vec![in alloc; KnownBelow::Nothing; places.count()]?;
    for file in 0..places.heads().len() {
        note_package(places, file, &mut below);
    }
    for i in 0..places.messages().len() {
        let scope = places.number(Enclosing::Message(i));
        below[scope] = KnownBelow::Several;
    }
    Ok(below)
}

// The prefixes of a file's package below which there may be more than its next part, by their number of parts, the
// longest first.
fn busy_prefixes(
    alloc: Global,
    places: &ScopeIndices,
    below: &[KnownBelow],
    file: usize,
) -> Result<Vec<usize>, Memory>
    requires there { file < length places.now.heads }
    requires all { length below.now ≡ scope_count places.now }
    requires tells { KnowsBelow places.now below.now }
    requires behind { AreWellNested places.now }
    ensures { IfOk result (λ v. IsBusy places.now file v.items) }
{
    let mut busy = Vec::new(alloc);
    for n in (0..places.depth(file) + 1).rev() {
        let front = places.prefix(file, n);
        if below[front].is_one() {
            continue;
        }
        busy.push(n)?;
    }
    Ok(busy)
}

// For each file, the prefixes of its package below which there may be more than its next part, by their number of
// parts, the longest first.
pub(crate) fn all_busy_prefixes(
    alloc: Global,
    places: &ScopeIndices,
) -> Result<Vec<Vec<usize>>, Memory>
    requires { AreWellNested places.now }
    ensures { IfOk result (λ v. AreBusy places.now (length places.now.heads) v.items) }
{
    let below = names_below(alloc, places)?;
    let count = places.heads().len();
    let mut all = Vec::with_capacity(alloc, count)?;
    for file in 0..count {
        all.push(busy_prefixes(alloc, places, &below, file)?)?;
    }
    Ok(all)
}
