//! The numbers of scopes.

ghost use Rattle.std.specs.Prelude.{◌≡◌, ◌+◌, ◌<◌, ◌++◌, ◌∷◌, [], ℕ, List, Some, None, IfOk, OnOk, length, cond};
ghost use Rattle.std.specs.Option.{unwrap_or};
ghost use Rattle.schema_symbols.specs.Numbers.{AreWellNested, prefixes_before, all_prefix_count, scope_count};
ghost use Rattle.schema_symbols.specs.Children.{child, same_child};
ghost use Rattle.schema_symbols.specs.Numbered.{HasNumberedScopes, AreDepths, IsPackage, ArePackages, scope_number_of, HasScopeNumber};

use crate::children::Children;
use crate::parts::{last_places, package_parts};
use mrpc_table::Memory;
use proto_ast::{Enclosing, Joined};
use std::alloc::Global;
use std::collections::BTreeMap;

// The numbers of the scopes listed so far, and the number of each name in a scope.
#[derive(Drop)]
pub(crate) struct Numbering<'a> {
    pub numbers: Vec<usize>,
    pub inner: Children<'a, usize>,
}

// The package of a file.
#[derive(Drop)]
pub(crate) struct Package<'a> {
    pub parts: Vec<&'a [u8]>,
    // The last index of each part.
    pub last_places: BTreeMap<&'a [u8], usize>,
    // The index of its first prefix, which is the root.
    pub start: usize,
    // The number of its scope.
    pub number: usize,
}

impl<'a> Numbering<'a> {
    // An empty numbering.
    pub(crate) fn new(alloc: Global) -> Numbering<'a>
        ensures numbers { result.numbers.items ≡ [] }
        ensures inner { (k : ℕ) (name : List ℕ) → child result.inner k name ≡ None }
    {
        Numbering {
            numbers: Vec::new(alloc),
            inner: Children::new(alloc),
        }
    }

    // Gives the next listed scope the root's number.
    pub(crate) fn list_root(&mut self) -> Result<(), Memory>
        ensures numbers { OnOk result (self.new.numbers.items ≡ self.old.numbers.items ++ 0 ∷ []) }
        ensures inner { OnOk result (self.new.inner ≡ self.old.inner) }
    {
        self.numbers.push(0)?;
        Ok(())
    }

    // Gives the next listed scope the number of a name in a scope, or a new one.
    pub(crate) fn list(&mut self, outer: usize, name: &'a [u8]) -> Result<usize, Memory>
        ensures number { IfOk result (λ n. n
            ≡ unwrap_or (child self.old.inner outer name.now) (length self.old.numbers.items)) }
        ensures numbers { IfOk result (λ n. self.new.numbers.items ≡ self.old.numbers.items ++ n ∷ []) }
        ensures inner { IfOk result (λ n. (k : ℕ) (other : List ℕ) → child self.new.inner k other
            ≡ cond (same_child outer name.now k other) (Some n) (child self.old.inner k other)) }
    {
        let next = self.numbers.len();
        let number = self.inner.get(outer, name).copied().unwrap_or(next);
        self.inner.insert(outer, name, number)?;
        self.numbers.push(number)?;
        Ok(number)
    }
}

// The number of the scope inside a file or a message.
pub(crate) fn number_in(
    packages: &[Package],
    fronts: usize,
    numbers: &[usize],
    home: Enclosing,
) -> usize
    requires { HasScopeNumber packages.now fronts numbers.now home }
    ensures { result ≡ scope_number_of packages.now fronts numbers.now home }
{
    match home {
        Enclosing::File(file) => packages[file].number,
        Enclosing::Message(message) => numbers[fronts + message],
    }
}

// Numbers the prefixes of a file's package.
fn number_package<'a>(
    alloc: Global,
    files: &Joined<'a>,
    file: usize,
    numbering: &mut Numbering<'a>,
    depths: &mut Vec<usize>,
) -> Result<Package<'a>, Memory>
    requires there { file < length files.now.heads }
    requires numbers { HasNumberedScopes files.now (prefixes_before files.now file) numbering.old }
    requires depths { AreDepths files.now (prefixes_before files.now file) depths.old.items }
    ensures package { IfOk result (IsPackage files.now file) }
    ensures numbers { OnOk result (HasNumberedScopes files.now (prefixes_before files.now (file + 1)) numbering.new) }
    ensures depths { OnOk result (AreDepths files.now (prefixes_before files.now (file + 1)) depths.new.items) }
{
    let head = &files.heads()[file];
    let parts = package_parts(alloc, &head.package)?;
    let start = depths.len();
    numbering.list_root()?;
    depths.push(0)?;
    let mut number = 0;
    for n in 0..parts.len() {
        number = numbering.list(number, parts[n])?;
        depths.push(n + 1)?;
    }
    let last_places = last_places(alloc, &parts)?;
    Ok(Package {
        parts,
        last_places,
        start,
        number,
    })
}

// Numbers the prefixes of the files' packages. `depths` receives the number of parts of each prefix.
pub(crate) fn number_packages<'a>(
    alloc: Global,
    files: &Joined<'a>,
    numbering: &mut Numbering<'a>,
    depths: &mut Vec<usize>,
) -> Result<Vec<Package<'a>>, Memory>
    requires numbers { HasNumberedScopes files.now 0 numbering.old }
    requires depths { AreDepths files.now 0 depths.old.items }
    ensures packages { IfOk result (λ v. ArePackages files.now (length files.now.heads) v.items) }
    ensures numbers { OnOk result (HasNumberedScopes files.now (all_prefix_count files.now) numbering.new) }
    ensures depths { OnOk result (AreDepths files.now (all_prefix_count files.now) depths.new.items) }
{
    let count = files.heads().len();
    let mut packages = Vec::with_capacity(alloc, count)?;
    for file in 0..count {
        packages.push(number_package(alloc, files, file, numbering, depths)?)?;
    }
    Ok(packages)
}

// Numbers the scopes of messages, after those of packages.
pub(crate) fn number_messages<'a>(
    files: &Joined<'a>,
    packages: &[Package],
    numbering: &mut Numbering<'a>,
) -> Result<(), Memory>
    requires behind { AreWellNested files.now }
    requires packages { ArePackages files.now (length files.now.heads) packages.now }
    requires numbers { HasNumberedScopes files.now (all_prefix_count files.now) numbering.old }
    ensures { OnOk result (HasNumberedScopes files.now (scope_count files.now) numbering.new) }
{
    let fronts = numbering.numbers.len();
    let messages = files.messages();
    for i in 0..messages.len() {
        let message = &messages[i];
        let outer = number_in(packages, fronts, &numbering.numbers, message.enclosing());
        numbering.list(outer, message.name.name.as_slice())?;
    }
    Ok(())
}
