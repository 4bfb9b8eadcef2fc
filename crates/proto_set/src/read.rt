//! The files of a set.

ghost use Rattle.std.specs.Prelude.{◌≡◌, ◌≢◌, ◌↔◌, ℕ, List, IsTrue, IfOk, IfErr, MatchResult};
ghost use Rattle.proto_set.specs.Bundle.{BundledFile, IsBundle, IsBundleOf};
ghost use Rattle.proto_set.specs.BundleFaults.{IsBundleFault, IsFaultOf};
ghost use Rattle.proto_set.specs.Named.{files_of};
ghost use Rattle.proto_set.specs.declared.bundle_fault.BundleFault.TheVariants.{Bundle, Memory as NoMemory};

use crate::bundle_fault::BundleFault;
use crate::bundle_laws::bundle_or_fault;
use crate::header::first_file;
use crate::named::Named;
use mrpc_table::MAX_FILES;
use std::alloc::Global;

// The first line of a set of files.
const FIRST_LINE: &[u8] = b"mrpc-files 1\n";

// The first line without its line feed.
const UNENDED_LINE: &[u8] = b"mrpc-files 1";

/// True if an input is meant as a set of files: its first line is `mrpc-files 1`, with a line feed unless nothing
/// follows.
pub fn is_bundle(input: &[u8]) -> bool
    ensures { IsTrue result ↔ IsBundle input.now }
{
    input.starts_with(FIRST_LINE) || input == UNENDED_LINE
}

/// Returns the files of a set, borrowed from the input. The first is the root. The error is the first file that can't
/// be read, or `Memory`. Paths may have any form here.
pub fn read_bundle<'a>(alloc: Global, input: &'a [u8]) -> Result<Vec<Named<'a>>, BundleFault>
    requires { IsBundle input.now }
    // The files read are the set that the input is the text of.
    ensures read { IfOk result (λ read. IsBundleOf input.now (files_of read.items)) }
    // If the input is the text of a set, that set is read, unless memory runs out.
    ensures only { (files : List BundledFile) → IsBundleOf input.now files
        → MatchResult result (λ read. files_of read.items ≡ files) (λ fault. fault ≡ NoMemory) }
    // A fault is the first one.
    ensures fault { IfErr result (IsFaultOf input.now) }
    // If the input has a first fault, it is returned, unless memory runs out.
    ensures found { (k : ℕ) → IsBundleFault input.now k
        → MatchResult result (λ _. ⊥) (λ fault. fault ≢ NoMemory → fault ≡ Bundle k) }
{
    bundle_or_fault();
    read_files(alloc, input)
}

fn read_files<'a>(alloc: Global, input: &'a [u8]) -> Result<Vec<Named<'a>>, BundleFault>
    requires { IsBundle input.now }
    ensures read { IfOk result (λ read. IsBundleOf input.now (files_of read.items)) }
    ensures fault { IfErr result (IsFaultOf input.now) }
{
    let Some(behind) = input.strip_prefix(FIRST_LINE) else {
        return Err(BundleFault::Bundle { file: 1 });
    };
    let mut files = Vec::new(alloc);
    let mut rest = behind;
    while !rest.is_empty() {
        let file = files.len() as u32 + 1;
        if files.len() == MAX_FILES {
            return Err(BundleFault::Bundle { file });
        }
        let Some((first, behind)) = first_file(rest) else {
            return Err(BundleFault::Bundle { file });
        };
        files.push(first)?;
        rest = behind;
    }
    if files.is_empty() {
        return Err(BundleFault::Bundle { file: 1 });
    }
    Ok(files)
}
