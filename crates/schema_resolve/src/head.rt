//! The head of a file alone.

ghost use Rattle.std.specs.Prelude.{◌≡◌, IfOk};
ghost use Rattle.proto_ast.specs.Joined.{alone};

use mrpc_table::{Memory, Sequence};
use proto_ast::{File, Head, Heads, Word};
use std::alloc::Global;

fn package_of(alloc: Global, file: &File) -> Result<Option<Word>, Memory>
    ensures { IfOk result (λ w. w ≡ file.now.package) }
{
    match &file.package {
        Some(word) => {
            let name = word.name.copied(alloc)?;
            Ok(Some(Word {
                name,
                span: word.span,
            }))
        }
        None => Ok(None),
    }
}

// The head of a file alone, which sees itself.
pub(crate) fn head_of(alloc: Global, file: &File) -> Result<Heads, Memory>
    ensures { IfOk result (λ heads. heads ≡ (alone file.now).heads) }
{
    let mut sees = Sequence::new(alloc);
    sees.push(0)?;
    let package = package_of(alloc, file)?;
    let mut heads = Sequence::new(alloc);
    heads.push(Head { package, sees })?;
    Ok(heads)
}
