//! The oneofs of a message in a table.

ghost use Rattle.std.specs.Prelude.{◌≡◌, ◌<◌, ◌^◌, [], length, IfOk};
ghost use Rattle.schema_resolve.specs.Joining.{AreUnplaced, HasOneofs, HasPlace, IsPlacedOneof};

use mrpc_table::{Memory, Names};
use proto_ast::Word;
use std::alloc::Global;

// The oneofs of a message in the order in which its fields need them, and their indices by those in the file's
// message.
#[derive(Drop)]
pub(crate) struct Oneofs {
    pub names: Names,
    pub places: Vec<Option<u32>>,
}

// No indices, for this many oneofs.
fn unplaced(alloc: Global, count: usize) -> Result<Vec<Option<u32>>, Memory>
    ensures { IfOk result (λ v. AreUnplaced count v.items) }
{
    let mut places = Vec::with_capacity(alloc, count)?;
    for _ in 0..count {
        places.push(None)?;
    }
    Ok(places)
}

impl Oneofs {
    // No oneof is added yet.
    pub(crate) fn new(alloc: Global, words: &[Word]) -> Result<Oneofs, Memory>
        ensures keeps { IfOk result (HasOneofs words.now) }
        ensures none { IfOk result (λ o. o.names ≡ []) }
    {
        Ok(Oneofs {
            names: Names::new(alloc),
            places: unplaced(alloc, words.len())?,
        })
    }

    // The index of a oneof. If the oneof is new, it is added with the next index.
    pub(crate) fn place_of(
        &mut self,
        alloc: Global,
        words: &[Word],
        i: usize,
    ) -> Result<u32, Memory>
        requires keeps { HasOneofs words.now self.old }
        requires within { i < length words.now }
        requires few { length self.old.names < 2 ^ 32 }
        ensures keeps { IfOk result (λ p. HasOneofs words.now self.new) }
        ensures place { IfOk result (HasPlace self.old.names self.new.names) }
        ensures named { IfOk result (IsPlacedOneof words.now self.new.names i) }
    {
        if let Some(place) = self.places[i] {
            return Ok(place);
        }
        let place = self.names.len() as u32;
        let name = words[i].name.copied(alloc)?;
        self.names.push(name)?;
        self.places[i] = Some(place);
        Ok(place)
    }
}
