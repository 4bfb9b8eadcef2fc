//! Copies of trees.

ghost use Rattle.std.specs.Prelude.{◌≡◌, IfOk};
ghost use Rattle.mrpc_table.specs.View.{item_of, content_of};

use crate::memory::Memory;
use crate::tree::{FieldValue, Tree, Value};
use std::alloc::Global;

impl Tree {
    /// An equal tree in memory of its own. Takes time linear in the parts of the tree.
    #[cycle(copied)]
    pub fn copied(&self, alloc: Global) -> Result<Tree, Memory>
        ensures { IfOk result (λ t. t ≡ self.now) }
    {
        let mut fields = Vec::with_capacity(alloc, self.fields.len())?;
        for field in &self.fields {
            let content = field.1.copied(alloc)?;
            fields.push((field.0, content))?;
        }
        Ok(Tree { fields })
    }
}

impl FieldValue {
    #[cycle(copied)]
    fn copied(&self, alloc: Global) -> Result<FieldValue, Memory>
        ensures { IfOk result (λ c. content_of c ≡ content_of self.now) }
    {
        match self {
            FieldValue::One(value) => Ok(FieldValue::One(value.copied(alloc)?)),
            FieldValue::Many(values) => {
                let mut copies = Vec::with_capacity(alloc, values.len())?;
                for value in values {
                    copies.push(value.copied(alloc)?)?;
                }
                Ok(FieldValue::Many(copies))
            }
            FieldValue::Pairs(entries) => {
                let mut copies = Vec::with_capacity(alloc, entries.len())?;
                for entry in entries {
                    let key = entry.0.copied(alloc)?;
                    let value = entry.1.copied(alloc)?;
                    copies.push((key, value))?;
                }
                Ok(FieldValue::Pairs(copies))
            }
        }
    }
}

impl Value {
    #[cycle(copied)]
    fn copied(&self, alloc: Global) -> Result<Value, Memory>
        ensures { IfOk result (λ v. item_of v ≡ item_of self.now) }
    {
        match self {
            Value::Number(n) => Ok(Value::Number(*n)),
            Value::Run(bytes) => Ok(Value::Run(bytes.copied(alloc)?)),
            Value::Node(tree) => Ok(Value::Node(tree.copied(alloc)?)),
        }
    }
}
