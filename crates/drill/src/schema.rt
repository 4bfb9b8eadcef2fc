//! The schema of the drill: a message with one number field, and a service with one method on it.

ghost use Rattle.std.specs.Prelude.{◌≡◌, [], ◌∷◌, codes, IfOk};
ghost use Rattle.drill.specs.Drill.{field, message, method, schema};

use mrpc_table::{Bytes, Field, Kind, Label, Memory, Message, Method, Name, Sequence, Table};
use std::alloc::Global;

// The service to which all applications bind.
pub(crate) const SERVICE: &[u8] = b"S";

// The table of the schema.
pub(crate) fn schema(alloc: Global) -> Result<Table, Memory>
    ensures { IfOk result (λ T. T ≡ schema) }
{
    Ok(Table {
        messages: one(alloc, message(alloc)?)?,
        enums: Sequence::new(alloc),
        methods: one(alloc, method(alloc)?)?,
    })
}

// A list of one item.
pub(crate) fn one<T: Drop>(alloc: Global, item: T) -> Result<Sequence<T>, Memory>
    ensures { IfOk result (λ items. items ≡ item ∷ []) }
{
    let mut items = Sequence::new(alloc);
    items.push(item)?;
    Ok(items)
}

// A name that is known at compile time.
pub(crate) fn name(alloc: Global, word: &[u8]) -> Result<Name, Memory>
    ensures { IfOk result (λ name. name ≡ word.now) }
{
    Bytes::from_slice(alloc, word)
}

fn message(alloc: Global) -> Result<Message, Memory>
    ensures { IfOk result (λ m. m ≡ message) }
{
    Ok(Message {
        name: name(alloc, b"M")?,
        fields: one(alloc, field(alloc)?)?,
        oneofs: Sequence::new(alloc),
    })
}

fn field(alloc: Global) -> Result<Field, Memory>
    ensures { IfOk result (λ f. f ≡ field) }
{
    Ok(Field {
        number: 1,
        name: name(alloc, b"a")?,
        kind: Kind::Uint64,
        label: Label::Plain,
    })
}

fn method(alloc: Global) -> Result<Method, Memory>
    ensures { IfOk result (λ m. m ≡ method) }
{
    Ok(Method {
        service: name(alloc, SERVICE)?,
        name: name(alloc, b"Get")?,
        input: 0,
        output: 0,
    })
}
