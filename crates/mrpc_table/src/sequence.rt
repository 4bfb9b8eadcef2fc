//! A list over a vector. Contracts see only the list, neither its capacity nor its address.

ghost use Rattle.std.specs.Prelude.{◌≡◌, ◌≤◌, ◌<◌, ◌+◌, ◌↔◌, ℕ, List, [], ◌∷◌, ◌++◌, ◌⊎◌, length, map, IsTrue, OnOk, OnErr, IfOk};
ghost use Rattle.std.specs.Fmt.{decimal};
ghost use Rattle.hex.specs.Hex.{encode_lower};
ghost use Rattle.mrpc_table.specs.Lines.{after_spaces};

use crate::hexadecimal::{end_of_digits, write_digits};
use crate::memory::Memory;
use itoa::Buffer;
use std::alloc::Global;
use std::marker::Model;

/// A list of items, over a vector.
#[derive(Debug)]
pub struct Sequence<T> {
    items: Vec<T>,
}

// Written by hand, so that a drop is one call, and not a drop of each part.
impl<T: Drop> Drop for Sequence<T> {
    fn drop(self) {
        let Sequence { items: _items } = self;
    }
}

impl<T> Model for Sequence<T> {
    ghost Value = { List T };

    ghost view = { λ s. s.items.items };
}

/// A list of bytes.
pub type Bytes = Sequence<u8>;

/// The bytes of a name: a letter or `_`, then letters, digits and `_`. A full name is such names joined by dots.
pub type Name = Sequence<u8>;

impl<T> Sequence<T> {
    /// An empty list. It allocates nothing.
    pub fn new(alloc: Global) -> Sequence<T>
        ensures { result ≡ [] }
    {
        Sequence {
            items: Vec::new(alloc),
        }
    }

    /// An empty list with capacity for `room` items.
    pub fn with_room(alloc: Global, room: usize) -> Result<Sequence<T>, Memory>
        ensures { IfOk result (λ s. s ≡ []) }
    {
        Ok(Sequence {
            items: Vec::with_capacity(alloc, room)?,
        })
    }

    /// The list of a vector's items. It allocates nothing.
    pub fn from_vec(items: Vec<T>) -> Sequence<T>
        ensures { result ≡ items.items }
    {
        Sequence { items }
    }

    /// The vector of the items. It allocates nothing.
    pub fn into_vec(self) -> Vec<T>
        ensures { result.items ≡ self }
    {
        let Sequence { items } = self;
        items
    }

    /// The items as a slice.
    pub fn as_slice(&self) -> &[T]
        ensures { result.now ≡ self.now }
    {
        self.items.as_slice()
    }

    /// The number of items.
    pub fn len(&self) -> usize
        ensures { result ≡ length self.now }
    {
        self.items.len()
    }

    /// Whether the list has no items.
    pub fn is_empty(&self) -> bool
        ensures { IsTrue result ↔ (self.now ≡ []) }
    {
        self.items.is_empty()
    }

    // Inlined, since a call would move the item once more.
    /// Appends an item. If it is out of memory, the list is unchanged and the item is dropped.
    #[inline(always)]
    pub fn push(&mut self, item: T) -> Result<(), Memory>
    where
        T: Drop,
        ensures ok { OnOk result (self.new ≡ self.old ++ item ∷ []) }
        ensures err { OnErr result (self.new ≡ self.old) }
    {
        self.items.push(item)?;
        Ok(())
    }
}

impl Sequence<u8> {
    /// Removes all bytes. The capacity is kept.
    pub fn clear(&mut self)
        ensures { self.new ≡ [] }
    {
        self.items.clear();
    }

    /// A list of the bytes of a slice.
    pub fn from_slice(alloc: Global, bytes: &[u8]) -> Result<Sequence<u8>, Memory>
        ensures { IfOk result (λ s. s ≡ bytes.now) }
    {
        Ok(Sequence {
            items: Vec::from_slice(alloc, bytes)?,
        })
    }

    /// An equal list.
    pub fn copied(&self, alloc: Global) -> Result<Sequence<u8>, Memory>
        ensures { IfOk result (λ s. s ≡ self.now) }
    {
        Sequence::from_slice(alloc, self.as_slice())
    }

    /// Appends the bytes of a slice. If it is out of memory, the list is unchanged.
    pub fn append(&mut self, bytes: &[u8]) -> Result<(), Memory>
        ensures ok { OnOk result (self.new ≡ self.old ++ bytes.now) }
        ensures err { OnErr result (self.new ≡ self.old) }
    {
        self.items.extend_from_slice(bytes)?;
        Ok(())
    }

    /// Appends the digits of a decimal number. If it is out of memory, the list is unchanged.
    pub fn append_decimal(&mut self, number: u64) -> Result<(), Memory>
        ensures ok { OnOk result (self.new ≡ self.old ++ decimal number) }
        ensures err { OnErr result (self.new ≡ self.old) }
    {
        let mut buffer = Buffer::new();
        self.append(buffer.format(number).as_bytes())
    }

    /// Appends a space and the digits of a decimal number, as a further word of a line. If it is out of memory, the
    /// list is unchanged or has only the space appended.
    pub fn append_word(&mut self, number: u64) -> Result<(), Memory>
        ensures ok { OnOk result (self.new ≡ self.old ++ 32 ∷ decimal number) }
        ensures err { OnErr result ((self.new ≡ self.old) ⊎ (self.new ≡ self.old ++ 32 ∷ [])) }
    {
        self.push(b' ')?;
        if number < 10 {
            return self.push(b'0' + number as u8);
        }
        self.append_decimal(number)
    }

    /// Appends a space and bytes, as a further word of a line. The only error is `Memory`.
    pub fn append_spaced(&mut self, word: &[u8]) -> Result<(), Memory>
        ensures { OnOk result (self.new ≡ self.old ++ 32 ∷ word.now) }
    {
        self.push(b' ')?;
        self.append(word)
    }

    /// Appends bytes, and then the digits of decimal numbers, each as a further word of a line. The only error is
    /// `Memory`.
    pub fn append_row(&mut self, front: &[u8], numbers: &[u64]) -> Result<(), Memory>
        ensures { OnOk result (self.new ≡ self.old ++ (front.now ++ after_spaces (map decimal numbers.now))) }
    {
        self.append(front)?;
        for number in numbers {
            self.append_word(*number)?;
        }
        Ok(())
    }

    /// Appends bytes as lower-case hexadecimal digits, two for each byte. If it is out of memory, the list is
    /// unchanged.
    pub fn append_hex(&mut self, bytes: &[u8]) -> Result<(), Memory>
        ensures ok { OnOk result (self.new ≡ self.old ++ encode_lower bytes.now) }
        ensures err { OnErr result (self.new ≡ self.old) }
    {
        let start = self.items.len();
        let Some(end) = end_of_digits(start, bytes.len()) else {
            return Err(Memory);
        };
        self.items.resize(end, 0)?;
        write_digits(&mut self.items[start..], bytes);
        Ok(())
    }
}
