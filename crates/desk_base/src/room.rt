ghost use Rattle.std.specs.Prelude.{◌≡◌, ◌≤◌, [], ◌∷◌, length, IfOk, OnOk, OnErr, decimal, ℕ, ℤ, ◌<◌, ◌^◌, FitsSigned};
ghost use Rattle.std.specs.Int.{w64};
ghost use Rattle.std.specs.Fmt.{signed_decimal};
ghost use Rattle.desk_base.specs.Rooms.{HasRoom, Fills};

use crate::Bytes;
use itoa::Buffer;
use std::alloc::{AllocError, Global};
use std::marker::Model;

/// Bytes with room for more. What there is room for is appended without taking memory, so that it can't fail.
#[derive(Drop)]
pub struct Room {
    items: Vec<u8>,
}

impl Model for Room {
    ghost use Rattle.std.specs.Prelude.{vec_capacity, length, ◌≤◌};
    ghost use Rattle.desk_base.specs.Rooms.{RoomState};

    ghost Value = { RoomState };

    ghost view = { λ r. record { bytes = r.items.items; capacity = vec_capacity r.items } };
}

impl Room {
    /// No bytes, and room for so many.
    pub fn with_capacity(alloc: Global, capacity: usize) -> Result<Room, AllocError>
        ensures { IfOk result (λ room. (room.bytes ≡ []) × (capacity ≤ room.capacity)) }
    {
        Ok(Room {
            items: Vec::with_capacity(alloc, capacity)?,
        })
    }

    /// Makes room for so many bytes more. At an error nothing has changed.
    pub fn reserve(&mut self, more: usize) -> Result<(), AllocError>
        ensures bytes { self.new.bytes ≡ self.old.bytes }
        ensures ok { OnOk result (HasRoom self.new more) }
        ensures later { self.old.capacity ≤ self.new.capacity }
        ensures err { OnErr result (self.new ≡ self.old) }
    {
        self.items.reserve(more)
    }

    /// The bytes.
    pub fn as_slice(&self) -> &[u8]
        ensures { result.now ≡ self.now.bytes }
    {
        self.items.as_slice()
    }

    /// Appends a byte.
    pub fn push(&mut self, byte: u8)
        requires { HasRoom self.old 1 }
        ensures { Fills self.old self.new (byte ∷ []) }
    {
        self.items.push(byte).unwrap();
    }

    /// Appends bytes.
    pub fn extend(&mut self, bytes: &[u8])
        requires { HasRoom self.old (length bytes.now) }
        ensures { Fills self.old self.new bytes.now }
    {
        self.items.extend_from_slice(bytes).unwrap();
    }

    /// Appends a number in decimal digits, without sign or leading zeros. They are 20 at most.
    pub fn decimal(&mut self, number: u64)
        requires { HasRoom self.old (length (decimal number)) }
        ensures { Fills self.old self.new (decimal number) }
    {
        let mut buffer = Buffer::new();
        self.extend(buffer.format(number).as_bytes())
    }

    /// Appends a number in decimal digits, with a `-` before them where it is below 0. They are 20 bytes at most.
    pub fn signed_decimal(&mut self, number: i64)
        requires { HasRoom self.old (length (signed_decimal number)) }
        ensures { Fills self.old self.new (signed_decimal number) }
    {
        let mut buffer = Buffer::new();
        self.extend(buffer.format(number).as_bytes())
    }

    /// Takes all bytes out. Their room is kept.
    pub fn clear(&mut self)
        ensures { self.new ≡ record { bytes = []; capacity = self.old.capacity } }
    {
        self.items.clear();
    }

    /// The bytes without further room that could be used.
    pub fn into_bytes(self) -> Bytes
        ensures { result ≡ self.bytes }
    {
        Bytes::from_vec(self.items)
    }
}

/// The digits of a number of 64 bits, with the sign, are 20 bytes at most.
pub fn numbers_are_short()
    ensures unsigned { (number : ℕ) → number < 2 ^ 64 → length (decimal number) ≤ 20 }
    ensures signed { (number : ℤ) → FitsSigned w64 number → length (signed_decimal number) ≤ 20 }
{}
