//! Signed values whose lane width is known when the program runs, each kept at that width.
ghost use Rattle.std.specs.Prelude.{◌≡◌, ℕ, ◌+◌, ◌<◌, ◌≤◌, ◌↔◌, ℤ, List, map, length, FitsSigned, IsTrue, IfOk};
ghost use Rattle.transpose_order.specs.Place.{IsLaneWidth};
ghost use Rattle.bit_interleave.specs.Arithmetic.{integer_width};
ghost use Rattle.bit_interleave.specs.LaneValues.{LaneValues};
ghost use Rattle.bit_interleave.specs.Range.{AreInRange, value_at};

use crate::lane_value::LaneValue;
use std::alloc::{AllocError, Global};
use std::marker::Model;

/// Values of one lane width, 8, 16, 32 or 64 bits, signed, each in as many bits.
#[derive(Drop)]
pub struct Values {
    stored: Stored,
}

#[derive(Drop)]
enum Stored {
    I8(Vec<i8>),
    I16(Vec<i16>),
    I32(Vec<i32>),
    I64(Vec<i64>),
}

impl Model for Values {
    ghost use Rattle.bit_interleave.specs.LaneValues.{LaneValues};

    ghost Value = { LaneValues };

    ghost use Rattle.bit_interleave.specs.StoredValues.{values_of};

    ghost view = { λ v. values_of v.stored };

    ghost use Rattle.bit_interleave.specs.Range.{AreInRange};

    ghost invariant = { λ v. AreInRange (values_of v.stored).lane_width (values_of v.stored).values };
}

impl Stored {
    ghost use Rattle.bit_interleave.specs.StoredValues.{values_of};
    ghost use Rattle.bit_interleave.specs.Range.{AreInRange};

    fn into_values(self) -> Values
        requires { AreInRange (values_of self).lane_width (values_of self).values }
        ensures { result ≡ values_of self }
    {
        Values { stored: self }
    }
}

/// The values of a type that these numbers are, with no room to spare, or AllocError if memory is refused.
fn narrowed<V: LaneValue>(alloc: Global, numbers: &[i64]) -> Result<Vec<V>, AllocError>
    requires { AreInRange V.BITS numbers.now }
    ensures { IfOk result (λ values. map V.value values.items ≡ numbers.now) }
{
    let mut values = Vec::with_capacity(alloc, numbers.len())?;
    for number in numbers {
        values.push(V::from_i64(*number))?;
    }
    Ok(values)
}

/// Writes values as numbers of 64 bits to the front of a room, and answers that front.
fn widened<'a, V: LaneValue>(values: &[V], room: &'a mut [i64; 1024]) -> &'a [i64]
    requires { length values.now ≤ 1024 }
    ensures { result.now ≡ map V.value values.now }
{
    for i in 0..values.len() {
        room[i] = values[i].to_i64();
    }
    &room[..values.len()]
}

impl Values {
    /// Values of `lane_width` bits, 8, 16, 32 or 64, that are these numbers, which are in that range, or AllocError if memory
    /// is refused.
    pub fn from_slice(alloc: Global, lane_width: usize, numbers: &[i64]) -> Result<Self, AllocError>
        requires lane_width { IsLaneWidth lane_width }
        requires fit { AreInRange lane_width numbers.now }
        ensures { IfOk result (λ values. values ≡ record { lane_width = lane_width; values = numbers.now }) }
    {
        match lane_width {
            8 => Ok(Stored::I8(narrowed(alloc, numbers)?).into_values()),
            16 => Ok(Stored::I16(narrowed(alloc, numbers)?).into_values()),
            32 => Ok(Stored::I32(narrowed(alloc, numbers)?).into_values()),
            _ => Ok(Stored::I64(narrowed(alloc, numbers)?).into_values()),
        }
    }

    /// The values' width in bits: 8, 16, 32 or 64.
    pub fn lane_width(&self) -> usize
        ensures value { result ≡ self.now.lane_width }
        ensures width { IsLaneWidth result }
        ensures fit { AreInRange self.now.lane_width self.now.values }
    {
        match &self.stored {
            Stored::I8(_) => 8,
            Stored::I16(_) => 16,
            Stored::I32(_) => 32,
            Stored::I64(_) => 64,
        }
    }

    /// The law that the values are in the range of their lane width.
    pub fn keep_their_range(&self)
        ensures width { IsLaneWidth self.now.lane_width }
        ensures fit { AreInRange self.now.lane_width self.now.values }
    {
        self.lane_width();
    }

    /// How many values there are.
    pub fn len(&self) -> usize
        ensures { result ≡ length self.now.values }
    {
        match &self.stored {
            Stored::I8(values) => values.len(),
            Stored::I16(values) => values.len(),
            Stored::I32(values) => values.len(),
            Stored::I64(values) => values.len(),
        }
    }

    /// Whether there is no value.
    pub fn is_empty(&self) -> bool
        ensures { IsTrue result ↔ (length self.now.values ≡ 0) }
    {
        self.len() == 0
    }

    /// Value `i`, which is below `len()`, in the range of the lane width.
    #[inline(always)]
    pub fn get(&self, i: usize) -> i64
        requires { i < length self.now.values }
        ensures value { result ≡ value_at self.now.values i }
        ensures fits { FitsSigned (integer_width self.now.lane_width) result }
    {
        match &self.stored {
            Stored::I8(values) => i64::from(values[i]),
            Stored::I16(values) => i64::from(values[i]),
            Stored::I32(values) => i64::from(values[i]),
            Stored::I64(values) => values[i],
        }
    }

    /// At most 1024 values as numbers of 64 bits, each in the range of the lane width. Narrower ones are written to a room.
    pub fn in_room<'a>(&'a self, room: &'a mut [i64; 1024]) -> &'a [i64]
        requires { length self.now.values ≤ 1024 }
        ensures values { result.now ≡ self.now.values }
        ensures fit { AreInRange self.now.lane_width result.now }
    {
        match &self.stored {
            Stored::I8(values) => widened(values.as_slice(), room),
            Stored::I16(values) => widened(values.as_slice(), room),
            Stored::I32(values) => widened(values.as_slice(), room),
            Stored::I64(values) => values.as_slice(),
        }
    }

    /// The values of lanes of 8 bits. Their lane width has to be 8.
    pub fn values_8(&self) -> &[i8]
        requires { self.now.lane_width ≡ 8 }
        ensures { result.now ≡ self.now.values }
    {
        match &self.stored {
            Stored::I8(values) => values.as_slice(),
            _ => &[],
        }
    }

    /// The values of lanes of 16 bits. Their lane width has to be 16.
    pub fn values_16(&self) -> &[i16]
        requires { self.now.lane_width ≡ 16 }
        ensures { result.now ≡ self.now.values }
    {
        match &self.stored {
            Stored::I16(values) => values.as_slice(),
            _ => &[],
        }
    }

    /// The values of lanes of 32 bits. Their lane width has to be 32.
    pub fn values_32(&self) -> &[i32]
        requires { self.now.lane_width ≡ 32 }
        ensures { result.now ≡ self.now.values }
    {
        match &self.stored {
            Stored::I32(values) => values.as_slice(),
            _ => &[],
        }
    }

    /// The values of lanes of 64 bits. Their lane width has to be 64.
    pub fn values_64(&self) -> &[i64]
        requires { self.now.lane_width ≡ 64 }
        ensures { result.now ≡ self.now.values }
    {
        match &self.stored {
            Stored::I64(values) => values.as_slice(),
            _ => &[],
        }
    }

    /// Whether these are the same values at the same lane width.
    pub fn is_same(&self, other: &Values) -> bool
        ensures { IsTrue result ↔ (self.now ≡ other.now) }
    {
        let lane_width = self.lane_width();
        if lane_width != other.lane_width() {
            return false;
        }
        match lane_width {
            8 => self.values_8() == other.values_8(),
            16 => self.values_16() == other.values_16(),
            32 => self.values_32() == other.values_32(),
            _ => self.values_64() == other.values_64(),
        }
    }

    /// A copy of the values in memory of its own. If memory is refused, an `AllocError`.
    pub fn copy(&self, alloc: Global) -> Result<Self, AllocError>
        ensures { IfOk result (λ values. values ≡ self.now) }
    {
        match &self.stored {
            Stored::I8(values) => Ok(Stored::I8(Vec::from_slice(
                alloc,
                values.as_slice(),
            )?).into_values()),
            Stored::I16(values) => Ok(Stored::I16(Vec::from_slice(
                alloc,
                values.as_slice(),
            )?).into_values()),
            Stored::I32(values) => Ok(Stored::I32(Vec::from_slice(
                alloc,
                values.as_slice(),
            )?).into_values()),
            Stored::I64(values) => Ok(Stored::I64(Vec::from_slice(
                alloc,
                values.as_slice(),
            )?).into_values()),
        }
    }
}
