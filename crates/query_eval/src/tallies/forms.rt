//! Forms of values for which a loop over adjacent rows needs no mask.
ghost use Rattle.std.specs.Prelude.{◌≡◌, ◌==◌, ◌+◌, ◌<◌, ◌≤◌, ℕ, pos, slice_index_or};
ghost use Rattle.std.specs.Int.{bit_at};
ghost use Rattle.query_eval.specs.Forms.{AreFormed, formed, formed_none, taken_form};
ghost use Rattle.query_eval.specs.Packed.{ArePackable, IsPackable};
ghost use Rattle.query_eval.specs.declared.tallies.forms.Form.TheVariants as forms;

use crate::filter::has_bit;
use table_model::Extreme;
use transpose_order::Mask;

/// What a row has in place of its value.
#[derive(Clone, Copy, Debug)]
pub enum Form {
    /// 2048 times the value and 1 more, which counts it; 0 for no value.
    Packed,
    /// The value's representation for an extreme; the least number for no value.
    Shown(Extreme),
}

impl Form {
    /// A value in the form.
    #[inline(always)]
    fn of(self, value: i64) -> i64
        requires { self ≡ forms.Packed → IsPackable value }
        ensures { result ≡ formed self value }
    {
        match self {
            Form::Packed => 2048 * value + 1,
            Form::Shown(extreme) => extreme.turned(value),
        }
    }

    /// What represents no value.
    #[inline(always)]
    fn none(self) -> i64
        ensures { result ≡ formed_none self }
    {
        match self {
            Form::Packed => 0,
            Form::Shown(_) => i64::MIN,
        }
    }

    /// A value in the form if it is taken, otherwise what represents no value. There is no branch on that.
    #[inline(always)]
    pub fn at(self, taken: bool, value: i64) -> i64
        requires { self ≡ forms.Packed → IsPackable value }
        ensures { result ≡ taken_form self taken value }
    {
        let formed = self.of(value);
        if taken { formed } else { self.none() }
    }

    /// Writes 64 values from row `first` on in the form, or the form of no value if their bits aren't set. Bit `b` is row `first +
    /// b`.
    #[inline(always)]
    fn write_word(self, values: &[i64; 1024], word: u64, first: usize, room: &mut [i64; 1024])
        requires first { first + 64 ≤ 1024 }
        requires packable { self ≡ forms.Packed → ArePackable values.now }
        ensures before { (n : ℕ) → n < first → slice_index_or room.new n (pos 0) ≡ slice_index_or room.old n (pos 0) }
        ensures value { (b : ℕ) → b < 64 → slice_index_or room.new (first + b) (pos 0) ≡ taken_form self (bit_at word b == 1) (slice_index_or values.now (first + b) (pos 0)) }
    {
        for bit in 0..64 {
            let row = first + bit;
            room[row] = self.at(has_bit(word, bit), values[row]);
        }
    }

    /// Writes the values at the rows of a mask in the form, without a branch a row, and at the other rows that of no value.
    #[inline(always)]
    pub fn write(self, values: &[i64; 1024], rows: &Mask, room: &mut [i64; 1024])
        requires { self ≡ forms.Packed → ArePackable values.now }
        ensures { AreFormed self rows.now values.now room.new }
    {
        let words = rows.words();
        for index in 0..16 {
            self.write_word(values, words[index], 64 * index, room);
        }
    }
}
