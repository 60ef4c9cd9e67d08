//! Comparisons of two coded vectors of one lane width by the native lanes of both at once.
ghost use Rattle.std.specs.Prelude.{◌≡◌, ◌<◌, not, ℕ, ℤ, cond, IfSome, IsSome, if◌then◌else◌};
ghost use Rattle.transpose_order.specs.Mask.{rows_of};
ghost use Rattle.table_model.specs.Truth.{compared};
ghost use Rattle.native_lanes.specs.Packed.{value_of, width_of};
ghost use Rattle.native_lanes.specs.Pairs.{value_passes};
ghost use Rattle.segment_core.specs.Coded.{value_in};
ghost use Rattle.fused_kernels.specs.VectorSeen.{native_width};

use crate::range_rows::held;
use native_lanes::{Packed, PairTest};
use segment_core::Coded;
use table_model::Op;
use transpose_order::Mask;

/// The packed numbers of a vector if it is a frame or deltas; otherwise none.
fn packed_of(coded: &Coded) -> Option<Packed<'_>>
    ensures value { IfSome result (λ packed. (n : ℕ) → value_of packed n ≡ value_in coded.now n) }
    ensures width { IfSome result (λ packed. width_of packed ≡ native_width coded.now) }
    ensures answers { 8 < native_width coded.now → IsSome result }
{
    match coded {
        Coded::For(form) => Some(Packed::Frame(form.get())),
        Coded::Delta(form) => Some(Packed::Deltas(form.get())),
        Coded::Runs(_) => None,
        Coded::Dict(_) => None,
    }
}

/// The rows at which a vector's value and another's pass a test. None if they have no native lanes of one width above 8.
fn coded_beside(test: PairTest, left: &Coded, right: &Coded) -> Option<Mask>
    ensures rows { IfSome result (λ found. found ≡ rows_of (λ n. value_passes test (value_in left.now n) (value_in right.now n))) }
    ensures answers { native_width left.now ≡ native_width right.now → 8 < native_width left.now → IsSome result }
{
    let lefts = packed_of(left)?;
    let rights = packed_of(right)?;
    let found = lefts.beside(test, rights)?;
    Some(found)
}

/// The answer of `coded_beside`, or, if `turned` is true, its answer for the two vectors exchanged.
fn turned_beside(test: PairTest, turned: bool, left: &Coded, right: &Coded) -> Option<Mask>
    ensures rows { IfSome result (λ found. found ≡ rows_of (λ n.
        value_passes test (cond turned (value_in right.now n) (value_in left.now n)) (cond turned (value_in left.now n) (value_in right.now n)))) }
    ensures answers { native_width left.now ≡ native_width right.now → 8 < native_width left.now → IsSome result }
{
    if turned {
        let found = coded_beside(test, right, left)?;
        return Some(found);
    }
    let found = coded_beside(test, left, right)?;
    Some(found)
}

/// The one test of two values, for equality or for less, that decides a comparison of them.
#[derive(Drop)]
struct LaneTest {
    /// The test.
    test: PairTest,
    /// Whether it compares the right value with the left one.
    turned: bool,
    /// Whether the comparison holds if the test does; otherwise it holds if the test doesn't.
    holds: bool,
}

impl LaneTest {
    /// The test that decides a comparison of two values.
    fn of(op: Op) -> LaneTest
        ensures { (left right : ℤ) → compared op left right
            ≡ (if result.holds then value_passes result.test (cond result.turned right left) (cond result.turned left right)
            else not (value_passes result.test (cond result.turned right left) (cond result.turned left right))) }
    {
        let (test, turned, holds) = match op {
            Op::Equal => (PairTest::Equal, false, true),
            Op::NotEqual => (PairTest::Equal, false, false),
            Op::Less => (PairTest::Less, false, true),
            Op::LessOrEqual => (PairTest::Less, true, false),
            Op::Greater => (PairTest::Less, true, true),
            Op::GreaterOrEqual => (PairTest::Less, false, false),
        };
        LaneTest {
            test,
            turned,
            holds,
        }
    }
}

/// The rows at which a comparison of two vectors' values holds. None if they have no native lanes of one width above 8.
pub(crate) fn found_beside(left: &Coded, op: Op, right: &Coded) -> Option<Mask>
    ensures rows { IfSome result (λ found. found ≡ rows_of (λ n. compared op (value_in left.now n) (value_in right.now n))) }
    ensures answers { native_width left.now ≡ native_width right.now → 8 < native_width left.now → IsSome result }
{
    let asked = LaneTest::of(op);
    match turned_beside(asked.test, asked.turned, left, right) {
        None => None,
        Some(found) => Some(held(&found, asked.holds)),
    }
}
