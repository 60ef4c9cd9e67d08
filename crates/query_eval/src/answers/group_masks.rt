//! HAVING at 1024 finished groups at a time, as pairs of masks.
//!
//! So a condition is gone through once for 1024 groups, and the place of a set function is looked for as often. Numbers of 64 bits
//! are put into columns first, and a predicate is evaluated a column at a time. Each further factor of an AND is evaluated at the
//! groups at which none before is false, and each further term of an OR at those at which none before is true.
ghost use Rattle.std.specs.Prelude.{◌≡◌, ◌==◌, ◌+◌, ◌*◌, ◌/◌, ◌%◌, ◌<◌, ◌≤◌, ℕ, [], cond, length, slice_index_or, IfOk};
ghost use Rattle.std.specs.Int.{bit_at};
ghost use Rattle.table_model.specs.Meaning.{is_kept};
ghost use Rattle.table_model.specs.Query.{formula_of_factor, formula_of_primary, formula_of_term, formula_of_test};
ghost use Rattle.table_model.specs.Truth.{is_false, is_true};
ghost use Rattle.transpose_order.specs.Mask.{has, number_of_bits};
ghost use Rattle.query_eval.specs.FieldPlaces.{group_at, predicate_in, truth_in, word_truth};
ghost use Rattle.query_eval.specs.Finished.{seen_operand};
ghost use Rattle.query_eval.specs.GroupNumbers.{HaveNumbers};
ghost use Rattle.query_eval.specs.Where.{IsPair};

use crate::answers::field_places::PredicatePlaces;
use crate::answers::group_numbers::GroupNumbers;
use crate::answers::having::truth_at;
use crate::answers::number_masks::number_masks;
use crate::filter::{Pair, is_set};
use crate::tallies::{FinishedGroup, Plan};
use std::alloc::{AllocError, Global};
use table_model::{Condition, Factor, Predicate, Primary, Schema, Term, Test, Truth};
use transpose_order::{Mask, VECTOR_ROWS};

/// The groups of a word at which a predicate is true, and those at which it is false.
#[derive(Clone, Copy, Debug)]
struct TruthWords {
    yes: u64,
    no: u64,
}

/// A predicate at one of some groups if a word has its bit, and unknown otherwise.
#[inline(always)]
fn truth_if(
    predicate: &Predicate,
    places: &PredicatePlaces,
    groups: &[FinishedGroup],
    word: u64,
    first: usize,
    bit: usize,
) -> Truth
    requires bit { bit < 64 }
    requires first { first + 64 ≤ 1024 }
    ensures { result ≡ word_truth predicate.now places.now groups.now word first bit }
{
    if is_set(word, bit) {
        truth_at(predicate, places, groups, first + bit)
    } else {
        Truth::Unknown
    }
}

/// A predicate at the groups of a word, of which bit 0 is the group at `first`.
fn truth_words(
    predicate: &Predicate,
    places: &PredicatePlaces,
    groups: &[FinishedGroup],
    word: u64,
    first: usize,
) -> TruthWords
    requires { first + 64 ≤ 1024 }
    ensures yes { result.yes ≡ number_of_bits 64 (λ bit. cond (is_true (word_truth predicate.now places.now groups.now word first bit)) 1 0) }
    ensures no { result.no ≡ number_of_bits 64 (λ bit. cond (is_false (word_truth predicate.now places.now groups.now word first bit)) 1 0) }
{
    if word == 0 {
        return TruthWords { yes: 0, no: 0 };
    }
    let mut yes = 0;
    let mut no = 0;
    for bit in 0..64 {
        let truth = truth_if(predicate, places, groups, word, first, bit);
        yes += u64::from(truth.is(Truth::True)) << bit;
        no += u64::from(truth.is(Truth::False)) << bit;
    }
    TruthWords { yes, no }
}

/// A predicate at the groups of a mask, group by group.
fn masks_by_group(
    schema: &Schema,
    plan: &Plan,
    groups: &[FinishedGroup],
    predicate: &Predicate,
    mask: &Mask,
) -> Pair
    ensures { IsPair mask.now (predicate_in schema.now.columns plan.now groups.now predicate.now) result }
{
    let places = PredicatePlaces::of(schema, plan, predicate);
    let rows = mask.words();
    let mut yes = [0; 16];
    let mut no = [0; 16];
    for index in 0..16 {
        let words = truth_words(predicate, &places, groups, rows[index], 64 * index);
        yes[index] = words.yes;
        no[index] = words.no;
    }
    Pair {
        yes: Mask::from_words(yes),
        no: Mask::from_words(no),
    }
}

/// A predicate at the groups of a mask: by columns of numbers if they have its operands, otherwise group by group.
fn predicate_masks(
    schema: &Schema,
    plan: &Plan,
    groups: &[FinishedGroup],
    numbers: &GroupNumbers,
    predicate: &Predicate,
    mask: &Mask,
) -> Pair
    requires { HaveNumbers groups.now numbers.now }
    ensures { IsPair mask.now (predicate_in schema.now.columns plan.now groups.now predicate.now) result }
{
    let places = PredicatePlaces::of(schema, plan, predicate);
    match number_masks(numbers, predicate, &places, mask) {
        Some(pair) => pair,
        None => masks_by_group(schema, plan, groups, predicate, mask),
    }
}

/// A condition at the groups of a mask. If there are none, nothing is evaluated.
#[cycle(judge)]
fn condition_masks(
    schema: &Schema,
    plan: &Plan,
    groups: &[FinishedGroup],
    numbers: &GroupNumbers,
    condition: &Condition,
    mask: &Mask,
) -> Pair
    requires { HaveNumbers groups.now numbers.now }
    ensures { IsPair mask.now (truth_in schema.now.columns plan.now groups.now condition.now) result }
{
    let mut pair = Pair::everywhere(Truth::False, mask);
    for term in &condition.terms {
        let rest = mask.and_not(&pair.yes);
        let next = term_masks(schema, plan, groups, numbers, term, &rest);
        pair = pair.or(&next);
    }
    pair
}

/// A term at the groups of a mask.
#[cycle(judge)]
fn term_masks(
    schema: &Schema,
    plan: &Plan,
    groups: &[FinishedGroup],
    numbers: &GroupNumbers,
    term: &Term,
    mask: &Mask,
) -> Pair
    requires { HaveNumbers groups.now numbers.now }
    ensures { IsPair mask.now (truth_in schema.now.columns plan.now groups.now (formula_of_term term.now)) result }
{
    let mut pair = Pair::everywhere(Truth::True, mask);
    for factor in &term.factors {
        let rest = mask.and_not(&pair.no);
        let next = factor_masks(schema, plan, groups, numbers, factor, &rest);
        pair = pair.and(&next);
    }
    pair
}

/// A factor at the groups of a mask. If there are none, nothing is evaluated.
#[cycle(judge)]
fn factor_masks(
    schema: &Schema,
    plan: &Plan,
    groups: &[FinishedGroup],
    numbers: &GroupNumbers,
    factor: &Factor,
    mask: &Mask,
) -> Pair
    requires { HaveNumbers groups.now numbers.now }
    ensures { IsPair mask.now (truth_in schema.now.columns plan.now groups.now (formula_of_factor factor.now)) result }
{
    if mask.next_true(0) == 1024 {
        return Pair::everywhere(Truth::Unknown, mask);
    }
    let pair = test_masks(schema, plan, groups, numbers, &factor.test, mask);
    if factor.negated { pair.not() } else { pair }
}

/// A test at the groups of a mask.
#[cycle(judge)]
fn test_masks(
    schema: &Schema,
    plan: &Plan,
    groups: &[FinishedGroup],
    numbers: &GroupNumbers,
    test: &Test,
    mask: &Mask,
) -> Pair
    requires { HaveNumbers groups.now numbers.now }
    ensures { IsPair mask.now (truth_in schema.now.columns plan.now groups.now (formula_of_test test.now)) result }
{
    let pair = primary_masks(schema, plan, groups, numbers, &test.primary, mask);
    match test.is {
        None => pair,
        Some(is) => pair.asked(is, mask),
    }
}

/// A predicate, or a condition in parentheses, at the groups of a mask.
#[cycle(judge)]
fn primary_masks(
    schema: &Schema,
    plan: &Plan,
    groups: &[FinishedGroup],
    numbers: &GroupNumbers,
    primary: &Primary,
    mask: &Mask,
) -> Pair
    requires { HaveNumbers groups.now numbers.now }
    ensures { IsPair mask.now (truth_in schema.now.columns plan.now groups.now (formula_of_primary primary.now)) result }
{
    match primary {
        Primary::Nested(condition) => condition_masks(
            schema, plan, groups, numbers, condition, mask,
        ),
        Primary::Predicate(predicate) => predicate_masks(
            schema, plan, groups, numbers, predicate, mask,
        ),
    }
}

/// Which of the first 1024 of some groups HAVING keeps: those at which its condition is true, or all if there is no condition.
fn kept_mask(
    alloc: Global,
    schema: &Schema,
    plan: &Plan,
    groups: &[FinishedGroup],
    having: &Option<Condition>,
) -> Result<Mask, AllocError>
    ensures { IfOk result (λ mask. (n : ℕ) → n < 1024 → n < length groups.now → has mask n ≡ is_kept having.now (seen_operand schema.now.columns plan.now (group_at groups.now n))) }
{
    let mut all = Mask::none();
    all.set_range(0, groups.len().min(VECTOR_ROWS), true);
    match having {
        None => Ok(all),
        Some(condition) => {
            let numbers = GroupNumbers::of(alloc, plan, groups)?;
            let pair = condition_masks(schema, plan, groups, &numbers, condition, &all);
            Ok(pair.yes)
        }
    }
}

/// Which of some groups HAVING keeps, 1024 in a mask.
pub fn kept_groups(
    alloc: Global,
    schema: &Schema,
    plan: &Plan,
    groups: &[FinishedGroup],
    having: &Option<Condition>,
) -> Result<Vec<Mask>, AllocError>
    ensures { IfOk result (λ masks. (n : ℕ) → n < length groups.now → has (slice_index_or masks.items (n / 1024) []) (n % 1024) ≡ is_kept having.now (seen_operand schema.now.columns plan.now (group_at groups.now n))) }
{
    let mut masks = Vec::new(alloc);
    for block in 0..groups.len() / VECTOR_ROWS + 1 {
        let rest = &groups[VECTOR_ROWS * block..];
        let mask = kept_mask(alloc, schema, plan, rest, having)?;
        masks.push(mask)?;
    }
    Ok(masks)
}

/// Whether masks of 1024 groups have a group.
pub fn has_group(masks: &[Mask], group: usize) -> bool
    ensures { result ≡ has (slice_index_or masks.now (group / 1024) []) (group % 1024) }
{
    match masks.get(group / VECTOR_ROWS) {
        None => false,
        Some(mask) => mask.get(group % VECTOR_ROWS),
    }
}
