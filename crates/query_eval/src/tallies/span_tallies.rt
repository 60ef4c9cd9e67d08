//! Tallies, one for each group, as the spans of a vector's rows come: one step for each span, over adjacent rows.
ghost use Rattle.std.specs.Prelude.{◌≡◌, ◌<◌, ◌≤◌, ◌≤ℤ◌, ℕ, Bool, List, ℤ, length, pos, slice_index_or, true, OnOk};
ghost use Rattle.table_model.specs.Extreme.{extreme_of};
ghost use Rattle.query_eval.specs.Forms.{AreFormed, top_between};
ghost use Rattle.query_eval.specs.Grouping.{AreCells, AreNulls, HaveSpans, TakeCells, TakeSpans};
ghost use Rattle.query_eval.specs.Packed.{ArePackable, ArePacked, AreSummable, packed_sum};
ghost use Rattle.query_eval.specs.Slices.{AreShort, rows_between, rows_sliced, slices_of_spans, span_slice, values_at};
ghost use Rattle.query_eval.specs.Tally.{HaveAt, kind_of};
ghost use Rattle.query_eval.specs.TallyKinds.{aggregate_kind};
ghost use Rattle.query_eval.specs.Vector.{Vector};
ghost use Rattle.query_eval.specs.declared.tallies.aggregate.Aggregate.{Aggregate as AnAggregate};
ghost use Rattle.table_model.specs.declared.extreme.Extreme.{Extreme as AnExtreme};
ghost use Rattle.query_eval.specs.declared.tallies.forms.Form.TheVariants.{Shown};
ghost use Rattle.query_eval.specs.declared.tallies.tally.Tally.{Tally as ATally};
ghost use Rattle.query_eval.specs.declared.tallies.tally.TallyKind.TheVariants as kinds;

use crate::grouping::Span;
use crate::tallies::forms::Form;
use crate::tallies::masked_folds::are_short;
use crate::tallies::packed::{are_packable, pack, unpacked};
use crate::tallies::row_counts::{rows_before_words, rows_below};
use crate::tallies::running_sums::{sum_of_span, sum_up};
use crate::tallies::slice_tallies::{add_slice, count_more, extreme_more, reaches, sum_more};
use crate::tallies::tally::{Tally, TallyKind};
use crate::tallies::word_tops::{span_bound, word_tops};
use std::alloc::AllocError;
use table_model::Extreme;
use transpose_order::Mask;

/// From how many spans on running sums of all rows take less time than a sum for each span.
const MANY_SPANS: usize = 14;

/// From how many spans on the greatest of each word of rows takes less time to find than it saves.
const MANY_EXTREMES: usize = 48;

/// A span of the rows that a vector has. One that ends before it begins has none.
fn within_vector(span: Span) -> Span
    ensures order { result.first ≤ result.end }
    ensures within { result.end ≤ 1024 }
    ensures same { (mask : List Bool) → span_slice mask result ≡ span_slice mask span }
{
    let end = span.end.min(1024);
    Span {
        place: span.place,
        first: span.first.min(end),
        end,
    }
}

/// Counts the rows of a mask that spans cover, except nulls, in the tallies at their places.
pub fn count_spans(tallies: &mut Vec<Tally>, kept: &Mask, spans: &[Span], nulls: &Mask)
    ensures size { length tallies.new.items ≡ length tallies.old.items }
    ensures held { (a : AnAggregate) (v : Vector) → aggregate_kind a ≡ kinds.Count → AreNulls a v nulls.now → HaveSpans a v kept.now spans.now tallies.old.items tallies.new.items }
{
    let rows = kept.and_not(nulls);
    let words = rows_before_words(&rows);
    for covered in spans {
        let span = within_vector(*covered);
        let before = rows_below(&rows, &words, span.first);
        let below = rows_below(&rows, &words, span.end);
        count_more(tallies, span.place, below - before);
    }
}

/// The rows of a mask from row `first` up to `end`.
fn rows_between(rows: &Mask, first: usize, end: usize) -> Mask
    requires order { first ≤ end }
    requires within { end ≤ 1024 }
    ensures { result ≡ rows_between rows.now first end }
{
    let mut between = *rows;
    between.set_range(0, first, false);
    between.set_range(end, 1024, false);
    between
}

/// Takes the values at the rows of a mask that spans cover, except nulls, into the tallies at their places, of any kind. The values
/// are short if `short` says so.
fn add_between(
    tallies: &mut Vec<Tally>,
    values: &[i64; 1024],
    short: bool,
    kept: &Mask,
    spans: &[Span],
    nulls: &Mask,
) -> Result<(), AllocError>
    requires { short ≡ true → AreShort values.now }
    ensures size { OnOk result (length tallies.new.items ≡ length tallies.old.items) }
    ensures held { OnOk result ((a : AnAggregate) (v : Vector) → AreCells a v nulls.now values.now → HaveSpans a v kept.now spans.now tallies.old.items tallies.new.items) }
{
    let rows = kept.and_not(nulls);
    for covered in spans {
        let span = within_vector(*covered);
        let between = rows_between(&rows, span.first, span.end);
        add_slice(tallies, span.place, values, short, &between)?;
    }
    Ok(())
}

/// The sum of packed values from row `first` up to `end`.
#[inline(always)]
fn sum_between(packed: &[i64; 1024], first: usize, end: usize) -> i64
    requires order { first ≤ end }
    requires within { end ≤ 1024 }
    requires summable { AreSummable packed.now }
    ensures { (rows : List Bool) (values : List ℤ) → ArePacked rows values packed.now → result ≡ packed_sum (values_at (rows_between rows first end) values) }
{
    let mut sum = 0;
    for value in &packed[first..end] {
        sum += *value;
    }
    sum
}

/// Takes the values at the rows of a mask that spans cover, except nulls, into the sums at their places. `packed` is room for
/// packed values.
fn sum_spans(
    tallies: &mut Vec<Tally>,
    values: &[i64; 1024],
    kept: &Mask,
    spans: &[Span],
    nulls: &Mask,
    packed: &mut [i64; 1024],
)
    requires { ArePackable values.now }
    ensures size { length tallies.new.items ≡ length tallies.old.items }
    ensures held { TakeSpans kinds.Sum nulls.now values.now kept.now spans.now tallies.old.items tallies.new.items }
{
    pack(values, &kept.and_not(nulls), packed);
    for covered in spans {
        let span = within_vector(*covered);
        let (count, sum) = unpacked(sum_between(packed, span.first, span.end));
        sum_more(tallies, span.place, count, sum);
    }
}

/// Takes the values at the rows of a mask that many spans cover, except nulls, into the sums at their places, by running sums.
/// `packed` is room for them.
fn sum_many_spans(
    tallies: &mut Vec<Tally>,
    values: &[i64; 1024],
    kept: &Mask,
    spans: &[Span],
    nulls: &Mask,
    packed: &mut [i64; 1024],
)
    requires { ArePackable values.now }
    ensures size { length tallies.new.items ≡ length tallies.old.items }
    ensures held { TakeSpans kinds.Sum nulls.now values.now kept.now spans.now tallies.old.items tallies.new.items }
{
    pack(values, &kept.and_not(nulls), packed);
    sum_up(packed);
    for covered in spans {
        let span = within_vector(*covered);
        let (count, sum) = unpacked(sum_of_span(packed, span.first, span.end));
        sum_more(tallies, span.place, count, sum);
    }
}

/// The greatest number from row `first` up to `end`, or the least number if there is no such row.
#[inline(always)]
fn top_between(shown: &[i64; 1024], first: usize, end: usize) -> i64
    requires order { first ≤ end }
    requires within { end ≤ 1024 }
    ensures { (extreme : AnExtreme) (rows : List Bool) (values : List ℤ) → AreFormed (Shown extreme) rows values shown.now → result ≡ top_between extreme rows values first end }
{
    let mut top = i64::MIN;
    for value in &shown[first..end] {
        top = top.max(*value);
    }
    top
}

/// An extreme of the values at the rows of a mask from row `first` up to `end`, given by their representations; `None` over none.
/// Only if the greatest is the least number does it look whether there is a row.
fn extreme_between(
    shown: &[i64; 1024],
    extreme: Extreme,
    rows: &Mask,
    first: usize,
    end: usize,
) -> Option<i64>
    requires order { first ≤ end }
    requires within { end ≤ 1024 }
    ensures { (values : List ℤ) → AreFormed (Shown extreme) rows.now values shown.now → result ≡ extreme_of extreme (values_at (rows_between rows.now first end) values) }
{
    let top = top_between(shown, first, end);
    if top == i64::MIN && end <= rows.next_true(first) {
        return None;
    }
    Some(extreme.turned(top))
}

/// Takes the values at the rows of a mask that spans cover, except nulls, into the tallies at their places, which keep an extreme.
/// `shown` is room for the values' representations.
fn extreme_spans(
    tallies: &mut Vec<Tally>,
    extreme: Extreme,
    values: &[i64; 1024],
    kept: &Mask,
    spans: &[Span],
    nulls: &Mask,
    shown: &mut [i64; 1024],
)
    ensures size { length tallies.new.items ≡ length tallies.old.items }
    ensures held { TakeSpans (kinds.Extreme extreme) nulls.now values.now kept.now spans.now tallies.old.items tallies.new.items }
{
    let rows = kept.and_not(nulls);
    Form::Shown(extreme).write(values, &rows, shown);
    for covered in spans {
        let span = within_vector(*covered);
        let value = extreme_between(shown, extreme, &rows, span.first, span.end);
        extreme_more(tallies, span.place, value);
    }
}

/// Takes the values at the rows of a mask that a span covers, given by their representations, into the extreme at its place. It
/// looks at no row if the extreme reaches a bound of the representations.
fn take_extreme(
    tallies: &mut Vec<Tally>,
    extreme: Extreme,
    shown: &[i64; 1024],
    rows: &Mask,
    span: Span,
    bound: i64,
)
    requires order { span.first ≤ span.end }
    requires within { span.end ≤ 1024 }
    requires bound { (n : ℕ) → span.first ≤ n → n < span.end → slice_index_or shown.now n (pos 0) ≤ℤ bound }
    ensures size { length tallies.new.items ≡ length tallies.old.items }
    ensures values { (values : List ℤ) → AreFormed (Shown extreme) rows.now values shown.now → HaveAt (kinds.Extreme extreme) span.place (values_at (rows_between rows.now span.first span.end) values) tallies.old.items tallies.new.items }
    ensures kind { (g : ℕ) (t : ATally) → g < length tallies.old.items → kind_of (slice_index_or tallies.new.items g t) ≡ kind_of (slice_index_or tallies.old.items g t) }
{
    if reaches(tallies, span.place, bound) {
        return;
    }
    let value = extreme_between(shown, extreme, rows, span.first, span.end);
    extreme_more(tallies, span.place, value);
}

/// Takes the values at the rows of a mask that many spans cover, except nulls, into the tallies at their places, which keep an
/// extreme. `shown` is room for the values' representations.
fn extreme_many_spans(
    tallies: &mut Vec<Tally>,
    extreme: Extreme,
    values: &[i64; 1024],
    kept: &Mask,
    spans: &[Span],
    nulls: &Mask,
    shown: &mut [i64; 1024],
)
    ensures size { length tallies.new.items ≡ length tallies.old.items }
    ensures held { TakeSpans (kinds.Extreme extreme) nulls.now values.now kept.now spans.now tallies.old.items tallies.new.items }
{
    let rows = kept.and_not(nulls);
    Form::Shown(extreme).write(values, &rows, shown);
    let tops = word_tops(shown);
    for covered in spans {
        let span = within_vector(*covered);
        let bound = span_bound(&tops, span.first, span.end);
        take_extreme(tallies, extreme, shown, &rows, span, bound);
    }
}

/// Takes the values at the rows of a mask that spans cover, except nulls, into the tallies at their places, which keep an extreme.
/// `shown` is room for the values' representations.
fn add_extremes(
    tallies: &mut Vec<Tally>,
    extreme: Extreme,
    values: &[i64; 1024],
    kept: &Mask,
    spans: &[Span],
    nulls: &Mask,
    shown: &mut [i64; 1024],
)
    ensures size { length tallies.new.items ≡ length tallies.old.items }
    ensures held { TakeSpans (kinds.Extreme extreme) nulls.now values.now kept.now spans.now tallies.old.items tallies.new.items }
{
    if spans.len() < MANY_EXTREMES {
        extreme_spans(tallies, extreme, values, kept, spans, nulls, shown);
    } else {
        extreme_many_spans(tallies, extreme, values, kept, spans, nulls, shown);
    }
}

/// Takes the values at the rows of a mask that spans cover, except nulls, into the sums at their places, packed if they can be.
/// `packed` is room for them.
fn add_sums(
    tallies: &mut Vec<Tally>,
    values: &[i64; 1024],
    kept: &Mask,
    spans: &[Span],
    nulls: &Mask,
    packed: &mut [i64; 1024],
) -> Result<(), AllocError>
    ensures size { OnOk result (length tallies.new.items ≡ length tallies.old.items) }
    ensures held { OnOk result (TakeSpans kinds.Sum nulls.now values.now kept.now spans.now tallies.old.items tallies.new.items) }
{
    if are_packable(values) {
        if spans.len() < MANY_SPANS {
            sum_spans(tallies, values, kept, spans, nulls, packed);
        } else {
            sum_many_spans(tallies, values, kept, spans, nulls, packed);
        }
        return Ok(());
    }
    add_between(tallies, values, are_short(values), kept, spans, nulls)?;
    Ok(())
}

/// Takes the values at the rows of a mask that spans cover, except nulls, into the tallies at their places, which keep what `kind`
/// says. `packed` is room for packed values, or for representations for an extreme.
pub fn add_spans(
    tallies: &mut Vec<Tally>,
    kind: TallyKind,
    values: &[i64; 1024],
    kept: &Mask,
    spans: &[Span],
    nulls: &Mask,
    packed: &mut [i64; 1024],
) -> Result<(), AllocError>
    ensures size { OnOk result (length tallies.new.items ≡ length tallies.old.items) }
    ensures held { OnOk result (TakeCells kind nulls.now values.now (λ v. rows_sliced v (slices_of_spans kept.now spans.now)) tallies.old.items tallies.new.items) }
{
    if spans.is_empty() {
        return Ok(());
    }
    match kind {
        TallyKind::Sum => add_sums(tallies, values, kept, spans, nulls, packed)?,
        TallyKind::Extreme(extreme) => {
            add_extremes(tallies, extreme, values, kept, spans, nulls, packed);
        }
        TallyKind::Count | TallyKind::Distinct => {
            add_between(tallies, values, false, kept, spans, nulls)?;
        }
    }
    Ok(())
}
