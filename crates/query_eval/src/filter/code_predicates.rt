//! IN of a column by the codes of its rows: the rows with the code of a literal.
ghost use Rattle.std.specs.Prelude.{◌≡◌, ◌<◌, ◌≤◌, ◌&&◌, ◌∷◌, [], ℕ, None, IfSome, slice_index_or, pos, ◌<ℤ◌, false};
ghost use Rattle.std.specs.Ordering.{int_eq};
ghost use Rattle.table_model.specs.Answer.{whole};
ghost use Rattle.table_model.specs.Condition.{is_among};
ghost use Rattle.transpose_order.specs.Mask.{has};
ghost use Rattle.query_eval.specs.Coded.{cell_of_code, is_code_among};
ghost use Rattle.query_eval.specs.Where.{IsPair};

use crate::filter::code_rows::coded_rows;
use crate::filter::pair::Pair;
use table_model::Truth;
use transpose_order::Mask;

/// The greatest number of codes that IN uses: the code of each literal is searched for among their keys.
pub const MOST_KEYS: usize = 256;

/// Whether a key is a literal.
fn is_literal(key: i64, literal: i128) -> bool
    ensures { result ≡ int_eq key literal }
{
    i128::from(key) == literal
}

/// The code below the count whose key is a literal, or `None` if there is no such code.
fn code_of(keys: &[i64; 1024], count: usize, literal: i128) -> Option<usize>
    requires { count ≤ 1024 }
    ensures within { IfSome result (λ code. code < count) }
    ensures key { IfSome result (λ code. slice_index_or keys.now code (pos 0) ≡ literal) }
    ensures none { result ≡ None → (code : ℕ) → code < count → int_eq (slice_index_or keys.now code (pos 0)) literal ≡ false }
{
    for code in 0..count {
        if is_literal(keys[code], literal) {
            return Some(code);
        }
    }
    None
}

/// The rows of a mask that have the code of a literal; none if no key is the literal.
fn literal_rows(
    codes: &[u16; 1024],
    keys: &[i64; 1024],
    count: usize,
    literal: i128,
    mask: &Mask,
) -> Mask
    requires few { count ≤ 1024 }
    requires within { (n : ℕ) → n < 1024 → slice_index_or codes.now n 0 ≤ count }
    requires rises { (i j : ℕ) → i < j → j < count → slice_index_or keys.now i (pos 0) <ℤ slice_index_or keys.now j (pos 0) }
    ensures { (n : ℕ) → n < 1024 → has result n ≡ (has mask.now n && is_code_among count keys.now (literal ∷ []) (slice_index_or codes.now n 0)) }
{
    match code_of(keys, count, literal) {
        Some(code) => coded_rows(codes, code as u16, mask),
        None => Mask::none(),
    }
}

/// The rows of a mask whose value is one of the literals, by their codes.
fn rows_among(
    codes: &[u16; 1024],
    keys: &[i64; 1024],
    count: usize,
    literals: &[i128],
    mask: &Mask,
) -> Mask
    requires few { count ≤ 1024 }
    requires within { (n : ℕ) → n < 1024 → slice_index_or codes.now n 0 ≤ count }
    requires rises { (i j : ℕ) → i < j → j < count → slice_index_or keys.now i (pos 0) <ℤ slice_index_or keys.now j (pos 0) }
    ensures { (n : ℕ) → n < 1024 → has result n ≡ (has mask.now n && is_code_among count keys.now literals.now (slice_index_or codes.now n 0)) }
{
    let mut found = Mask::none();
    for literal in literals {
        found = found.or(&literal_rows(codes, keys, count, *literal, mask));
    }
    found
}

/// IN of a column at the rows of a mask, by the codes of its rows: a code at the count represents null, and each below it for its key.
pub fn among_codes(
    codes: &[u16; 1024],
    keys: &[i64; 1024],
    count: usize,
    literals: &[i128],
    mask: &Mask,
) -> Pair
    requires few { count ≤ 1024 }
    requires within { (n : ℕ) → n < 1024 → slice_index_or codes.now n 0 ≤ count }
    requires rises { (i j : ℕ) → i < j → j < count → slice_index_or keys.now i (pos 0) <ℤ slice_index_or keys.now j (pos 0) }
    ensures { IsPair mask.now (λ n. is_among (whole (cell_of_code count keys.now (slice_index_or codes.now n 0))) literals.now) result }
{
    if literals.is_empty() {
        return Pair::everywhere(Truth::False, mask);
    }
    let found = rows_among(codes, keys, count, literals, mask);
    let known = mask.and_not(&coded_rows(codes, count as u16, mask));
    Pair {
        yes: known.and(&found),
        no: known.and_not(&found),
    }
}
