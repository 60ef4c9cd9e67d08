//! Calls that grow, each with a growth refused. A test's own growths are counted from 1: with the Nth refused, a test fails by an
//! `AllocError` or `Memory` of its set-up, or, if it was a growth of the call that it is of, as `growth_refused` says; with
//! none refused it passes. The command `tests/refused-memory` refuses each in turn and counts those texts.
use crate::tests::{first, rows_with};
use segment_core::{CodedVector, Coding, Segment};
use std::alloc::{AllocError, Global};
use std::process::Abort;
use std::test::Fail;
use table_model::{ColType, Counted, Refusal, Rows, Schema, check_rows};
use test_support::{agree, growth_refused};

/// The most bytes that a segment of these tests has.
const ROOM: usize = 512;

/// The bytes of two rows, 7 and null: the null mask, DICT of 7 and 8 with codes of one bit, all 0.
fn dictionary_bytes() -> [u8; 265] {
    let mut bytes = [0; 265];
    bytes[0] = 1;
    bytes[1] = 2;
    bytes[129] = 3;
    bytes[130] = 1;
    bytes[131] = 2;
    bytes[133] = 7;
    bytes[135] = 8;
    bytes
}

/// The schema of one column.
fn column_of(alloc: Global, column_type: ColType) -> Result<Schema, Refusal> {
    Schema::new(alloc, "T", &[("A", column_type)])
}

/// A segment's bytes, from the first on.
fn bytes_of(segment: &Segment) -> Result<[u8; ROOM], Refusal> {
    let mut room = [0; ROOM];
    segment.write_bytes(&mut Counted::new(room.as_mut_slice()))?;
    Ok(room)
}

/// The segment of two rows in such bytes, and the place after it.
fn two_rows(
    alloc: Global,
    column_type: ColType,
    bytes: &[u8],
) -> Result<(Segment, usize), Refusal> {
    let schema = column_of(alloc, column_type)?;
    Segment::read_bytes(alloc, &schema, 2, bytes, 0)
}

/// Two rows are read from their bytes, to the end, and if that is refused there is no segment.
fn is_read(alloc: Global, column_type: ColType, bytes: &[u8]) -> Result<(), Fail> {
    let schema = column_of(alloc, column_type)?;
    match Segment::read_bytes(alloc, &schema, 2, bytes, 0) {
        Ok((segment, next)) => agree((segment.rows(), next), (2, bytes.len()))?,
        Err(fault) => {
            let again = Segment::read_bytes(alloc, &schema, 2, bytes, 0);
            return growth_refused(fault == Refusal::Memory && again.is_ok());
        }
    }
    Ok(())
}

#[test]
fn a_refused_read_of_a_dictionary_gives_no_segment(rt: HostRuntime) -> Result<(), Fail> {
    is_read(rt.alloc(), ColType::SmallInt, &dictionary_bytes())
}

/// Two rows that stood in bytes are copied, and left as they were if that is refused.
fn is_copied(rt: &impl Abort, alloc: Global, bytes: &[u8]) -> Result<(), Fail> {
    let (segment, _) = two_rows(alloc, ColType::SmallInt, bytes)?;
    let before = bytes_of(&segment)?;
    match segment.copy(alloc) {
        Ok(copy) => assert!(rt; bytes_of(&copy)? == before),
        Err(AllocError) => {
            let is_same = bytes_of(&segment)? == before;
            return growth_refused(is_same && segment.copy(alloc).is_ok());
        }
    }
    Ok(())
}

#[test]
fn a_refused_copy_of_a_dictionary_leaves_its_source(rt: HostRuntime) -> Result<(), Fail> {
    is_copied(&rt, rt.alloc(), &dictionary_bytes())
}

/// Two rows that stood in bytes have a canonical copy, and are left as they were if that is refused.
fn is_copied_canonically(rt: &impl Abort, alloc: Global, bytes: &[u8]) -> Result<(), Fail> {
    let (segment, _) = two_rows(alloc, ColType::SmallInt, bytes)?;
    let before = bytes_of(&segment)?;
    match segment.canonical_copy(alloc) {
        Ok(copy) => assert!(rt; copy.canonical() && copy.same_rows(&segment)),
        Err(AllocError) => {
            let is_same = bytes_of(&segment)? == before;
            return growth_refused(is_same && segment.canonical_copy(alloc).is_ok());
        }
    }
    Ok(())
}

#[test]
fn a_refused_canonical_copy_of_a_dictionary_leaves_its_source(rt: HostRuntime) -> Result<(), Fail> {
    is_copied_canonically(&rt, rt.alloc(), &dictionary_bytes())
}

/// A segment recoded, and what is left of it if that is refused.
fn is_recoded(
    rt: &impl Abort,
    alloc: Global,
    column_type: ColType,
    bytes: &[u8],
    coding: Coding,
) -> Result<(), Fail> {
    let (mut segment, _) = two_rows(alloc, column_type, bytes)?;
    let before = bytes_of(&segment)?;
    match segment.recode(alloc, 0, 0, coding) {
        Ok(()) => assert!(rt; segment.rows() == 2 && segment.coding(0, 0) == coding),
        Err(fault) => {
            let is_same = bytes_of(&segment)? == before;
            let again = segment.recode(alloc, 0, 0, coding);
            return growth_refused(fault == Refusal::Memory && is_same && again.is_ok());
        }
    }
    Ok(())
}

#[test]
fn a_refused_recoding_to_dict_changes_nothing(rt: HostRuntime) -> Result<(), Fail> {
    is_recoded(
        &rt,
        rt.alloc(),
        ColType::SmallInt,
        &dictionary_bytes(),
        Coding::Dict,
    )
}

/// Whether a segment was built, and has the rows.
fn has_built(built: &Result<Segment, AllocError>, rows: &Rows) -> bool {
    match built {
        Ok(segment) => segment.has_rows(rows),
        Err(AllocError) => false,
    }
}

/// A segment is built of rows, whose first vector has a coding and so many bytes, and if that is refused there is no segment.
fn is_built(
    rt: &impl Abort,
    alloc: Global,
    column_type: ColType,
    rows: &Rows,
    form: (Coding, u16),
) -> Result<(), Fail> {
    let schema = column_of(alloc, column_type)?;
    check_rows(&schema, rows)?;
    match Segment::build(alloc, &schema, rows) {
        Ok(segment) => {
            let vector = first(rt, &segment);
            agree((vector.coding(), vector.coded().bytes_len()), form)?;
            assert!(rt; segment.has_rows(rows));
        }
        Err(AllocError) => {
            let again = Segment::build(alloc, &schema, rows);
            return growth_refused(has_built(&again, rows));
        }
    }
    Ok(())
}

// 7, 7, 9, 9, ..: a mask and two values are 132 bytes, and so are two values and a bit a row, which come later.
#[test]
fn a_refused_build_of_runs_gives_no_segment(rt: HostRuntime) -> Result<(), Fail> {
    let rows = rows_with(rt.alloc(), &[Some(7), None, Some(9)])?;
    is_built(
        &rt,
        rt.alloc(),
        ColType::SmallInt,
        &rows,
        (Coding::Runs, 132),
    )
}

// 7, 7, 9, 7, 7, ..: two values and a bit a row are 132 bytes, a mask and three values 134.
#[test]
fn a_refused_build_of_a_dictionary_gives_no_segment(rt: HostRuntime) -> Result<(), Fail> {
    let rows = rows_with(rt.alloc(), &[Some(7), None, Some(9), Some(7)])?;
    is_built(
        &rt,
        rt.alloc(),
        ColType::SmallInt,
        &rows,
        (Coding::Dict, 132),
    )
}

/// Whether a vector stands for the two rows of these tests, 7 and null, in a coding.
fn is_two_rows(vector: &CodedVector, coding: Coding) -> bool {
    vector.rows() == 2
        && vector.coding() == coding
        && vector.value(0) == Some(7)
        && vector.value(1) == None
}

/// Whether a vector was copied, and stands for the two rows of these tests.
fn has_copied(copied: &Result<CodedVector, AllocError>, coding: Coding) -> bool {
    match copied {
        Ok(vector) => is_two_rows(vector, coding),
        Err(AllocError) => false,
    }
}

/// The vector of two rows that stood in bytes is copied, and left as it was if that is refused.
fn is_vector_copied(
    rt: &impl Abort,
    alloc: Global,
    bytes: &[u8],
    coding: Coding,
) -> Result<(), Fail> {
    let (segment, _) = two_rows(alloc, ColType::SmallInt, bytes)?;
    let vector = first(rt, &segment);
    let copied = vector.copy(alloc);
    if has_copied(&copied, coding) {
        return Ok(());
    }
    let again = vector.copy(alloc);
    growth_refused(copied.is_err() && is_two_rows(vector, coding) && has_copied(&again, coding))
}

#[test]
fn a_refused_copy_of_a_vector_leaves_its_dictionary(rt: HostRuntime) -> Result<(), Fail> {
    is_vector_copied(&rt, rt.alloc(), &dictionary_bytes(), Coding::Dict)
}
