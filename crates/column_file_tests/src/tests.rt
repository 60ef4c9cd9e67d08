//! Summaries in bytes, at bytes and places worked out by hand from the format.
use column_file::read_summary;
use std::test::Fail;
use table_model::Counted;
use test_support::agree;

/// The summary of T(A SMALLINT) with the names 1.1 and 1.3, between which one is lacked: 33 bytes.
pub(crate) const TWO_NAMES: &[u8] =
    b"FLSM\x01\0\x01\0\x01T\x02\x01A\x02\0\0\0\x01\0\0\0\x01\0\0\0\x01\0\0\0\x03\0\0\0";

#[test]
fn a_summary_of_two_names_is_read(rt: HostRuntime) -> Result<(), Fail> {
    let summary = read_summary(rt.alloc(), &mut Counted::new(TWO_NAMES))?;
    agree(summary.schema().table(), "T")?;
    agree(summary.schema().columns(), 1)?;
    agree(summary.names().len(), 2)
}
