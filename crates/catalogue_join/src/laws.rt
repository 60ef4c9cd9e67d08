//! Laws of the sets, each stated as the contract of a function that does nothing.
ghost use Rattle.std.specs.Prelude.{◌≡◌, List};
ghost use Rattle.std.specs.FinSet as set;
ghost use Rattle.table_model.specs.Name.{name_cmp};
ghost use Rattle.table_model.specs.declared.names.BatchName.{BatchName};
ghost use Rattle.catalogue_join.specs.Held.{IsListOf};
ghost use Rattle.catalogue_join.specs.RowRange.{AreMaximal, rows_in, RowRange};

/// A set of batch names has one list in strictly ascending order.
pub fn names_have_one_order()
    ensures { (held : set.FinSet name_cmp) (names others : List BatchName) → IsListOf names held → IsListOf others held → names ≡ others }
{}

/// A set of row names has one list of maximal ranges.
pub fn rows_have_one_list_of_ranges()
    ensures { (ranges others : List RowRange) → AreMaximal ranges → AreMaximal others → rows_in ranges ≡ rows_in others → ranges ≡ others }
{}
