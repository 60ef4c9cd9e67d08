//! The numbers that represent column types in files, a value's number of bytes, and the version of a schema.
ghost use Rattle.std.specs.Prelude.{◌≡◌, cond, Some, None};
ghost use Rattle.table_model.specs.Table.{IsTable};
ghost use Rattle.column_file.specs.SchemaBytes.{tag_of, is_type_tag, type_tagged, has_tiny, version_of};

use table_model::{ColType, Schema};

/// The number that represents a type.
pub(crate) fn tag(column_type: ColType) -> u64
    ensures { result ≡ tag_of column_type }
{
    match column_type {
        ColType::TinyInt => 1,
        ColType::SmallInt => 2,
        ColType::Integer => 4,
        ColType::BigInt => 8,
    }
}

/// The type that a number means in a version, if it means one.
pub(crate) fn tagged(version: u64, tag: u64) -> Option<ColType>
    ensures { result ≡ cond (is_type_tag version tag) (Some (type_tagged tag)) None }
{
    match tag {
        1 if version == 2 => Some(ColType::TinyInt),
        2 => Some(ColType::SmallInt),
        4 => Some(ColType::Integer),
        8 => Some(ColType::BigInt),
        _ => None,
    }
}

/// Whether a schema has a column of 8 bits.
fn has_tiny(schema: &Schema) -> bool
    ensures value { result ≡ has_tiny schema.now }
    ensures proper { IsTable schema.now }
{
    schema
        .column_list()
        .iter()
        .any(|column| column.column_type().bits() == 8)
}

/// The version of a schema: 2 exactly if it has a column of 8 bits, otherwise 1.
pub(crate) fn version_of(schema: &Schema) -> u64
    ensures value { result ≡ version_of schema.now }
    ensures proper { IsTable schema.now }
{
    if has_tiny(schema) { 2 } else { 1 }
}
