//! Schemas: a table's name, and its columns with their types.
ghost use Rattle.std.specs.Prelude.{◌≡◌, ◌<◌, ◌≤◌, map, length, slice_get, Some, IfOk, IsTrue};
ghost use Rattle.std.specs.List.{list_all, list_any, zip};
ghost use Rattle.table_model.specs.Meaning.{column_at};
ghost use Rattle.table_model.specs.Outcome.{Gives};
ghost use Rattle.table_model.specs.Table.{bits_of, type_named, is_in_range, schema_of, folded_table, column_of, fits, name_of, is_named, has_name, is_schema, are_distinct, same_column, same_columns, same_table, column_limit, IsTable};

use crate::identifier::{folded_copy, is_identifier, same_text, same_word};
use crate::refusal::Refusal;
use std::alloc::{AllocError, Global};
use std::fmt;
use std::marker::Model;

/// How many columns a table has at most.
pub const MAX_COLUMNS: usize = 32;

/// A column's type: signed, two's complement.
#[derive(Clone, Copy, Debug, PartialEq, Eq)]
pub enum ColType {
    /// TINYINT, 8 bits.
    TinyInt,
    /// SMALLINT, 16 bits.
    SmallInt,
    /// INTEGER, 32 bits.
    Integer,
    /// BIGINT, 64 bits.
    BigInt,
}

impl ColType {
    /// How many bits a value has: 8, 16, 32 or 64.
    pub fn bits(self) -> usize
        ensures { result ≡ bits_of self }
    {
        match self {
            ColType::TinyInt => 8,
            ColType::SmallInt => 16,
            ColType::Integer => 32,
            ColType::BigInt => 64,
        }
    }

    /// The type of this name in SQL, in upper case: TINYINT, SMALLINT, INTEGER or BIGINT.
    pub fn named(text: &str) -> Option<ColType>
        ensures { result ≡ type_named text.now }
    {
        match text {
            "TINYINT" => Some(ColType::TinyInt),
            "SMALLINT" => Some(ColType::SmallInt),
            "INTEGER" => Some(ColType::Integer),
            "BIGINT" => Some(ColType::BigInt),
            _ => None,
        }
    }

    /// Whether the number is a value of the type.
    pub fn holds(self, value: i128) -> bool
        ensures { result ≡ is_in_range self value }
    {
        match self {
            ColType::TinyInt => i128::from(i8::MIN) <= value && value <= i128::from(i8::MAX),
            ColType::SmallInt => i128::from(i16::MIN) <= value && value <= i128::from(i16::MAX),
            ColType::Integer => i128::from(i32::MIN) <= value && value <= i128::from(i32::MAX),
            ColType::BigInt => i128::from(i64::MIN) <= value && value <= i128::from(i64::MAX),
        }
    }
}

/// The type's name in SQL, in upper case.
impl fmt::Display for ColType {
    ghost use Rattle.std.specs.Prelude.{Some};
    ghost use Rattle.table_model.specs.Table.{type_text};

    ghost output = { λ column_type. Some (type_text column_type) };

    fn fmt<W: fmt::Write>(&self, f: &mut fmt::Formatter<W>) -> fmt::Result {
        match self {
            ColType::TinyInt => write!(f, "TINYINT"),
            ColType::SmallInt => write!(f, "SMALLINT"),
            ColType::Integer => write!(f, "INTEGER"),
            ColType::BigInt => write!(f, "BIGINT"),
        }
    }
}

/// A column: its name in upper case, and its type.
#[derive(Drop)]
pub struct Column {
    name: String,
    column_type: ColType,
}

impl Model for Column {
    ghost use Rattle.std.specs.String.{string_bytes};
    ghost use Rattle.table_model.specs.Table.{ColumnShape};

    ghost Value = { ColumnShape };

    ghost view = { λ c. record { name = string_bytes c.name; column_type = c.column_type } };
}

impl Column {
    /// The name, in upper case.
    pub fn name(&self) -> &str
        ensures { result.now ≡ self.now.name }
    {
        self.name.as_str()
    }

    /// The type.
    pub fn column_type(&self) -> ColType
        ensures { result ≡ self.now.column_type }
    {
        self.column_type
    }

    /// Whether the column can have the cell: a null, or a value of its type.
    pub fn fits(&self, cell: Option<i128>) -> bool
        ensures { result ≡ fits self.now cell }
    {
        match cell {
            None => true,
            Some(value) => self.column_type.holds(value),
        }
    }

    /// A column of this name, folded to upper case, and this type.
    fn folded(alloc: Global, name: &str, column_type: ColType) -> Result<Column, AllocError>
        ensures { IfOk result (λ column. column ≡ column_of (name.now, column_type)) }
    {
        let name = folded_copy(alloc, name)?;
        Ok(Column { name, column_type })
    }

    /// Whether two columns have the same name and type.
    fn same(&self, other: &Column) -> bool
        ensures { result ≡ same_column self.now other.now }
    {
        same_text(self.name.as_bytes(), other.name.as_bytes())
            && self.column_type.bits() == other.column_type.bits()
    }

    /// A column with the same name and type.
    fn copy(&self, alloc: Global) -> Result<Column, AllocError>
        ensures { IfOk result (λ column. column ≡ self.now) }
    {
        let name = String::from_str(alloc, self.name.as_str())?;
        Ok(Column {
            name,
            column_type: self.column_type,
        })
    }
}

/// A table's name and its columns from the left: 1 to 32 of them, their names all different.
#[derive(Drop)]
pub struct Schema {
    table: String,
    columns: Vec<Column>,
}

impl Model for Schema {
    ghost use Rattle.std.specs.String.{string_bytes};
    ghost use Rattle.table_model.specs.Table.{Table, IsTable};

    ghost Value = { Table };

    ghost view = { λ s. record { name = string_bytes s.table; columns = s.columns.items } };

    ghost invariant = { λ s. IsTable (record { name = string_bytes s.table; columns = s.columns.items }) };
}

impl Schema {
    /// The schema of a table's name and its columns, names being folded to upper case.
    ///
    /// `BadSchema` is answered if there are not 1 to 32 columns, if a name is no identifier or is a keyword, and if
    /// two column names are equal once folded. Else `Memory` is answered if there is no memory.
    pub fn new(alloc: Global, table: &str, columns: &[(&str, ColType)]) -> Result<Schema, Refusal>
        ensures { Gives (λ schema. schema) result (schema_of table.now (map (λ c. (c.0.now, c.1)) columns.now)) }
    {
        if !is_schema(table, columns) {
            return Err(Refusal::BadSchema);
        }
        Ok(Schema::folded(alloc, table, columns)?)
    }

    /// The table's name, in upper case.
    pub fn table(&self) -> &str
        ensures { result.now ≡ self.now.name }
    {
        self.table.as_str()
    }

    /// How many columns there are: 1 to 32.
    pub fn columns(&self) -> usize
        ensures count { result ≡ length self.now.columns }
        ensures some { 1 ≤ result }
        ensures limit { result ≤ column_limit }
    {
        self.columns.len()
    }

    /// The column at this place, from the left and from 0.
    pub fn column(&self, index: usize) -> &Column
        requires { index < length self.now.columns }
        ensures { slice_get self.now.columns index ≡ Some result.now }
    {
        &self.columns[index]
    }

    /// The columns, from the left: 1 to 32, with names of their own.
    pub fn column_list(&self) -> &[Column]
        ensures list { result.now ≡ self.now.columns }
        ensures proper { IsTable self.now }
    {
        self.columns.as_slice()
    }

    /// Whether two schemas are the same: the table's name, and each column's name and type.
    #[tactic(auto, unfolding(crate::specs::Table::same_table))]
    pub fn same(&self, other: &Schema) -> bool
        ensures { result ≡ same_table self.now other.now }
    {
        same_text(self.table.as_bytes(), other.table.as_bytes())
            && same_columns(self.columns.as_slice(), other.columns.as_slice())
    }

    /// A schema with the same table and columns.
    pub fn copy(&self, alloc: Global) -> Result<Schema, AllocError>
        ensures { IfOk result (λ schema. schema ≡ self.now) }
    {
        let table = String::from_str(alloc, self.table.as_str())?;
        let columns = copied_columns(alloc, self.columns.as_slice())?;
        Ok(Schema { table, columns })
    }

    /// The schema of names that are folded to upper case.
    fn folded(alloc: Global, table: &str, columns: &[(&str, ColType)]) -> Result<Schema, AllocError>
        requires { IsTrue (is_schema table.now (map (λ c. (c.0.now, c.1)) columns.now)) }
        ensures { IfOk result (λ schema. schema ≡ folded_table table.now (map (λ c. (c.0.now, c.1)) columns.now)) }
    {
        let table = folded_copy(alloc, table)?;
        let columns = folded_columns(alloc, columns)?;
        Ok(Schema { table, columns })
    }
}

/// Whether two lists of columns are the same: their names and their types.
fn same_columns(a: &[Column], b: &[Column]) -> bool
    ensures { result ≡ same_columns a.now b.now }
{
    a.len() == b.len() && same_pairs(a, b)
}

/// Whether the columns at each place of two lists are the same, as far as both lists go.
fn same_pairs(a: &[Column], b: &[Column]) -> bool
    ensures { result ≡ list_all (λ pair. same_column pair.0 pair.1) (zip a.now b.now) }
{
    a.iter().zip(b).all(|(column, other)| column.same(other))
}

/// Columns with the same names and types.
fn copied_columns(alloc: Global, columns: &[Column]) -> Result<Vec<Column>, AllocError>
    ensures { IfOk result (λ copied. copied.items ≡ columns.now) }
{
    let mut copied = Vec::with_capacity(alloc, columns.len())?;
    for column in columns {
        copied.push(column.copy(alloc)?)?;
    }
    Ok(copied)
}

/// The columns of these names, folded to upper case, and types.
fn folded_columns(alloc: Global, columns: &[(&str, ColType)]) -> Result<Vec<Column>, AllocError>
    ensures { IfOk result (λ made. made.items ≡ map column_of (map (λ c. (c.0.now, c.1)) columns.now)) }
{
    let mut made = Vec::with_capacity(alloc, columns.len())?;
    for &(name, column_type) in columns {
        made.push(Column::folded(alloc, name, column_type)?)?;
    }
    Ok(made)
}

/// Whether a table may have this name and these columns.
#[tactic(auto, unfolding(crate::specs::Table::is_schema))]
fn is_schema(table: &str, columns: &[(&str, ColType)]) -> bool
    ensures { result ≡ is_schema table.now (map (λ c. (c.0.now, c.1)) columns.now) }
{
    is_identifier(table.as_bytes())
        && 1 <= columns.len()
        && columns.len() <= MAX_COLUMNS
        && are_identifiers(columns)
        && are_distinct(columns)
}

/// Whether each column's name is an identifier.
fn are_identifiers(columns: &[(&str, ColType)]) -> bool
    ensures { result ≡ list_all is_named (map (λ c. (c.0.now, c.1)) columns.now) }
{
    for &(name, _) in columns {
        if !is_identifier(name.as_bytes()) {
            return false;
        }
    }
    true
}

/// Whether no two columns' names are equal once folded.
fn are_distinct(columns: &[(&str, ColType)]) -> bool
    ensures { result ≡ are_distinct (map name_of (map (λ c. (c.0.now, c.1)) columns.now)) }
{
    match columns.split_first() {
        None => true,
        Some((first, rest)) => !is_name_among(first.0, rest) && are_distinct(rest),
    }
}

/// Whether one of the columns has this name, once folded.
fn is_name_among(name: &str, columns: &[(&str, ColType)]) -> bool
    ensures { result ≡ list_any (λ c. has_name name.now c.0.now) columns.now }
{
    columns
        .iter()
        .any(|column| same_word(name.as_bytes(), column.0.as_bytes()))
}

/// The place of the first column with exactly this name, from the left and from 0.
pub fn column_at(columns: &[Column], name: &str) -> Option<usize>
    ensures { result ≡ column_at columns.now name.now }
{
    columns.iter().position(|column| same_text(column.name().as_bytes(), name.as_bytes()))
}
