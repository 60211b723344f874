//! The statements of a table: its rows, at most 500 in a statement.

ghost use Rattle.std.specs.Prelude.{◌≡◌, ◌++◌, ◌+◌, ◌∷◌, [], ℕ, List, IfOk, OnOk, map};
ghost use Rattle.std.specs.Prelude.{◌==◌, if◌then◌else◌, codes};
ghost use Rattle.std.specs.List.{flat_map};
ghost use Rattle.ssim_sql.specs.Statements.{after_row, before_row, next_place, numbered, row_of};
ghost use Rattle.ssim_sql.specs.Statements.{statements};
ghost use Rattle.ssim_sql.specs.internal.Tables.{script_with};
ghost use Rattle.ssim_sql.specs.internal.Values.{value_text};

use crate::value::{Value, push_row};
use ssim_values::Memory;

/// The place of the last row of a statement.
const LAST_PLACE: u16 = 499;

/// A script, and the table whose rows come next.
#[derive(Drop)]
pub(crate) struct Table {
    /// The script with the rows so far.
    script: Vec<u8>,
    /// The first line of each statement.
    head: &'static [u8],
    /// The place of the next row in its statement.
    place: u16,
}

/// A value that is written as rows under a context.
pub(crate) trait Rowed<C> {
    /// Its rows under a context.
    ghost rows: { C → Self → List (List ℕ) };

    /// Adds its rows.
    fn put(&self, context: &C, table: &mut Table) -> Result<(), Memory>
        ensures { OnOk result ((later : List (List ℕ)) → script_with table.new later
            ≡ script_with table.old (rows context.now self.now ++ later)) };
}

/// A value that is written as a row with a number under a context.
pub(crate) trait Numbered<C> {
    /// Its row under a context.
    ghost text_at: { C → ℕ → Self → List ℕ };

    /// Adds its row.
    fn put_at(&self, context: &C, number: u64, table: &mut Table) -> Result<(), Memory>
        ensures { OnOk result ((later : List (List ℕ)) → script_with table.new later
            ≡ script_with table.old (text_at context.now number self.now ∷ later)) };
}

/// A table of which no row was added yet, after a script.
#[tactic(auto, unfolding(crate::specs::internal::Tables::script_with, crate::specs::Statements::statements))]
pub(crate) fn table_after(script: Vec<u8>, head: &'static [u8]) -> Table
    ensures { (rows : List (List ℕ))
        → script_with result rows ≡ script.items ++ statements head.now rows }
{
    Table {
        script,
        head,
        place: 0,
    }
}

/// The script with all rows of the table.
#[tactic(auto, unfolding(crate::specs::internal::Tables::script_with))]
pub(crate) fn complete(table: Table) -> Result<Vec<u8>, Memory>
    ensures { IfOk result (λ script. script.items ≡ script_with table []) }
{
    let Table {
        mut script,
        place,
        ..
    } = table;
    script.extend_from_slice(end_of(place))?;
    Ok(script)
}

// The end of the last statement, if the next row has this place.
fn end_of(place: u16) -> &'static [u8]
    ensures { result.now ≡ (if place == 0 then [] else codes ";\n") }
{
    if place == 0 { b"" } else { b";\n" }
}

/// A script with the statements of the rows of each value, in order. The statements begin with this
/// line.
pub(crate) fn each_after<C, T: Rowed<C>>(
    script: Vec<u8>,
    head: &'static [u8],
    context: &C,
    items: &[T],
) -> Result<Vec<u8>, Memory>
    ensures { IfOk result (λ made. made.items ≡ script.items
        ++ statements head.now (flat_map (T.rows context.now) items.now)) }
{
    let mut table = table_after(script, head);
    put_each(&mut table, context, items)?;
    complete(table)
}

/// Adds the rows of each value, in order.
pub(crate) fn put_each<C, T: Rowed<C>>(
    table: &mut Table,
    context: &C,
    items: &[T],
) -> Result<(), Memory>
    ensures { OnOk result ((later : List (List ℕ)) → script_with table.new later
        ≡ script_with table.old (flat_map (T.rows context.now) items.now ++ later)) }
{
    for item in items {
        item.put(context, table)?;
    }
    Ok(())
}

/// Adds the row of each value, in order, numbered from 1.
pub(crate) fn put_numbered<C, T: Numbered<C>>(
    table: &mut Table,
    context: &C,
    items: &[T],
) -> Result<(), Memory>
    ensures { OnOk result ((later : List (List ℕ)) → script_with table.new later
        ≡ script_with table.old (numbered (T.text_at context.now) 1 items.now ++ later)) }
{
    for place in 0..items.len() {
        items[place].put_at(context, place as u64 + 1, table)?;
    }
    Ok(())
}

/// Adds a row of the timetable with this name.
pub(crate) fn put_row(table: &mut Table, name: &[u8], values: &[Value<'_>]) -> Result<(), Memory>
    ensures { OnOk result ((later : List (List ℕ)) → script_with table.new later
        ≡ script_with table.old (row_of name.now (map value_text values.now) ∷ later)) }
{
    put_long_row(table, name, values, &[])
}

/// Adds a row of the timetable with this name, whose values are in two parts.
#[tactic(auto, unfolding(crate::specs::internal::Tables::script_with))]
pub(crate) fn put_long_row(
    table: &mut Table,
    name: &[u8],
    values: &[Value<'_>],
    last: &[Value<'_>],
) -> Result<(), Memory>
    ensures { OnOk result ((later : List (List ℕ)) → script_with table.new later
        ≡ script_with table.old (row_of name.now
        (map value_text values.now ++ map value_text last.now) ∷ later)) }
{
    let script = &mut table.script;
    script.extend_from_slice(before_row(table.head, table.place))?;
    push_row(script, &Value::Text(name), values, last)?;
    script.extend_from_slice(after_row(table.place))?;
    table.place = next_place(table.place);
    Ok(())
}

// What comes before a row.
fn before_row(head: &'static [u8], place: u16) -> &'static [u8]
    ensures { result.now ≡ before_row head.now place }
{
    if place == 0 { head } else { b",\n" }
}

// What comes after a row.
fn after_row(place: u16) -> &'static [u8]
    ensures { result.now ≡ after_row place }
{
    if place < LAST_PLACE { b"" } else { b";\n" }
}

// The place of the next row in its statement.
fn next_place(place: u16) -> u16
    ensures { result ≡ next_place place }
{
    if place < LAST_PLACE { place + 1 } else { 0 }
}
