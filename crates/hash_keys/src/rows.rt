//! The keys of the rows of a frame.
ghost use Rattle.std.specs.Prelude.{◌≡◌, ◌<◌, ◌^◌, [], map, not, length, slice_index_or, IfOk};
ghost use Rattle.std.specs.List.{All, list_any, range_with_len};
ghost use Rattle.col_arrays.specs.Items.{item_of};
ghost use Rattle.col_core.specs.Tables.{selected, column_of, values_at};
ghost use Rattle.col_core.specs.Values.{is_null};
ghost use Rattle.row_code.specs.Spelling.{IsRowOf};
ghost use Rattle.hash_keys.specs.Rows.{row_keys};

use crate::row_encoded::RowEncodedKeys;
use col_arrays::{BinaryArray, Bitmap, MutableBitmap};
use col_core::Frame;
use key_parts::PlRandomState;
use row_code::encode_columns;
use std::alloc::{AllocError, Global};

impl RowEncodedKeys {
    /// The keys of the rows of a frame. A key is null exactly where nulls are not valid and a value
    /// of the row is null.
    pub fn from_df(
        alloc: Global,
        df: &Frame,
        random_state: PlRandomState,
        null_is_valid: bool,
    ) -> Result<RowEncodedKeys, AllocError>
        requires few { length df.now.rows < 2 ^ 32 }
        ensures keys { IfOk result (λ k. k ≡ record { state = random_state; keys = row_keys null_is_valid df.now }) }
        ensures rows { IfOk result (λ _. All (IsRowOf df.now.schema) df.now.rows) }
    {
        let _height = df.height();
        let places = all_places(alloc, df.schema().len())?;
        RowEncodedKeys::from_columns(alloc, df, &places, random_state, null_is_valid)
    }

    /// The keys of the rows of some columns of a frame, by their places.
    pub fn from_columns(
        alloc: Global,
        df: &Frame,
        places: &[usize],
        random_state: PlRandomState,
        null_is_valid: bool,
    ) -> Result<RowEncodedKeys, AllocError>
        requires in_bounds { All (λ i. i < length df.now.schema) places.now }
        requires few { length df.now.rows < 2 ^ 32 }
        ensures keys { IfOk result (λ k. k ≡ record { state = random_state; keys = row_keys null_is_valid (selected places.now df.now) }) }
        ensures rows { IfOk result (λ _. All (IsRowOf (selected places.now df.now).schema) (selected places.now df.now).rows) }
    {
        let keys = spelled_keys(alloc, df, places, null_is_valid)?;
        RowEncodedKeys::from_array(alloc, random_state, keys)
    }
}

/// The places of so many columns.
fn all_places(alloc: Global, width: usize) -> Result<Vec<usize>, AllocError>
    ensures { IfOk result (λ places. places.items ≡ range_with_len 0 width) }
{
    let mut places = Vec::with_capacity(alloc, width)?;
    for i in 0..width {
        places.push(i)?;
    }
    Ok(places)
}

/// The bytes of the rows, null where a key is.
fn spelled_keys(
    alloc: Global,
    df: &Frame,
    places: &[usize],
    null_is_valid: bool,
) -> Result<BinaryArray, AllocError>
    requires in_bounds { All (λ i. i < length df.now.schema) places.now }
    ensures keys { IfOk result (λ keys. map item_of keys ≡ row_keys null_is_valid (selected places.now df.now)) }
    ensures rows { IfOk result (λ _. All (IsRowOf (selected places.now df.now).schema) (selected places.now df.now).rows) }
{
    let spelled = encode_columns(alloc, df, places)?;
    if null_is_valid || !have_nulls(df, places) {
        return Ok(spelled);
    }
    let present = present_rows(alloc, df, places)?;
    Ok(spelled.with_validity(Some(present)))
}

/// Whether some columns have a null.
fn have_nulls(df: &Frame, places: &[usize]) -> bool
    requires in_bounds { All (λ i. i < length df.now.schema) places.now }
    ensures { result ≡ list_any (λ i. list_any is_null (column_of i df.now.rows)) places.now }
{
    for place in places {
        if df.column(*place).null_count() > 0 {
            return true;
        }
    }
    false
}

/// A bit for each row: whether no value of some columns is null.
fn present_rows(alloc: Global, df: &Frame, places: &[usize]) -> Result<Bitmap, AllocError>
    requires in_bounds { All (λ i. i < length df.now.schema) places.now }
    ensures { IfOk result (λ bits. bits ≡ map (λ row. not (list_any is_null row)) (selected places.now df.now).rows) }
{
    let mut present = MutableBitmap::new(alloc);
    for row in 0..df.height() {
        present.push(!has_null(df, places, row))?;
    }
    Ok(present.freeze())
}

/// Whether a value of some columns of a row is null.
fn has_null(df: &Frame, places: &[usize], row: usize) -> bool
    requires in_bounds { All (λ i. i < length df.now.schema) places.now }
    requires row { row < length df.now.rows }
    ensures { result ≡ list_any is_null (values_at (slice_index_or df.now.rows row []) places.now) }
{
    for place in places {
        if df.column(*place).leaf_ref(row).is_null() {
            return true;
        }
    }
    false
}
