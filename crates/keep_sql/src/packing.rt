//! Kept rows as bytes, and back.
//!
//! The packings of the rows stand one after the other. That of a row is the length of the name in 8 bytes and the name, the plan's number
//! in 4 bytes, a byte that is 1 where it is the chosen one and otherwise 0, a byte 0 for no score, or 1 and the score in 8 bytes of two's
//! complement, and the length of the lines in 8 bytes and the lines. All numbers are little-endian.

ghost use Rattle.std.specs.{Int.w32, Int.w64, Prelude.◌≡◌};
ghost use Rattle.std.specs.Prelude.{◌≢◌, ◌++◌, ◌<◌, ◌^◌, OnOk, IfOk, IfSome, Some, None, option_map, length, FitsSigned};
ghost use Rattle.keep_sql.specs.Packing.{Gives, counted, flag as flag_packing, scored, row_packing, packing, IsRow, AreRows};
ghost use Rattle.keep_sql.specs.Packing.{number_at, counted_at, flag_at, scored_at, row_at, rows_in};
ghost use Rattle.keep_sql.specs.declared.packing.UnpackError.TheVariants.{NoMemory};

use edge_files::{Bytes, KeptRow};
use std::alloc::{AllocError, AllocFailed, Global};

/// Why bytes were not read.
#[derive(Debug, Drop)]
enum UnpackError {
    NoMemory,
    NoPacking,
}

impl From<AllocError> for UnpackError {
    ghost from_gives = { λ _ e. e ≡ NoMemory };

    fn from(_e: AllocError) -> UnpackError {
        UnpackError::NoMemory
    }
}

impl<T: Drop> From<AllocFailed<T>> for UnpackError {
    ghost from_gives = { λ _ e. e ≡ NoMemory };

    fn from(_e: AllocFailed<T>) -> UnpackError {
        UnpackError::NoMemory
    }
}

/// Appends the number of the bytes, and the bytes.
fn put_counted(out: &mut Vec<u8>, bytes: &[u8]) -> Result<(), AllocError>
    ensures { OnOk result (out.new.items ≡ out.old.items ++ counted bytes.now) }
{
    out.extend_from_slice(&(bytes.len() as u64).to_le_bytes())?;
    out.extend_from_slice(bytes)?;
    Ok(())
}

/// Appends a truth value.
fn put_flag(out: &mut Vec<u8>, flag: bool) -> Result<(), AllocError>
    ensures { OnOk result (out.new.items ≡ out.old.items ++ flag_packing flag) }
{
    if flag {
        out.push(1)?;
    } else {
        out.push(0)?;
    }
    Ok(())
}

/// Appends a score, or that there is none.
fn put_score(out: &mut Vec<u8>, score: Option<i64>) -> Result<(), AllocError>
    ensures { OnOk result (out.new.items ≡ out.old.items ++ scored score) }
{
    match score {
        None => out.push(0)?,
        Some(score) => {
            out.push(1)?;
            out.extend_from_slice(&score.to_le_bytes())?;
        }
    }
    Ok(())
}

/// How many bytes there are, a number of 64 bits.
fn len(bytes: &Bytes) -> usize
    ensures { length bytes.now < 2 ^ 64 }
{
    bytes.rows.len()
}

/// A plan's number has 32 bits.
fn plan_fits(plan: u32)
    ensures { plan < 2 ^ 32 }
{
    let _ = plan;
}

/// A score has 64 bits.
fn whole_fits(score: i64)
    ensures { FitsSigned w64 score }
{
    let _ = score;
}

fn score_fits(score: Option<i64>)
    ensures { IfSome score (λ score. FitsSigned w64 score) }
{
    match score {
        None => {}
        Some(score) => whole_fits(score),
    }
}

/// The fields of a row are what they can hold.
fn read_fields(row: &KeptRow)
    ensures { IsRow row.now }
{
    plan_fits(row.plan);
    score_fits(row.score);
    let _person = len(&row.person);
    let _body = len(&row.body);
}

/// Appends the packing of a row.
fn put_row(out: &mut Vec<u8>, row: &KeptRow) -> Result<(), AllocError>
    ensures { OnOk result (out.new.items ≡ out.old.items ++ row_packing row.now) }
{
    put_counted(out, &row.person.rows)?;
    out.extend_from_slice(&row.plan.to_le_bytes())?;
    put_flag(out, row.chosen)?;
    put_score(out, row.score)?;
    put_counted(out, &row.body.rows)
}

/// The packing of the rows, which is unpacked to the same rows.
pub fn pack(alloc: Global, rows: &[KeptRow]) -> Result<Vec<u8>, AllocError>
    ensures packed { IfOk result (λ bytes. bytes.items ≡ packing rows.now) }
    ensures fit { OnOk result (AreRows rows.now) }
    ensures again { IfOk result (λ bytes. rows_in bytes.items ≡ Some rows.now) }
{
    let mut out = Vec::new(alloc);
    for row in rows {
        read_fields(row);
        put_row(&mut out, row)?;
    }
    Ok(out)
}

/// The number of 32 bits in front, and the bytes behind it.
fn u32_at(bytes: &[u8]) -> Result<(u32, &[u8]), UnpackError>
    ensures { Gives (λ x. (x.0, x.1.now)) result (number_at w32 bytes.now) }
{
    if bytes.len() < 4 {
        return Err(UnpackError::NoPacking);
    }
    let (front, rest) = bytes.split_at(4);
    let number = u32::from_le_bytes([front[0], front[1], front[2], front[3]]);
    Ok((number, rest))
}

/// The number of 64 bits in front, and the bytes behind it.
fn u64_at(bytes: &[u8]) -> Result<(u64, &[u8]), UnpackError>
    ensures { Gives (λ x. (x.0, x.1.now)) result (number_at w64 bytes.now) }
{
    if bytes.len() < 8 {
        return Err(UnpackError::NoPacking);
    }
    let (front, rest) = bytes.split_at(8);
    let number = u64::from_le_bytes([
        front[0], front[1], front[2], front[3], front[4], front[5], front[6], front[7],
    ]);
    Ok((number, rest))
}

/// The bytes in front behind their number, and those behind them.
#[tactic(auto, unfolding(crate::specs::Packing::counted_at))]
fn counted_at(alloc: Global, bytes: &[u8]) -> Result<(Vec<u8>, &[u8]), UnpackError>
    ensures { Gives (λ x. (x.0.items, x.1.now)) result (counted_at bytes.now) }
{
    let (len, rest) = u64_at(bytes)?;
    let len = len as usize;
    if rest.len() < len {
        return Err(UnpackError::NoPacking);
    }
    let (text, rest) = rest.split_at(len);
    Ok((Vec::from_slice(alloc, text)?, rest))
}

/// The truth value in front, and the bytes behind it.
#[tactic(auto, unfolding(crate::specs::Packing::flag_at))]
fn flag_at(bytes: &[u8]) -> Result<(bool, &[u8]), UnpackError>
    ensures { Gives (λ x. (x.0, x.1.now)) result (flag_at bytes.now) }
{
    match bytes {
        [0, rest @ ..] => Ok((false, rest)),
        [1, rest @ ..] => Ok((true, rest)),
        _ => Err(UnpackError::NoPacking),
    }
}

/// The score in front, or that there is none, and the bytes behind it.
#[tactic(auto, unfolding(crate::specs::Packing::scored_at))]
fn scored_at(bytes: &[u8]) -> Result<(Option<i64>, &[u8]), UnpackError>
    ensures { Gives (λ x. (x.0, x.1.now)) result (scored_at bytes.now) }
{
    match bytes {
        [] => Err(UnpackError::NoPacking),
        [0, rest @ ..] => Ok((None, rest)),
        [1, rest @ ..] => {
            let (score, rest) = u64_at(rest)?;
            Ok((Some(score.cast_signed()), rest))
        }
        [_, ..] => Err(UnpackError::NoPacking),
    }
}

/// The row in front, and the bytes behind it.
#[tactic(auto, unfolding(crate::specs::Packing::row_at))]
fn row_at(alloc: Global, bytes: &[u8]) -> Result<(KeptRow, &[u8]), UnpackError>
    ensures { Gives (λ x. (x.0, x.1.now)) result (row_at bytes.now) }
{
    let (person, rest) = counted_at(alloc, bytes)?;
    let (plan, rest) = u32_at(rest)?;
    let (chosen, rest) = flag_at(rest)?;
    let (score, rest) = scored_at(rest)?;
    let (body, rest) = counted_at(alloc, rest)?;
    let person = Bytes { rows: person };
    let body = Bytes { rows: body };
    Ok((
        KeptRow {
            person,
            plan,
            chosen,
            score,
            body,
        },
        rest,
    ))
}

/// The rows that are packed, one after the other to the end.
fn rows_at(alloc: Global, bytes: &[u8]) -> Result<Vec<KeptRow>, UnpackError>
    ensures { Gives (λ rows. rows.items) result (rows_in bytes.now) }
{
    let mut rows = Vec::new(alloc);
    let mut rest = bytes;
    for _ in 0..bytes.len() {
        if rest.is_empty() {
            return Ok(rows);
        }
        match row_at(alloc, rest) {
            Ok((row, after)) => {
                rows.push(row)?;
                rest = after;
            }
            Err(error) => return Err(error),
        }
    }
    if rest.is_empty() {
        Ok(rows)
    } else {
        Err(UnpackError::NoPacking)
    }
}

/// The rows whose packing the bytes are, or `None` exactly where they are the packing of no list of rows.
pub fn unpack(alloc: Global, bytes: &[u8]) -> Result<Option<Vec<KeptRow>>, AllocError>
    ensures exact { IfOk result (λ found. option_map (λ rows. rows.items) found ≡ rows_in bytes.now) }
    ensures found { IfOk result (λ found. IfSome found (λ rows. AreRows rows.items × (bytes.now ≡ packing rows.items))) }
    ensures none { IfOk result (λ found. found ≡ None → (rows : _) → AreRows rows → bytes.now ≢ packing rows) }
{
    match rows_at(alloc, bytes) {
        Ok(rows) => Ok(Some(rows)),
        Err(UnpackError::NoPacking) => Ok(None),
        Err(UnpackError::NoMemory) => Err(AllocError),
    }
}
