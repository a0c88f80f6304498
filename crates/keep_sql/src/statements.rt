//! The three statements, over a database in any store: the table is made where it is missing, its one row is put in place, and is found.

ghost use Rattle.std.specs.Prelude.{◌≡◌, [], ◌∷◌, pos, Some, OnOk, OnErr, IfOk, option_map};
ghost use Rattle.sqlite.specs.{Held.state, State.HasCleanDisk, State.Survives, State.Executes, State.CommitsBy};
ghost use Rattle.sqlite.specs.declared.types.Value.TheVariants.{Int, Blob};
ghost use Rattle.keep_sql.specs.Calls.{ForWhat, ForWhatIfOpen, AreOld, AreOldOr, LeavesOldOr};
ghost use Rattle.keep_sql.specs.{Table.kept_schema, Table.Holds, Table.AreTreesOf, Table.shown, Texts.put_text};

use sqlite::{Alter, Connection, Error, Row, params};

/// Makes the table where it is missing.
fn make<S: Alter>(conn: &mut Connection<S>) -> Result<(), Error>
    ensures ok { ForWhat (state S.Store conn.old) (state S.Store conn.new)
        (λ what. OnOk result (Holds (state S.Store conn.new) what × ((state S.Store conn.new).now.schema ≡ kept_schema))) }
    ensures err { ForWhatIfOpen (state S.Store conn.old) (state S.Store conn.new)
        (λ what. OnErr result (Holds (state S.Store conn.new) what)) }
    ensures crash { Survives (state S.Store conn.old) (state S.Store conn.new) (AreOld (state S.Store conn.old)) }
{
    match conn.execute(
        "CREATE TABLE IF NOT EXISTS kept \
            (place INTEGER PRIMARY KEY NOT NULL, iteration INTEGER NOT NULL, body BLOB NOT NULL) STRICT",
        &[],
    ) {
        Ok(_) => Ok(()),
        Err(error) => Err(error),
    }
}

/// The insertion, as the database means it.
fn insert<S: Alter>(conn: &mut Connection<S>, iteration: i64, body: &[u8]) -> Result<usize, Error>
    ensures runs { HasCleanDisk (state S.Store conn.new) → Executes put_text (Int iteration ∷ Blob body.now ∷ [])
        (state S.Store conn.old) (state S.Store conn.new) result }
    ensures survives { Survives (state S.Store conn.old) (state S.Store conn.new)
        (CommitsBy put_text (Int iteration ∷ Blob body.now ∷ []) (state S.Store conn.old)) }
{
    conn.execute(
        "INSERT INTO kept (place, iteration, body) VALUES (0, ?1, ?2) \
            ON CONFLICT (place) DO UPDATE SET iteration = excluded.iteration, body = excluded.body",
        params![iteration, body],
    )
}

/// The iteration as a number of the database.
fn whole(iteration: u32) -> i64
    ensures { result ≡ pos iteration }
{
    i64::from(iteration)
}

/// Puts the iteration and the body into the row of place 0, where the table is there.
fn put<S: Alter>(conn: &mut Connection<S>, iteration: u32, body: &[u8]) -> Result<(), Error>
    ensures ok { ForWhat (state S.Store conn.old) (state S.Store conn.new) (λ _. (state S.Store conn.old).now.schema ≡ kept_schema →
        OnOk result (Holds (state S.Store conn.new) (Some (pos iteration, body.now)))) }
    ensures err { ForWhatIfOpen (state S.Store conn.old) (state S.Store conn.new)
        (λ what. OnErr result (Holds (state S.Store conn.new) what)) }
    ensures crash { Survives (state S.Store conn.old) (state S.Store conn.new)
        (λ trees. (what : _) → Holds (state S.Store conn.old) what → (state S.Store conn.old).now.schema ≡ kept_schema →
        AreTreesOf (Some (pos iteration, body.now)) trees) }
{
    match insert(conn, whole(iteration), body) {
        Ok(_) => Ok(()),
        Err(error) => Err(error),
    }
}

/// Makes the table where it is missing, and then keeps the iteration and the body in place of what was kept.
fn make_and_put<S: Alter>(
    conn: &mut Connection<S>,
    iteration: u32,
    body: &[u8],
) -> Result<(), Error>
    ensures ok { ForWhat (state S.Store conn.old) (state S.Store conn.new)
        (λ _. OnOk result (Holds (state S.Store conn.new) (Some (pos iteration, body.now)))) }
    ensures err { ForWhatIfOpen (state S.Store conn.old) (state S.Store conn.new)
        (λ what. OnErr result (Holds (state S.Store conn.new) what)) }
    ensures crash { Survives (state S.Store conn.old) (state S.Store conn.new)
        (AreOldOr (state S.Store conn.old) (Some (pos iteration, body.now))) }
{
    make(conn)?;
    put(conn, iteration, body)
}

/// Keeps the iteration and the body in place of what was kept. A crash leaves the one or the other, whole.
pub fn save_in<S: Alter>(conn: &mut Connection<S>, iteration: u32, body: &[u8]) -> Result<(), Error>
    ensures ok { ForWhat (state S.Store conn.old) (state S.Store conn.new)
        (λ _. OnOk result (Holds (state S.Store conn.new) (Some (pos iteration, body.now)))) }
    ensures err { ForWhatIfOpen (state S.Store conn.old) (state S.Store conn.new)
        (λ what. OnErr result (Holds (state S.Store conn.new) what)) }
    ensures crash { LeavesOldOr (state S.Store conn.old) (state S.Store conn.new) (Some (pos iteration, body.now)) }
{
    let _schema = conn.schema();
    make_and_put(conn, iteration, body)
}

/// The row of place 0, if there is one, where the table is there.
fn ask<S: Alter>(conn: &mut Connection<S>) -> Result<Option<Row>, Error>
    ensures found { ForWhat (state S.Store conn.old) (state S.Store conn.new)
        (λ what. (state S.Store conn.old).now.schema ≡ kept_schema →
        IfOk result (λ row. row ≡ option_map (λ it. shown it.0 it.1) what)) }
    ensures ok { ForWhat (state S.Store conn.old) (state S.Store conn.new)
        (λ what. (state S.Store conn.old).now.schema ≡ kept_schema → OnOk result (Holds (state S.Store conn.new) what)) }
    ensures err { ForWhatIfOpen (state S.Store conn.old) (state S.Store conn.new)
        (λ what. (state S.Store conn.old).now.schema ≡ kept_schema → OnErr result (Holds (state S.Store conn.new) what)) }
    ensures crash { Survives (state S.Store conn.old) (state S.Store conn.new)
        (λ _. (state S.Store conn.old).now.schema ≡ kept_schema → ⊥) }
{
    match conn.query_row("SELECT iteration, body FROM kept WHERE place = 0", &[]) {
        Ok(row) => Ok(Some(row)),
        Err(Error::QueryReturnedNoRows) => Ok(None),
        Err(error) => Err(error),
    }
}

/// What is kept in a row.
fn read(row: &Row) -> Result<(u32, Vec<u8>), Error>
    ensures value { IfOk result
        (λ it. (iteration : _) (body : _) → row.now ≡ shown iteration body → (iteration ≡ pos it.0) × (body ≡ it.1.items)) }
{
    let iteration = row.get::<u32>(0)?;
    let body = row.get::<Vec<u8>>(1)?;
    Ok((iteration, body))
}

/// Makes the table where it is missing, and finds the row of place 0, if there is one.
fn ask_made<S: Alter>(conn: &mut Connection<S>) -> Result<Option<Row>, Error>
    ensures found { ForWhat (state S.Store conn.old) (state S.Store conn.new)
        (λ what. IfOk result (λ row. row ≡ option_map (λ it. shown it.0 it.1) what)) }
    ensures ok { ForWhat (state S.Store conn.old) (state S.Store conn.new) (λ what. OnOk result (Holds (state S.Store conn.new) what)) }
    ensures err { ForWhatIfOpen (state S.Store conn.old) (state S.Store conn.new)
        (λ what. OnErr result (Holds (state S.Store conn.new) what)) }
    ensures crash { Survives (state S.Store conn.old) (state S.Store conn.new) (AreOld (state S.Store conn.old)) }
{
    match make(conn) {
        Ok(()) => ask(conn),
        Err(error) => Err(error),
    }
}

/// Makes the table where it is missing, and reads what is kept: an iteration and a body, or nothing.
pub fn kept_in<S: Alter>(conn: &mut Connection<S>) -> Result<Option<(u32, Vec<u8>)>, Error>
    ensures found { ForWhat (state S.Store conn.old) (state S.Store conn.new)
        (λ what. IfOk result (λ found. what ≡ option_map (λ it. (pos it.0, it.1.items)) found)) }
    ensures ok { ForWhat (state S.Store conn.old) (state S.Store conn.new) (λ what. OnOk result (Holds (state S.Store conn.new) what)) }
    ensures err { ForWhatIfOpen (state S.Store conn.old) (state S.Store conn.new)
        (λ what. OnErr result (Holds (state S.Store conn.new) what)) }
    ensures crash { Survives (state S.Store conn.old) (state S.Store conn.new) (AreOld (state S.Store conn.old)) }
{
    match ask_made(conn) {
        Ok(None) => Ok(None),
        Ok(Some(row)) => match read(&row) {
            Ok(found) => Ok(Some(found)),
            Err(error) => Err(error),
        },
        Err(error) => Err(error),
    }
}
