//! What stands in each file of a vault from its first call on, and how a file is known as one.
use crate::changes::{begun, change_rows};
use crate::refusals::{Refusal, Result};
use sqlite::types::ValueRef;
use sqlite::{Alter, Connection};

// What the file says of itself: of the next generation of rows there are none yet.
const PUT_MARK: &str =
    "INSERT INTO vault (number, program, format, generation) VALUES (1, 'vaultdesk', 2, 0)";

const MARK: &str =
    "SELECT number FROM vault WHERE number = 1 AND program = 'vaultdesk' AND format = 2 AND generation = 0";

const MADE_BY: &str = "SELECT name FROM sqlite_schema WHERE sql = ?1";

// What makes the tables.
const TABLES: [&str; 6] = [
    "CREATE TABLE vault (number INTEGER PRIMARY KEY CHECK (number = 1), program TEXT NOT NULL, format INTEGER NOT NULL, generation INTEGER NOT NULL) STRICT",
    "CREATE TABLE mapping (number INTEGER PRIMARY KEY CHECK (number = 1), content BLOB NOT NULL) STRICT",
    "CREATE TABLE stage (number INTEGER PRIMARY KEY CHECK (number = 1), load_date TEXT NOT NULL, extracts BLOB NOT NULL) STRICT",
    "CREATE TABLE windows (place INTEGER PRIMARY KEY, load_date TEXT NOT NULL UNIQUE, feeds TEXT NOT NULL) STRICT",
    "CREATE TABLE snapshots (number INTEGER PRIMARY KEY, generation INTEGER NOT NULL, snapshot_date TEXT NOT NULL, row_count INTEGER NOT NULL CHECK (row_count >= 0), weight INTEGER NOT NULL CHECK (weight >= 0), UNIQUE (generation, snapshot_date)) STRICT",
    "CREATE TABLE directory (generation INTEGER NOT NULL, rows_in TEXT NOT NULL, snapshot_date TEXT NOT NULL, first_row INTEGER NOT NULL CHECK (first_row > 0), row_count INTEGER NOT NULL CHECK (row_count > 0), PRIMARY KEY (generation, rows_in, snapshot_date)) STRICT",
];

// Makes the tables of a vault in which nothing is kept.
fn make<S: Alter>(conn: &mut Connection<S>) -> Result<()> {
    let mut tx = begun(conn)?;
    for sql in TABLES {
        tx.execute(sql, &[])?;
    }
    change_rows(&mut tx, PUT_MARK, &[], 1)?;
    Ok(tx.commit()?)
}

/// Makes the tables in a file that has nothing. A fault where the file has something that is no vault
/// of this format, and then nothing is written.
pub(crate) fn prepare<S: Alter>(conn: &mut Connection<S>) -> Result<()> {
    let anything = conn.query_all("SELECT name FROM sqlite_schema LIMIT 1", &[])?;
    if anything.is_empty() {
        return make(conn);
    }
    for sql in TABLES {
        let made = conn.query_all(MADE_BY, &[ValueRef::Text(sql.as_bytes())])?;
        if made.is_empty() {
            return Err(Refusal::Fault);
        }
    }
    let marks = conn.query_all(MARK, &[])?;
    if marks.is_empty() {
        return Err(Refusal::Fault);
    }
    Ok(())
}
