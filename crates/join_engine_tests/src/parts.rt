//! The tables of an answer with their marks, and the keys of its local states.
use crate::asked::{answer, answer_within, request_of};
use chunked_idx_table::{ChunkedIdxTable, RowEncodedChunkedIdxTable};
use join_engine::Answer;
use key_groups::{Grouper, RowEncodedHashGrouper};
use std::alloc::Global;
use std::test::Fail;

/// The chunk and the row of a position, without the bit that is to be ignored.
fn place_text(alloc: Global, word: u64) -> Result<String, Fail> {
    let chunk = word % 0x1_0000_0000;
    let row = word / 0x1_0000_0000 % 0x8000_0000;
    Ok(format!(in alloc; " {chunk}.{row}")?)
}

/// The bytes of a key, a star where it is marked, and its positions.
fn entry_text(alloc: Global, key: &[u8], marked: bool, words: &[u64]) -> Result<String, Fail> {
    let mut text = hex::encode(alloc, key)?;
    if marked {
        text.push_str("*")?;
    }
    for word in words {
        text.push_str(place_text(alloc, *word)?.as_str())?;
    }
    text.push_str("; ")?;
    Ok(text)
}

/// The number of chunks of a table, and the positions of its null rows.
fn nulls_text(alloc: Global, table: &RowEncodedChunkedIdxTable) -> Result<String, Fail> {
    let mut text = format!(in alloc; "{} chunks:", table.num_chunks())?;
    for id in table.null_rows() {
        text.push_str(place_text(alloc, id.into_inner())?.as_str())?;
    }
    text.push_str("; ")?;
    Ok(text)
}

fn table_text(alloc: Global, table: &RowEncodedChunkedIdxTable) -> Result<String, Fail> {
    let mut text = nulls_text(alloc, table)?;
    for i in 0..table.num_keys() {
        let entry = entry_text(alloc, table.key(i), table.is_marked(i), table.positions(i))?;
        text.push_str(entry.as_str())?;
    }
    Ok(text)
}

fn tables_text(alloc: Global, answer: &Answer) -> Result<String, Fail> {
    let mut text = String::new(alloc);
    for table in answer.tables.as_slice() {
        text.push_str(table_text(alloc, table)?.as_str())?;
    }
    Ok(text)
}

fn keys_text(alloc: Global, grouper: &RowEncodedHashGrouper) -> Result<String, Fail> {
    let mut text = String::new(alloc);
    for i in 0..grouper.num_groups() {
        text.push_str(entry_text(alloc, grouper.key(i), false, &[])?.as_str())?;
    }
    Ok(text)
}

/// The keys of each local state, and after each a stroke.
fn locals_text(alloc: Global, answer: &Answer) -> Result<String, Fail> {
    let mut text = String::new(alloc);
    for grouper in answer.locals.as_slice() {
        text.push_str(keys_text(alloc, grouper)?.as_str())?;
        text.push_str("/ ")?;
    }
    Ok(text)
}

/// The tables and the local states of the answer to a request.
fn parts_of(alloc: Global, request: &str) -> Result<(String, String), Fail> {
    let asked = request_of(alloc, request)?;
    let given = answer(
        alloc,
        &asked.query,
        asked.build.as_slice(),
        asked.probe.as_slice(),
    )?;
    Ok((tables_text(alloc, &given)?, locals_text(alloc, &given)?))
}

/// A request, the tables of its answer, and its local states.
type Case = (&'static str, &'static str, &'static str);

const CASES: [Case; 6] = [
    // The tables of one partition, every key marked; the morsels of one row take turns.
    (
        r#"{"build":{"schema":[["id","Int64"],["name","String"]],"frames":[[[1,"Ann"],[2,"Bo"]],[[1,"Cy"]]]},"probe":{"schema":[["cust","Int64"],["amt","Int64"]],"frames":[[[1,5],[3,7],[2,1]]]},"join":{"build":["id"],"probe":["cust"]},"group":["build.name"],"reduce":[["sum","probe.amt"]],"plan":{"partitions":1,"states":4,"morsel":1}}"#,
        "2 chunks:; 010100000000000000* 0.0 1.0; 010200000000000000* 0.1; ",
        "010300000000000000416e6e; 0102000000000000004379; / / 010200000000000000426f; / / ",
    ),
    // A key that no row joins is not marked; its row is a morsel of its own after those of the probe side.
    (
        r#"{"build":{"schema":[["id","Int64"],["name","String"]],"frames":[[[1,"Ann"],[2,"Bo"]],[[1,"Cy"]]]},"probe":{"schema":[["cust","Int64"],["amt","Int64"]],"frames":[[[1,5],[3,7]]]},"join":{"build":["id"],"probe":["cust"],"keep_probe":true,"keep_build":true},"group":["build.name"],"reduce":[["sum","probe.amt"]],"plan":{"partitions":1,"states":2,"morsel":1}}"#,
        "2 chunks:; 010100000000000000* 0.0 1.0; 010200000000000000 0.1; ",
        "010300000000000000416e6e; 0102000000000000004379; 010200000000000000426f; / 00; / ",
    ),
    // All keys are in one table where all have one hash.
    (
        r#"{"build":{"schema":[["id","Int64"],["name","String"]],"frames":[[[1,"Ann"],[2,"Bo"]],[[1,"Cy"]]]},"probe":{"schema":[["cust","Int64"],["amt","Int64"]],"frames":[[[1,5],[3,7],[2,1]]]},"join":{"build":["id"],"probe":["cust"]},"group":["build.name"],"reduce":[["sum","probe.amt"]],"plan":{"partitions":2,"states":1,"mask":0}}"#,
        "2 chunks:; 010100000000000000* 0.0 1.0; 010200000000000000* 0.1; 2 chunks:; ",
        "010300000000000000416e6e; 0102000000000000004379; 010200000000000000426f; / ",
    ),
    // Keys in the tables that their hashes name.
    (
        r#"{"build":{"schema":[["k","Int64"],["b","Int64"]],"frames":[[[1,10],[2,20]]]},"probe":{"schema":[["k","Int64"],["a","Int64"]],"frames":[[[1,1],[null,2],[2,3]]]},"join":{"build":["k"],"probe":["k"],"keep_probe":true},"group":["probe.k"],"reduce":[["sum","build.b"]],"plan":{"partitions":4,"states":1}}"#,
        "1 chunks:; 1 chunks:; 010100000000000000* 0.0; 1 chunks:; 010200000000000000* 0.0; 1 chunks:; ",
        "010100000000000000; 00; 010200000000000000; / ",
    ),
    // A null key is a null row of table 0.
    (
        r#"{"build":{"schema":[["k","Int64"],["b","Int64"]],"frames":[[[1,10],[2,20],[null,30]]]},"probe":{"schema":[["k","Int64"],["a","Int64"]],"frames":[[[1,1],[null,2],[2,3]]]},"join":{"build":["k"],"probe":["k"],"keep_probe":true},"group":["probe.k"],"reduce":[["sum","build.b"]],"plan":{"partitions":4,"states":1}}"#,
        "1 chunks: 0.0; 1 chunks:; 010100000000000000* 0.0; 1 chunks:; 010200000000000000* 0.0; 1 chunks:; ",
        "010100000000000000; 00; 010200000000000000; / ",
    ),
    // It is numbered after the other rows of that table.
    (
        r#"{"build":{"schema":[["k","Int64"],["b","Int64"]],"frames":[[[1,10],[2,20],[null,30]]]},"probe":{"schema":[["k","Int64"],["a","Int64"]],"frames":[[[2,1]]]},"join":{"build":["k"],"probe":["k"]},"group":["probe.k"],"reduce":[],"plan":{"partitions":4,"states":1,"mask":0}}"#,
        "1 chunks: 0.2; 010100000000000000 0.0; 010200000000000000* 0.1; 1 chunks:; 1 chunks:; 1 chunks:; ",
        "010200000000000000; / ",
    ),
];

#[test]
fn tables_and_local_states(rt: HostRuntime) -> Result<(), Fail> {
    for (request, tables, locals) in CASES {
        let (tables_now, locals_now) = parts_of(rt.alloc(), request)?;
        assert!(rt; tables_now.as_str() == tables, "{tables_now}");
        assert!(rt; locals_now.as_str() == locals, "{locals_now}");
    }
    Ok(())
}

/// Two customers of one number and one of another, whose orders are joined in at most twelve searches.
const THREE_ROWS: &str =
    r#"{"build":{"schema":[["id","Int64"],["name","String"]],"frames":[[[1,"Ann"],[2,"Bo"],[1,"Cy"]]]},"probe":{"schema":[["cust","Int64"],["amt","Int64"]],"frames":[[[1,5],[3,7],[2,1]]]},"join":{"build":["id"],"probe":["cust"]},"group":["build.name"],"reduce":[["sum","probe.amt"]]}"#;

/// The number of rows of the answer to a request with one frame a side, in at most four searches for each of `most` rows.
fn rows_within(alloc: Global, request: &str, most: usize) -> Result<Option<usize>, Fail> {
    let asked = request_of(alloc, request)?;
    let (Some(build), Some(probe)) = (
        asked.build.as_slice().first(),
        asked.probe.as_slice().first(),
    ) else {
        return Ok(None);
    };
    let given = answer_within(alloc, &asked.query, build, probe, most)?;
    Ok(Some(given.rows.height()))
}

#[test]
fn twelve_searches(rt: HostRuntime) -> Result<(), Fail> {
    assert!(rt; rows_within(rt.alloc(), THREE_ROWS, 3)? == Some(3));
    Ok(())
}
