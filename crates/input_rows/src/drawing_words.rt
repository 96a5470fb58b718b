// Word lists and what they are read as.
use command_words::Command;
use graph_words::{GraphCommand, read_graph_words};
use row_texts::{row, same, table};
use std::alloc::{AllocError, Global};
use std::test::Fail;

// What the words, parted by spaces, are read as, or why they aren't.
fn read(alloc: Global, line: &str) -> Result<String, AllocError> {
    let mut words = Vec::new(alloc);
    for word in line.split(' ') {
        words.push(String::from_str(alloc, word)?)?;
    }
    match read_graph_words(alloc, words) {
        Ok(GraphCommand { command, dot }) => match command {
            Command::Run {
                workers,
                script,
                table,
                ..
            } => {
                let table = table.unwrap_or(String::from_str(alloc, "none")?);
                format!(in alloc; "run {workers} {script} {table} {dot}")
            }
            Command::Gen {
                workers,
                number,
                jobs,
                ..
            } => { format!(in alloc; "gen {workers} {number} {jobs} {dot}") }
        },
        Err(fault) => format!(in alloc; "{fault}"),
    }
}

const ROWS: &str = "
run 4 s none false | s
run 4 s none true | --dot s
run 4 s t true | s t --dot
run 8 s none true | --workers 8 --dot s
run 8 s t true | --workers=8 s --dot t
gen 4 7 3 false | --gen 7 --jobs 3
gen 4 7 3 true | --gen=7 --dot --jobs=3
the words are not of the command | --dot
the words are not of the command | --dot --dot s
the words are not of the command | --dot=1 s
the words are not of the command | --workers --dot s
the words are not of the command | --workers --dot --dot s
the words are not of the command | --depth s
the words are not of the command | --dot --depth s
";

#[test]
fn words(rt: HostRuntime) -> Result<(), Fail> {
    for line in table(ROWS)?.lines() {
        if let Some((wanted, words)) = row(line)? {
            same(line, &read(rt.alloc(), words)?, wanted)?;
        }
    }
    Ok(())
}
