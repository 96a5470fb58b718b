// Made by tools/rows/write of rows/tables and of the files in rows that it names: change those.

use crate::Row;

/// Scripts at a limit, and some that are refused as they are read.
pub const LIMITS: &[Row] = &[
    Row {
        name: "statement_without_its_length",
        script: "array a
",
        status: 3,
        output: "script refused line 1: syntax\n",
    },
    Row {
        name: "fewer_values_than_the_length",
        script: "array a 2 = 1
",
        status: 3,
        output: "script refused line 1: kind mismatch\n",
    },
    Row {
        name: "batch_of_no_index",
        script: "parallel scale(x: ro array, y: wo array) { y[index] = x[index] * 3; }
array x 1
array y 1
schedule h scale(x, y) 4 0
",
        status: 3,
        output: "script refused line 4: limit\n",
    },
    Row {
        name: "as_many_statements_as_may_be",
        script: "repeat 65536 {
flush
}
",
        status: 0,
        output: "",
    },
    Row {
        name: "one_statement_too_many",
        script: "repeat 65536 {
flush
}
flush
",
        status: 9,
        output: "limit: statements\n",
    },
    Row {
        name: "as_many_jobs_as_may_be",
        script: "job bump(a: rw array) { a[0] = a[0] + 1; }
array a 1
combine h
repeat 4096 {
schedule h bump(a) after h
}
complete h
print a
",
        status: 0,
        output: "a = [4096]\n",
    },
    Row {
        name: "one_job_too_many",
        script: "job bump(a: rw array) { a[0] = a[0] + 1; }
array a 1
combine h
repeat 4097 {
schedule h bump(a) after h
}
complete h
print a
",
        status: 9,
        output: "limit: jobs\n",
    },
];
