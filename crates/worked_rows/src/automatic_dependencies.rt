// Made by tools/rows/write of rows/tables and of the files in rows that it names: change those.

use crate::Row;

/// Jobs, completions and disposals that wait by themselves for those before.
pub const AUTOMATIC_DEPENDENCIES: &[Row] = &[
    Row {
        name: "automatic_dependencies",
        script: "parallel scale(x: ro array, y: wo array) { y[index] = x[index] * 3; }
job total(y: ro array, t: wo ref) { var s = 0; for k in 0..len(y) { s = s + y[k]; } t = s; }
array x 4 = 1 2 3 4
array y 4
reference t
schedule auto h1 scale(x, y) 4 2
schedule auto h2 total(y, t)
complete auto t
print t
",
        status: 0,
        output: "t = 30\n",
    },
    Row {
        name: "automatic_disposal",
        script: "job bump(a: rw array) { a[0] = a[0] + 1; }
job peek(a: ro array, t: wo ref) { t = a[0]; }
array a 1 = 5
reference t
reference u
schedule auto w bump(a)
schedule auto r1 peek(a, t)
schedule auto r2 peek(a, u)
schedule auto w2 bump(a)
dispose auto a as d
complete d
print t
print u
",
        status: 0,
        output: "t = 6\nu = 6\n",
    },
    Row {
        name: "automatic_job_waits",
        script: "job bump(a: rw array) { a[0] = a[0] + 1; }
job peek(a: ro array, t: wo ref) { t = a[0]; }
array a 1
reference t
schedule auto h1 bump(a)
schedule auto h2 peek(a, t)
complete h2
print a
",
        status: 0,
        output: "a = [1]\n",
    },
    Row {
        name: "automatic_job_waits_for_what_it_names",
        script: "job bump(a: rw array) { a[0] = a[0] + 1; }
array a 1
array b 1
schedule h1 bump(a)
schedule auto h2 bump(b) after h1
complete h2
print a
",
        status: 0,
        output: "a = [1]\n",
    },
    Row {
        name: "automatic_completion_of_a_reader",
        script: "job peek(a: ro array, t: wo ref) { t = a[0]; }
array a 1
reference t
schedule h peek(a, t)
complete auto a
set a 0 = 5
print t
",
        status: 0,
        output: "t = 0\n",
    },
    Row {
        name: "automatic_disposal_after_a_reader",
        script: "job peek(a: ro array, t: wo ref) { t = a[0]; }
array a 1
reference t
schedule h peek(a, t)
dispose auto a as d
complete d
print t
",
        status: 0,
        output: "t = 0\n",
    },
];
