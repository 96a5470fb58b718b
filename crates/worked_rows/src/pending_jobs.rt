// Made by tools/rows/write of rows/tables and of the files in rows that it names: change those.

use crate::Row;

/// A pending job is named where a job, an access or a test would race with it.
pub const PENDING_JOBS: &[Row] = &[
    Row {
        name: "first_script",
        script: "job triple(x: ro array, y: wo array) { for k in 0..len(x) { y[k] = x[k] * 3; } }
array x 4 = 1 2 3 4
array y 4
schedule h triple(x, y)
complete h
print y
",
        status: 0,
        output: "y = [3, 6, 9, 12]\n",
    },
    Row {
        name: "print_of_a_pending_write",
        script: "job triple(x: ro array, y: wo array) { for k in 0..len(x) { y[k] = x[k] * 3; } }
array x 4 = 1 2 3 4
array y 4
schedule h triple(x, y)
print y
",
        status: 1,
        output: "refused 5: pending job 1 on y\n",
    },
    Row {
        name: "total_after_scale",
        script: "parallel scale(x: ro array, y: wo array) { y[index] = x[index] * 3; }
job total(y: ro array, t: wo ref) { var s = 0; for k in 0..len(y) { s = s + y[k]; } t = s; }
array x 4 = 1 2 3 4
array y 4
reference t
schedule h1 scale(x, y) 4 2
schedule h2 total(y, t) after h1
complete h2
print t
",
        status: 0,
        output: "t = 30\n",
    },
    Row {
        name: "total_without_waiting",
        script: "parallel scale(x: ro array, y: wo array) { y[index] = x[index] * 3; }
job total(y: ro array, t: wo ref) { var s = 0; for k in 0..len(y) { s = s + y[k]; } t = s; }
array x 4 = 1 2 3 4
array y 4
reference t
schedule h1 scale(x, y) 4 2
schedule h2 total(y, t)
complete h2
print t
",
        status: 1,
        output: "refused 7: pending job 1 on y\nt = 0\n",
    },
    Row {
        name: "dependency_through_another_job",
        script: "job bump(a: rw array) { a[0] = a[0] + 1; }
array a 1
array b 1
schedule h1 bump(a)
schedule h2 bump(b) after h1
schedule h3 bump(a) after h2
complete h3
print a
print b
",
        status: 0,
        output: "a = [2]\nb = [1]\n",
    },
    Row {
        name: "writer_behind_one_of_two_readers",
        script: "job bump(a: rw array) { a[0] = a[0] + 1; }
job peek(a: ro array, t: wo ref) { t = a[0]; }
array a 1 = 5
reference t
reference u
schedule w bump(a)
schedule r1 peek(a, t) after w
schedule r2 peek(a, u) after w
schedule w2 bump(a) after r2
complete r2
print a
",
        status: 1,
        output: "refused 9: pending job 2 on a\na = [6]\n",
    },
    Row {
        name: "latest_writer_is_named",
        script: "job bump(a: rw array) { a[0] = a[0] + 1; }
array a 1
schedule h1 bump(a)
schedule h2 bump(a) after h1
schedule h3 bump(a)
complete h2
print a
",
        status: 1,
        output: "refused 5: pending job 2 on a\na = [2]\n",
    },
    Row {
        name: "readers_share",
        script: "job peek(a: ro array, t: wo ref) { t = a[0]; }
array a 1 = 4
reference t
reference u
schedule r1 peek(a, t)
schedule r2 peek(a, u)
print a
set a 0 = 9
print t
",
        status: 1,
        output: "a = [4]\nrefused 8: pending job 2 on a\nrefused 9: pending job 1 on t\n",
    },
    Row {
        name: "union_of_handles",
        script: "job bump(a: rw array) { a[0] = a[0] + 1; }
array a 1
array b 1
schedule h1 bump(a)
schedule h2 bump(b)
combine h h1 h2
complete h
print b
",
        status: 0,
        output: "b = [1]\n",
    },
    Row {
        name: "block_while_busy",
        script: "job bump(a: rw array) { a[0] = a[0] + 1; }
reference t
array a 1
schedule h bump(a)
when t == 0 {
print t
}
complete h
print a
",
        status: 1,
        output: "refused 5: busy job 1\na = [1]\n",
    },
    Row {
        name: "greatest_blocker_is_named",
        script: "job bump(a: rw array) { a[0] = a[0] + 1; }
job pair(a: ro array, b: rw array) { b[0] = a[0]; }
array a 1
array b 1
schedule h1 bump(a)
schedule h2 bump(b)
schedule h3 pair(a, b)
",
        status: 1,
        output: "refused 7: pending job 2 on b\n",
    },
    Row {
        name: "disposed_before_pending",
        script: "job both(a: ro array, b: ro array, t: wo ref) { t = a[0] + b[0]; }
job bump(a: rw array) { a[0] = a[0] + 1; }
array a 1
array b 1
reference t
schedule g bump(a)
dispose b
schedule h both(a, b, t)
",
        status: 1,
        output: "refused 8: disposed b\n",
    },
    Row {
        name: "first_value_is_named",
        script: "job both(a: ro array, b: ro array, t: wo ref) { t = a[0] + b[0]; }
array a 1
array b 1
reference t
dispose b
dispose a
schedule h both(a, b, t)
",
        status: 1,
        output: "refused 7: disposed a\n",
    },
    Row {
        name: "disposal_waits_for_users",
        script: "job bump(a: rw array) { a[0] = a[0] + 1; }
array a 1
schedule h bump(a)
dispose a
combine g
dispose a after g as d
complete d
print a
complete h
dispose a after h as d
print a
",
        status: 1,
        output: "refused 4: pending job 1 on a
refused 6: pending job 1 on a
refused 8: pending job 1 on a
refused 11: disposed a
",
    },
];
