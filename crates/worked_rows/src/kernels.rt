// Made by tools/rows/write of rows/tables and of the files in rows that it names: change those.

use crate::Row;

/// What kernels compute, and where they trap: all traps are counted, and the first one is told.
pub const KERNELS: &[Row] = &[
    Row {
        name: "both_branches",
        script: "job cap(x: rw array, n: int) { for k in 0..len(x) { if x[k] > n { x[k] = n; \
            } else { x[k] = x[k] - 1; } } }
array x 3 = 1 5 9
schedule h cap(x, 5)
complete h
print x
",
        status: 0,
        output: "x = [0, 4, 5]\n",
    },
    Row {
        name: "quotients_truncate",
        script: "job signs(a: wo array) { a[0] = -7 / 2; a[1] = -7 % 2; a[2] = 7 / -2; a[3] = 7 % -2; }
array a 4
schedule h signs(a)
complete h
print a
",
        status: 0,
        output: "a = [-3, -1, -3, 1]\n",
    },
    Row {
        name: "right_side_only_where_needed",
        script: "job logic(a: wo array) { a[0] = !0; a[1] = !5; a[2] = 3 && 4; a[3] = 0 && 1 / 0; a[4] = 0 || 6; \
            a[5] = 2 || 1 / 0; a[6] = 1 && 1 / 0; }
array a 7
schedule h logic(a)
complete h
print a
",
        status: 5,
        output: "a = [1, 0, 1, 0, 1, 1, 0]\ntrap job 1 index 0: zero-divisor\ntraps 1\n",
    },
    Row {
        name: "lists_and_maps_in_a_job",
        script: "job edit(l: rw list, m: rw map, t: wo ref) { var r = 0; remove(l, 0); r = remove(m, 1); \
            if has(m, 2) { m[2] = m[2] + r; } t = len(l); clear(l); }
list l 3
add l 4
add l 5
map m 2
add m 1 7
add m 2 8
reference t
schedule h edit(l, m, t)
complete h
print l
print m
print t
",
        status: 0,
        output: "l = []\nm = {2: 9}\nt = 1\n",
    },
    Row {
        name: "stream_that_is_read",
        script: "parallel emit(s: wo stream) { begin s[index] { for k in 0..index % 4 { write(s, index); } } }
job lookup(s: ro stream, t: wo ref) { t = count(s, 2) * 10 + at(s, 3, 1); }
stream s 4 3
reference t
schedule g emit(s) 4 1
schedule h lookup(s, t) after g
complete h
print t
",
        status: 0,
        output: "t = 23\n",
    },
    Row {
        name: "no_index",
        script: "parallel scale(x: ro array, y: wo array) { y[index] = x[index] * 3; }
job total(y: ro array, t: wo ref) { var s = 0; for k in 0..len(y) { s = s + y[k]; } t = s; }
array x 0
array y 4 = 1 1 1 1
reference t
schedule h1 scale(x, y) 0 4
schedule h2 total(y, t) after h1
complete h2
print t
",
        status: 0,
        output: "t = 4\n",
    },
    Row {
        name: "index_past_the_end",
        script: "parallel scale(x: ro array, y: wo array) { y[index] = x[index] * 3; }
array x 5 = 1 2 3 4 5
array y 4
schedule h scale(x, y) 5 2
complete h
print y
",
        status: 5,
        output: "y = [3, 6, 9, 12]\ntrap job 1 index 4: range\ntraps 1\n",
    },
    Row {
        name: "index_owns_its_place",
        script: "parallel shift(b: rw array) { b[index + 1] = b[index] + 1; }
array b 4 = 1 0 0 0
schedule h shift(b) 3 64
complete h
print b
",
        status: 5,
        output: "b = [1, 0, 0, 0]\ntrap job 1 index 0: own-index\ntraps 3\n",
    },
    Row {
        name: "waived_index_rule",
        script: "parallel shift(b: rw array) { b[index + 1] = b[index] + 1; }
array b 4 = 1 0 0 0
schedule h shift(b) 3 64 waive b
complete h
print b
",
        status: 0,
        output: "b = [1, 2, 3, 4]\n",
    },
    Row {
        name: "index_owns_its_items",
        script: "parallel cross(s: wo stream) { begin s[0] { } }
stream s 2 1
schedule h cross(s) 2 1
complete h
print s
",
        status: 5,
        output: "s = [[], []]\ntrap job 1 index 1: own-index\ntraps 1\n",
    },
    Row {
        name: "items_by_index",
        script: "parallel emit(s: wo stream) { begin s[index] { for k in 0..index % 4 { write(s, index); } } }
stream s 4 2
schedule h emit(s) 4 1
complete h
print s
",
        status: 5,
        output: "s = [[], [1], [2, 2], [3, 3]]\ntrap job 1 index 3: full\ntraps 1\n",
    },
    Row {
        name: "index_begun_twice",
        script: "job twice(s: wo stream) { begin s[0] { write(s, 5); } begin s[2] { } begin s[0] { } }
stream s 3 1
schedule h twice(s)
complete h
print s
",
        status: 5,
        output: "s = [[5], [], []]\ntrap job 1 index 0: written\ntraps 1\n",
    },
    Row {
        name: "keys_of_a_map",
        script: "job keys(m: rw map, t: wo ref) { var r = 0; r = try_add(m, 1, 9); t = r; add(m, 3, 3); }
map m 2
add m 1 5
add m 2 6
reference t = 7
schedule h keys(m, t)
complete h
print t
remove m 1
put m 3 8
remove m 1
add m 2 0
print m
put m 4 4
",
        status: 5,
        output: "t = 0
refused 11: missing key
refused 12: present key
m = {2: 6, 3: 8}
refused 14: full
trap job 1 index 0: full
traps 1
",
    },
    Row {
        name: "present_key",
        script: "job again(m: rw map) { add(m, 1, 5); add(m, 1, 6); }
map m 2
schedule h again(m)
complete h
print m
",
        status: 5,
        output: "m = {1: 5}\ntrap job 1 index 0: present-key\ntraps 1\n",
    },
    Row {
        name: "missing_key",
        script: "job missed(m: ro map, t: wo ref) { t = m[4]; }
map m 1
reference t
schedule h missed(m, t)
complete h
print t
",
        status: 5,
        output: "t = 0\ntrap job 1 index 0: missing-key\ntraps 1\n",
    },
    Row {
        name: "stores_before_an_overflow",
        script: "job edge(a: rw array) { a[1] = 5; a[0] = a[0] + 1; a[2] = 9; }
array a 3 = 9223372036854775807 -9223372036854775808 0
schedule h edge(a)
complete h
print a
",
        status: 5,
        output: "a = [9223372036854775807, 5, 0]\ntrap job 1 index 0: overflow\ntraps 1\n",
    },
    Row {
        name: "traps_of_two_jobs",
        script: "job quick(a: rw array) { a[9] = 1; }
job slow(a: rw array) { var k = 0; while k < 30 { k = k + 1; } a[0] = 1 / 0; }
array a 1
array b 1
schedule h1 slow(a)
schedule h2 quick(b)
",
        status: 5,
        output: "trap job 1 index 0: zero-divisor\ntraps 2\n",
    },
    Row {
        name: "traps_in_script_order",
        script: "job quick(a: rw array) { a[9] = 1; }
job slow(a: rw array) { var k = 0; while k < 300000 { k = k + 1; } a[0] = 1 / 0; }
array a 1
array b 1
schedule h1 slow(a)
schedule h2 quick(b)
",
        status: 5,
        output: "trap job 1 index 0: zero-divisor\ntraps 2\n",
    },
];
