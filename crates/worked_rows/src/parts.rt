// Made by tools/rows/write of rows/tables and of the files in rows that it names: change those.

use crate::Row;

/// Slices, views and copies of containers, and what lists hold.
pub const PARTS: &[Row] = &[
    Row {
        name: "array_given_twice",
        script: "job triple(x: ro array, y: wo array) { for k in 0..len(x) { y[k] = x[k] * 3; } }
array x 1
schedule h triple(x, x)
",
        status: 1,
        output: "refused 3: alias x\n",
    },
    Row {
        name: "slice_beside_its_array",
        script: "job both(a: ro array, b: ro array, t: wo ref) { t = a[0] + b[0]; }
job pair(a: ro array, b: rw array) { b[0] = a[0]; }
array a 2 = 1 2
slice v a 0 1
reference t
schedule h pair(a, v)
schedule h both(a, v, t)
complete h
print t
",
        status: 1,
        output: "refused 6: alias v\nt = 2\n",
    },
    Row {
        name: "slices_of_one_array",
        script: "job bump(a: rw array) { a[0] = a[0] + 1; }
array a 4 = 1 2 3 4
slice v a 0 2
slice w a 2 2
schedule h1 bump(v)
schedule h2 bump(w)
schedule h2 bump(w) after h1
complete h2
print a
",
        status: 1,
        output: "refused 6: pending job 1 on w\na = [2, 2, 4, 4]\n",
    },
    Row {
        name: "slice_of_a_slice",
        script: "array a 4 = 1 2 3 4
slice v a 1 3
slice w v 1 2
set w 1 = 9
print a
slice u w 0 3
print u
",
        status: 1,
        output: "a = [1, 2, 3, 9]\nrefused 6: range\nrefused 7: disposed u\n",
    },
    Row {
        name: "copy_of_a_disposed_array",
        script: "array a 2 = 1 2
copy b a
dispose a
array c 2 = 3 4
print b
print c
",
        status: 1,
        output: "refused 5: disposed b\nc = [3, 4]\n",
    },
    Row {
        name: "name_made_again",
        script: "array a 1 = 1
copy b a
array a 1 = 2
print a
print b
",
        status: 0,
        output: "a = [2]\nb = [1]\n",
    },
    Row {
        name: "reference_that_is_set",
        script: "reference t = 3
set t = 5
print t
",
        status: 0,
        output: "t = 5\n",
    },
    Row {
        name: "set_past_the_end",
        script: "array a 2
set a 2 = 1
list l 2
add l 1
set l 1 = 5
set l 0 = 6
print l
",
        status: 1,
        output: "refused 2: range\nrefused 5: range\nl = [6]\n",
    },
    Row {
        name: "added_item_breaks_views",
        script: "list l 3
add l 5
view v l
add l 6
print v
view v l
print v
",
        status: 1,
        output: "refused 5: stale view v\nv = [5, 6]\n",
    },
    Row {
        name: "full_list_breaks_views",
        script: "list l 1
add l 1
view v l
add l 2
print v
print l
",
        status: 1,
        output: "refused 4: full\nrefused 5: stale view v\nl = [1]\n",
    },
    Row {
        name: "small_capacity_breaks_views",
        script: "list l 1
view v l
setcapacity l 0
print v
",
        status: 1,
        output: "refused 3: range\nrefused 4: stale view v\n",
    },
    Row {
        name: "full_store_breaks_no_view",
        script: "list l 1
list k 1048570
view v l
setcapacity l 5
print v
",
        status: 1,
        output: "refused 4: store full\nv = []\n",
    },
    Row {
        name: "job_breaks_views",
        script: "job grow(l: rw list) { add(l, 7); add(l, 8); }
list l 2
view v l
schedule h grow(l)
complete h
print v
print l
",
        status: 1,
        output: "refused 6: stale view v\nl = [7, 8]\n",
    },
    Row {
        name: "view_is_written_through",
        script: "list l 3
add l 1
view v l
set v 0 = 4
print v
print l
",
        status: 0,
        output: "v = [4]\nl = [4]\n",
    },
    Row {
        name: "cleared_list",
        script: "list l 2
add l 1
view v l
clear l
print v
print l
add l 7
print l
",
        status: 1,
        output: "refused 5: stale view v\nl = []\nl = [7]\n",
    },
    Row {
        name: "capacity_of_a_list",
        script: "list l 1
add l 4
add l 5
setcapacity l 2
add l 5
remove l 0
remove l 1
print l
setcapacity l 1
",
        status: 1,
        output: "refused 3: full\nrefused 7: range\nl = [5]\nrefused 9: range\n",
    },
    Row {
        name: "list_written_in_parallel",
        script: "parallel push(l: rw list) { add(l, index); }
list l 4
schedule h push(l) 4 1
print l
",
        status: 1,
        output: "refused 3: not parallel l\nl = []\n",
    },
];
