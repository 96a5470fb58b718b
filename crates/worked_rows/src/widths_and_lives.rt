// Made by tools/rows/write of rows/tables and of the files in rows that it names: change those.

use crate::Row;

/// Parts that an index owns, jobs as long as a list, containers of a frame, and full stores.
pub const WIDTHS_AND_LIVES: &[Row] = &[
    Row {
        name: "empty_script",
        script: "",
        status: 0,
        output: "",
    },
    Row {
        name: "repeat_is_written_out",
        script: "job bump(a: rw array) { a[0] = a[0] + 1; }
array a 1 = 1
repeat 3 {
schedule h bump(a)
complete h
}
print a
",
        status: 0,
        output: "a = [4]\n",
    },
    Row {
        name: "two_places_for_each_index",
        script: "parallel pairs(a: rw array by 2) { a[index * 2] = index; a[index * 2 + 1] = index + 10; }
array a 6
schedule h pairs(a) 3 1
complete h
print a
",
        status: 0,
        output: "a = [0, 10, 1, 11, 2, 12]\n",
    },
    Row {
        name: "past_the_two_places",
        script: "parallel over(a: wo array by 2) { a[index * 2] = 7; a[index * 2 + 2] = 8; }
array a 6
schedule h over(a) 3 64
complete h
print a
",
        status: 5,
        output: "a = [7, 0, 7, 0, 7, 0]\ntrap job 1 index 0: own-index\ntraps 3\n",
    },
    Row {
        name: "length_of_a_list",
        script: "parallel scale(x: ro array, y: wo array) { y[index] = x[index] * 3; }
list l 4
add l 2
add l 5
array y 4 = 1 1 1 1
schedule h scale(l, y) defer l 1
complete h
print y
",
        status: 0,
        output: "y = [6, 15, 1, 1]\n",
    },
    Row {
        name: "length_after_an_earlier_job",
        script: "job grow(l: rw list) { add(l, 7); add(l, 8); }
parallel scale(x: ro array, y: wo array) { y[index] = x[index] * 3; }
list l 3
schedule g grow(l)
array y 3
schedule h scale(l, y) defer l 64 after g
add l 1
complete h
print y
",
        status: 1,
        output: "refused 7: pending job 2 on l\ny = [21, 24, 0]\n",
    },
    Row {
        name: "list_as_the_array_of_its_length",
        script: "parallel mark(b: rw array) { b[index] = index; }
list l 4
add l 5
add l 5
view v l
schedule h mark(l) defer l 2
complete h
print v
print l
",
        status: 0,
        output: "v = [0, 1]\nl = [0, 1]\n",
    },
    Row {
        name: "view_of_the_list_of_its_length",
        script: "parallel mark(b: rw array) { b[index] = index; }
list l 4
add l 5
view v l
schedule h mark(v) defer l 2
",
        status: 1,
        output: "refused 5: alias l\n",
    },
    Row {
        name: "temp_ends_with_its_frame",
        script: "job bump(a: rw array) { a[0] = a[0] + 1; }
array a 2 temp = 1 2
print a
schedule h bump(a)
frame
print a
array b 2
print b
",
        status: 1,
        output: "a = [1, 2]\nrefused 4: temp a\nrefused 6: disposed a\nb = [0, 0]\n",
    },
    Row {
        name: "tempjob_is_overdue",
        script: "job bump(a: rw array) { a[0] = a[0] + 1; }
array a 1 tempjob
schedule h bump(a)
frame
frame
frame
frame
complete h
print a
dispose a
frame
",
        status: 0,
        output: "overdue 7: a made on line 2\na = [1]\n",
    },
    Row {
        name: "words_reused_after_the_reader",
        script: "job peek(a: ro array, t: wo ref) { t = a[0]; }
array a 2 = 1 2
reference t
schedule h peek(a, t)
dispose a after h as d
array b 2 = 8 9
complete d
array c 2
print t
print b
",
        status: 0,
        output: "t = 1\nb = [8, 9]\n",
    },
    Row {
        name: "full_store",
        script: "list a 1048575
array b 1
print b
dispose a
array b 1
print b
",
        status: 1,
        output: "refused 2: store full\nrefused 3: disposed b\nb = [0]\n",
    },
    Row {
        name: "full_store_before_range",
        script: "list l 9
list k 1048564
setcapacity l 5
setcapacity l 0
",
        status: 1,
        output: "refused 3: store full\nrefused 4: range\n",
    },
    Row {
        name: "array_past_the_store",
        script: "array a 1048576
array b 1
print b
",
        status: 1,
        output: "refused 2: store full\nrefused 3: disposed b\n",
    },
    Row {
        name: "words_of_a_disposed_array",
        script: "array a 1048576
array b 1
print b
dispose a
array b 1
print b
",
        status: 1,
        output: "refused 2: store full\nrefused 3: disposed b\nb = [0]\n",
    },
    Row {
        name: "words_held_by_a_job",
        script: "job grow(l: rw list) { add(l, 7); add(l, 8); }
list a 1048575
schedule h grow(a)
dispose a after h as d
array b 1
complete d
array b 1
print b
",
        status: 1,
        output: "refused 5: store full\nb = [0]\n",
    },
];
