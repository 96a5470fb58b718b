// Made by tools/rows/write of rows/tables and of the files in rows that it names: change those.

use crate::Row;

/// Blocks that what was computed decides. These scripts have a plan for each of their sections.
pub const BLOCKS: &[Row] = &[
    Row {
        name: "block_by_value",
        script: "job peek(a: ro array, t: wo ref) { t = a[0]; }
reference t
array a 1 = 6
schedule h peek(a, t)
complete h
when t > 3 {
set a 0 = 1
print a
}
when t < 3 {
print a
}
print t
",
        status: 0,
        output: "a = [1]\nt = 6\n",
    },
    Row {
        name: "name_of_a_passed_block",
        script: "reference t
when t == 1 {
array b 2
}
print b
",
        status: 1,
        output: "refused 5: disposed b\n",
    },
    Row {
        name: "comparisons_of_when",
        script: "reference t = 2
when t <= 2 {
print t
}
when t >= 3 {
print t
}
when t != 2 {
print t
}
when t == 2 {
print t
}
",
        status: 0,
        output: "t = 2\nt = 2\n",
    },
];
