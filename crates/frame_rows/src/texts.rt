// Worked scripts that several tests plan.

/// Two jobs in a row: the first has two pieces, which triple four elements, and the second adds them up.
pub const TOTAL: &str = "array x 4 = 1 2 3 4
array y 4
reference t
schedule h1 scale(x, y) 4 2
schedule h2 total(y, t) after h1
complete h2
print t
";

/// Three jobs, each of which is completed before the next one.
pub const BUMPS: &str = "array a 1 = 1
repeat 3 {
schedule h bump(a)
complete h
}
print a
";

/// Two jobs that nothing keeps apart.
pub const TWO_BUMPS: &str = "array a 1
array b 1
schedule h1 bump(a)
schedule h2 bump(b)
combine h h1 h2
complete h
print b
";

/// A column of a table, added up.
pub const ADDED_COLUMN: &str = "column p \"price\"
reference t
schedule h total(p, t)
complete h
print t
";
