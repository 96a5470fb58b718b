//! Batches: how a job's indexes are cut into pieces.

use crate::sets::number;
use batch_cut::cut;
use job_base::limits::MOST_INDEXES;
use row_texts::{row, same, table};
use std::alloc::Global;
use std::test::Fail;

// The length and the batch; the length and the step, how many pieces there are, and start and length of the last one.
const CUTS: &str = "
0 1 | 0 1 1 0 0
0 1048576 | 0 1048576 1 0 0
0 4 | 0 4 1 0 0
1 1 | 1 1 1 0 1
3 64 | 3 64 1 0 3
4 2 | 4 2 2 2 2
5 2 | 5 2 3 4 1
10 4 | 10 4 3 8 2
64 1 | 64 1 64 63 1
65 1 | 65 2 33 64 1
100 7 | 100 7 15 98 2
100 100 | 100 100 1 0 100
1000 1 | 1000 16 63 992 8
1000 32 | 1000 32 32 992 8
4096 64 | 4096 64 64 4032 64
1048576 1 | 1048576 16384 64 1032192 16384
1048575 1 | 1048575 16384 64 1032192 16383
";

// How so many indexes are cut.
fn cut_of(alloc: Global, n: u32, batch: u32) -> Result<String, Fail> {
    if n > MOST_INDEXES || batch == 0 || batch > MOST_INDEXES {
        return Err(Fail::new("no such cut"));
    }
    let made = cut(n, batch);
    let pieces = made.count();
    let last = made.range(pieces - 1);
    Ok(format!(in alloc;
        "{} {} {} {} {}",
        made.n, made.step, pieces, last.start, last.len
    )?)
}

#[test]
fn cuts(rt: HostRuntime) -> Result<(), Fail> {
    for line in table(CUTS)?.lines() {
        if let Some((of, wanted)) = row(line)? {
            let (n, batch) = of.split_once(' ').ok_or("no batch")?;
            let told = cut_of(rt.alloc(), number(n)?, number(batch)?)?;
            same(line, &told, wanted)?;
        }
    }
    Ok(())
}
