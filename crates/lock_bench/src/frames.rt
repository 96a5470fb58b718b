//! The texts of the frames, and what each writes. The numbers were worked out by another program, in another language.

use std::alloc::Global;
use std::fmt::Write;
use std::test::Fail;

/// A frame of some jobs.
#[derive(Drop)]
pub struct Frame {
    pub name: &'static str,
    pub text: String,
    pub output: &'static str,
}

// Five statements at each index.
const HEAVY: &str = "parallel fill(a: wo array) { a[index] = index * 17 % 1000003; }
parallel heavy(a: rw array, c: int) {
    var x = a[index];
    var y = (x * 31 + index * 7 + c) % 65521;
    if y % 2 == 0 { y = y / 2 + x % 13; } else { y = y * 3 + 1; }
    a[index] = (y * y + x * 5 - index) % 1000003;
}
array a 1048576
schedule h fill(a) 1048576 1
";

const CHAIN: &str = "job bump(a: rw array) { a[0] = a[0] + 1; }
array a 1
combine h
repeat 4096 {
schedule h bump(a) after h
}
complete h
print a
";

fn push_heavy_jobs(text: &mut String) -> Result<(), Fail> {
    for c in 0..8 {
        write!(text, "schedule h heavy(a, {c}) 1048576 1 after h\n")?;
    }
    Ok(())
}

fn push_arrays(text: &mut String) -> Result<(), Fail> {
    for i in 0..16 {
        write!(text, "array a{i} 64\ncombine h{i}\n")?;
    }
    Ok(())
}

fn push_jobs(text: &mut String) -> Result<(), Fail> {
    for i in 0..16 {
        write!(text, "schedule h{i} one(a{i}) 64 1 after h{i}\n")?;
    }
    Ok(())
}

fn push_handles(text: &mut String) -> Result<(), Fail> {
    for i in 0..16 {
        write!(text, " h{i}")?;
    }
    Ok(())
}

/// Eight jobs one after another, each over the same million elements, in 64 pieces.
pub fn heavy(alloc: Global) -> Result<Frame, Fail> {
    let mut text = String::from_str(alloc, HEAVY)?;
    push_heavy_jobs(&mut text)?;
    text.push_str("complete h\nslice last a 1048572 4\nprint last\n")?;
    Ok(Frame {
        name: "heavy",
        text,
        output: "last = [224404, 474708, 951487, 943590]\n",
    })
}

/// 4,096 single jobs one after another.
pub fn chain(alloc: Global) -> Result<Frame, Fail> {
    Ok(Frame {
        name: "chain",
        text: String::from_str(alloc, CHAIN)?,
        output: "a = [4096]\n",
    })
}

/// 4,096 jobs of 64 pieces, as 16 chains side by side: 262,144 pieces.
pub fn pieces(alloc: Global) -> Result<Frame, Fail> {
    let mut text = String::from_str(
        alloc,
        "parallel one(a: rw array) { a[index] = a[index] + index; }\n",
    )?;
    push_arrays(&mut text)?;
    text.push_str("repeat 256 {\n")?;
    push_jobs(&mut text)?;
    text.push_str("}\ncombine h")?;
    push_handles(&mut text)?;
    text.push_str("\ncomplete h\nslice last a7 62 2\nprint last\n")?;
    Ok(Frame {
        name: "pieces",
        text,
        output: "last = [15872, 16128]\n",
    })
}
