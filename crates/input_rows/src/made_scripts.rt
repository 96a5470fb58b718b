// The script of number 1 with one mix, line by line, and the size of the largest.
use job_base::limits::{MOST_GENERATED_JOBS, MOST_SEED};
use script_gen::gen_script;
use std::test::Fail;

// As the rules of the generator give them by hand: arrays 6 and 3, factor 7, batch 108.
const SCRIPT: &str = "\
parallel start(y: wo array, c: int) { y[index] = (index * 7 + c) % 1000000; }
parallel mix(x: ro array, y: rw array, c: int) { y[index] = (y[index] + x[index] * c) % 1000000; }
job fold(x: ro array, t: rw ref) { var s = t; for k in 0..len(x) { s = (s + x[k]) % 1000000; } t = s; }
array a0 1024
schedule w0 start(a0, 0) 1024 64
combine u0 w0
array a1 1024
schedule w1 start(a1, 1) 1024 64
combine u1 w1
array a2 1024
schedule w2 start(a2, 2) 1024 64
combine u2 w2
array a3 1024
schedule w3 start(a3, 3) 1024 64
combine u3 w3
array a4 1024
schedule w4 start(a4, 4) 1024 64
combine u4 w4
array a5 1024
schedule w5 start(a5, 5) 1024 64
combine u5 w5
array a6 1024
schedule w6 start(a6, 6) 1024 64
combine u6 w6
array a7 1024
schedule w7 start(a7, 7) 1024 64
combine u7 w7
reference t
combine g
schedule h mix(a6, a3, 7) 1024 108 after w6 u3
combine u6 u6 h
combine w3 h
combine u3 h
schedule g fold(a0, t) after w0 g
schedule g fold(a1, t) after w1 g
schedule g fold(a2, t) after w2 g
schedule g fold(a3, t) after w3 g
schedule g fold(a4, t) after w4 g
schedule g fold(a5, t) after w5 g
schedule g fold(a6, t) after w6 g
schedule g fold(a7, t) after w7 g
complete g
print t
";

#[test]
fn number_one_with_one_mix(rt: HostRuntime) -> Result<(), Fail> {
    let text = gen_script(rt.alloc(), 1, 1)?;
    assert!(rt; text.as_slice() == SCRIPT.as_bytes());
    Ok(())
}

#[test]
fn the_most_mixes(rt: HostRuntime) -> Result<(), Fail> {
    let alloc = rt.alloc();
    let text = gen_script(alloc, MOST_SEED, MOST_GENERATED_JOBS)?;
    let lines = text.iter().filter(|b| **b == b'\n').count();
    assert!(rt; lines == 3 + 24 + 2 + 4 * 4_000 + 8 + 2);
    Ok(())
}
