// The adapters of system_edge, on real files, on standard output and standard error, and on a writer in memory.
ghost use Rattle.std.specs.Prelude.{◌<◌, length};

use job_base::{FileFault, Files, Sink, SinkFault};
use std::alloc::Global;
use std::io::Write;
use std::test::Fail;
use std::{fs, io};
use system_edge::{DiskFiles, WriterSink};

// A file of so many bytes, of which a read has all where that many are allowed, and none where one fewer is.
fn is_read_whole(files: &mut impl Files, alloc: Global, name: &str, bytes: &[u8]) -> bool
    requires { 0 < length bytes.now }
{
    let len = bytes.len() as u64;
    let within = match files.read(alloc, name, len) {
        Ok(whole) => whole.as_slice() == bytes,
        Err(_) => false,
    };
    let shorter = match files.read(alloc, name, len - 1) {
        Ok(_) => false,
        Err(fault) => fault == FileFault::TooLong,
    };
    within && shorter
}

// The second file has more bytes than one part has.
#[test]
fn files_of_the_disk(rt: HostRuntime) -> Result<(), Fail> {
    let alloc = rt.alloc();
    let long = vec![in alloc; b'x'; 10_000]?;
    fs::write(&rt, "probe", "twelve bytes")?;
    fs::write(&rt, "long", long.as_slice())?;
    let mut files = DiskFiles::new(&rt);
    assert!(rt; is_read_whole(&mut files, alloc, "probe", b"twelve bytes"));
    assert!(rt; is_read_whole(&mut files, alloc, "long", &long));
    assert!(rt; matches!(files.read(alloc, "nothing", 12), Err(FileFault::Failed)));
    fs::remove_file(&rt, "probe")?;
    fs::remove_file(&rt, "long")?;
    Ok(())
}

// A writer that takes two bytes at a time, and five in all.
#[derive(Drop)]
struct Narrow {
    taken: Vec<u8>,
}

impl Write for Narrow {
    fn write(&mut self, buf: &[u8]) -> io::Result<usize> {
        let count = buf
            .len()
            .min(2)
            .min(5usize.saturating_sub(self.taken.len()));
        self.taken.extend_from_slice(&buf[..count])?;
        Ok(count)
    }

    fn flush(&mut self) -> io::Result<()> {
        Ok(())
    }
}

#[test]
fn a_writer_that_takes_little(rt: HostRuntime) {
    let mut sink = WriterSink::new(Narrow {
        taken: Vec::new(rt.alloc()),
    });
    let first = sink.write(b"abc");
    let second = sink.write(b"c");
    let third = sink.write(b"de");
    let last = sink.write(b"f");
    assert!(rt; first == Ok(2) && second == Ok(1) && third == Ok(2) && last == Err(SinkFault));
}

#[test]
fn the_systems_writers(rt: HostRuntime) {
    let mut output = WriterSink::new(io::writer(&rt));
    assert!(rt; output.write(b"taken\n") == Ok(6));
    let mut errors = WriterSink::new(rt.stderr());
    assert!(rt; errors.write(b"taken\n") == Ok(6));
}
