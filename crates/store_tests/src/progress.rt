//! A long output prints its progress, which doesn't change the output.

use super::clients::LimitedWriter;
use desk::ProgressSink;
use std::test::Fail;
use streams::{Counted, Sink, put_all};

/// The number of lines in the output.
const LINES: u32 = 250;

#[test]
fn the_progress_of_a_long_output_is_told(rt: HostRuntime) -> Result<(), Fail> {
    let mut lines = String::new(rt.alloc());
    for line in 1..=LINES {
        writeln!(lines, "candidate {line} of ward 7 added")?;
    }
    let mut out = LimitedWriter::new(rt.alloc(), usize::MAX);
    let mut told = LimitedWriter::new(rt.alloc(), usize::MAX);
    {
        let mut out = Counted::new(&mut out);
        let mut watched = ProgressSink::new(&mut out, &mut told);
        if put_all(&mut watched, lines.as_bytes()).is_err() {
            return Err(Fail::from("an output broke"));
        }
        assert_eq!(rt; watched.failures(), 0);
    }
    assert_eq!(rt; out.text()?.as_str(), lines.as_str());
    assert_eq!(rt;
        told.text()?.as_str(),
        "100 records done\n200 records done\n"
    );
    Ok(())
}
