//! Lines of a source.

ghost use Rattle.std.specs.Prelude.{◌<◌};

use line_input::{LineReader, Next};
use office_io::MemorySource;
use std::alloc::Global;
use std::process::Abort;

// Lines come as they are, however the reads cut them.
#[test]
fn reads_lines_of_any_pieces(rt: HostRuntime) {
    for most in 1..9 {
        reads_lines_of(&rt, rt.alloc(), most);
    }
}

fn reads_lines_of(rt: &impl Abort, alloc: Global, most: usize)
    requires { 0 < most }
{
    let text = b"ab\n\nc\r\nde".to_vec(alloc).expect(rt, "memory");
    let mut source = MemorySource::new(text, Vec::new(alloc), most);
    let mut reader = LineReader::new(alloc).expect(rt, "memory");
    assert!(rt; comes(&mut reader, &mut source, Next::Line, b"ab"));
    assert!(rt; comes(&mut reader, &mut source, Next::Line, b""));
    assert!(rt; comes(&mut reader, &mut source, Next::Line, b"c\r"));
    assert!(rt; comes(&mut reader, &mut source, Next::Last, b"de"));
    assert!(rt; reader.next(&mut source, 2) == Next::End);
}

fn comes(reader: &mut LineReader, source: &mut MemorySource, next: Next, line: &[u8]) -> bool {
    reader.next(source, 2) == next && reader.line() == line
}
