// SPDX-License-Identifier: GPL-2.0-only
//! The real source and sink, and those in memory, at known values.

use shr_outside::outside::{Gave, Sink, Source, Took};
use shr_outside::paper::Paper;
use shr_outside::sinks::{HonestSink, MemorySink, StdSink};
use shr_outside::sources::{HonestSource, MemorySource, StdSource};
use std::alloc::Global;
use std::io::Cursor;
use std::test::Fail;

#[test]
fn a_reader_is_read_to_its_end(rt: HostRuntime) -> Result<(), Fail> {
    let mut source = StdSource::new(Cursor::new(b"abc".as_slice()));
    let mut buffer = [0u8; 2];
    assert_eq!(rt; source.take(&mut buffer), Took::Got { n: 2 });
    assert_eq!(rt; buffer.as_slice(), b"ab".as_slice());
    assert_eq!(rt; source.take(&mut buffer), Took::Got { n: 1 });
    assert_eq!(rt; source.take(&mut buffer), Took::End);
    Ok(())
}

#[test]
fn a_writer_takes_what_it_is_given(rt: HostRuntime) -> Result<(), Fail> {
    let mut sink = StdSink::new(Vec::new(rt.alloc()));
    assert_eq!(rt; sink.give(b"abc"), Gave::Gave { n: 3 });
    assert_eq!(rt; sink.give(b""), Gave::Gave { n: 0 });
    Ok(())
}

fn take_four<S: Source>(source: &mut S) -> [Took; 4] {
    let mut buffer = [0u8; 4];
    [
        source.take(&mut buffer),
        source.take(&mut buffer),
        source.take(&mut buffer),
        source.take(&mut buffer),
    ]
}

fn give_two<K: Sink>(sink: &mut K) -> [Gave; 2] {
    [sink.give(b"abc"), sink.give(b"abc")]
}

// What a source in memory gives that fails at its second call, and what an honest one does.
fn takes(alloc: Global) -> Result<([Took; 4], [Took; 4]), Fail> {
    let second = vec![in alloc; 2]?;
    let bytes = Vec::from_slice(alloc, b"abc")?;
    let mut honest = HonestSource::new(Vec::from_slice(alloc, b"abc")?, 1);
    let mut source = MemorySource::new(bytes, 2, second);
    Ok((take_four(&mut source), take_four(&mut honest)))
}

#[test]
fn sources_in_memory_give_pieces_and_fail(rt: HostRuntime) -> Result<(), Fail> {
    let (failing, honest) = takes(rt.alloc())?;
    let (one, two) = (Took::Got { n: 1 }, Took::Got { n: 2 });
    assert_eq!(rt; failing, [two, Took::Failed, one, Took::End]);
    assert_eq!(rt; honest, [one, one, one, Took::End]);
    Ok(())
}

// What a sink in memory takes that fails at its first call, and whether it has this then.
fn gives(alloc: Global, text: &[u8]) -> Result<([Gave; 2], bool), Fail> {
    let first = vec![in alloc; 1]?;
    let mut sink = MemorySink::new(Vec::new(alloc), 2, first);
    let gives = give_two(&mut sink);
    Ok((gives, sink.bytes() == text))
}

#[test]
fn sinks_in_memory_take_pieces_and_fail(rt: HostRuntime) -> Result<(), Fail> {
    let two = Gave::Gave { n: 2 };
    let gives = gives(rt.alloc(), b"ab")?;
    assert_eq!(rt; gives, ([Gave::Failed, two], true));
    assert_eq!(rt; give_two(&mut HonestSink::new(2)), [two, two]);
    Ok(())
}

// Prints two parts that fill a page and more, and one that is longer than a page.
fn print_parts(sink: &mut MemorySink) -> bool {
    let mut paper = Paper::new(sink);
    paper.put(&[b'a'; 10_000]);
    paper.put(&[b'b'; 10_000]);
    paper.put(&[b'c'; 20_000]);
    paper.finish()
}

// Where the parts begin and end.
const LETTERS: [(usize, u8); 6] = [
    (0, b'a'),
    (9_999, b'a'),
    (10_000, b'b'),
    (19_999, b'b'),
    (20_000, b'c'),
    (39_999, b'c'),
];

// Whether the parts are printed whole over a sink that fails at these calls, how many bytes it has
// then, and whether these letters stand where they must.
fn printed(alloc: Global, failing: Vec<usize>) -> (bool, usize, bool) {
    let mut sink = MemorySink::new(Vec::new(alloc), 7_000, failing);
    let is_whole = print_parts(&mut sink);
    let bytes = sink.bytes();
    let mut letters = LETTERS.iter();
    let are_there = letters.all(|(at, letter)| bytes.get(*at).is_none_or(|byte| byte == letter));
    (is_whole, bytes.len(), are_there)
}

#[test]
fn a_text_is_handed_on_by_the_page(rt: HostRuntime) -> Result<(), Fail> {
    let whole = printed(rt.alloc(), Vec::new(rt.alloc()));
    assert_eq!(rt; whole, (true, 40_000, true));
    let second = vec![in rt.alloc(); 2]?;
    let failing = printed(rt.alloc(), second);
    assert_eq!(rt; failing, (false, 7_000, true));
    Ok(())
}
