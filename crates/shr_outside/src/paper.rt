// SPDX-License-Identifier: GPL-2.0-only
//! Printing to a sink by the page.

ghost use Rattle.std.specs.Prelude.{◌≡◌, [], false, List, ℕ};
ghost use Rattle.shr_outside.specs.Paper.{Prints, IsLeft, Ends, PrintsTo, Sends};

use crate::outside::Sink;
use crate::page::Page;
use crate::writing::write_all;

/// A sink, and the bytes that it has not got yet: text is put on a page, and the sink gets it a page
/// at a time. It takes no memory, and a sink that has failed once gets nothing more: the bytes that
/// are put there later are gone, and `finish` tells it.
#[derive(Drop)]
pub struct Paper<'a, K> {
    sink: &'a mut K,
    page: Page,
    failed: bool,
}

// Hands a sink these bytes, if it has not failed, and answers whether it has by now.
fn send<K: Sink>(sink: &mut K, failed: bool, bytes: &[u8]) -> bool
    ensures sent { Sends (K.written sink.old) (K.written sink.new) (K.faults sink.old)
        (K.faults sink.new) bytes.now failed result }
{
    if failed {
        return true;
    }
    !write_all(sink, bytes)
}

impl<'a, K: Sink> Paper<'a, K> {
    /// Nothing is put there yet.
    #[tactic(auto, unfolding(crate::specs::Paper::IsLeft))]
    pub fn new(sink: &'a mut K) -> Paper<'a, K>
        ensures same { result.sink.ghost_name ≡ sink.entry.ghost_name }
        ensures now { result.sink.now ≡ sink.old }
        ensures left { (text : List ℕ) → IsLeft K.written K.faults (record {
          written = K.written sink.old;
          faults = K.faults sink.old;
          text = text;
        }) text result }
    {
        Paper {
            sink,
            page: Page::new(),
            failed: false,
        }
    }

    // Hands the sink what it has not got yet.
    #[tactic(auto, unfolding(crate::specs::Paper::IsLeft))]
    fn flush(&mut self)
        ensures kept { PrintsTo K.written K.faults self.old self.new [] [] }
        ensures empty { self.new.page ≡ [] }
    {
        self.failed = send(self.sink, self.failed, self.page.bytes());
        self.page.clear();
    }

    /// Puts bytes there.
    #[tactic(auto, unfolding(crate::specs::Paper::IsLeft))]
    pub fn put(&mut self, bytes: &[u8])
        ensures { Prints K.written K.faults self.old self.new bytes.now }
    {
        if !self.page.put(bytes) {
            self.put_apart(bytes);
        }
    }

    // Puts bytes on an empty page, or hands them to the sink where they are more than a page.
    #[tactic(auto, unfolding(crate::specs::Paper::IsLeft))]
    #[inline(never)]
    fn put_apart(&mut self, bytes: &[u8])
        ensures { Prints K.written K.faults self.old self.new bytes.now }
    {
        self.flush();
        if !self.page.put(bytes) {
            self.failed = send(self.sink, self.failed, bytes);
        }
    }

    /// Hands the sink what it has not got yet, and tells whether it has got all that was put there.
    pub fn finish(&mut self) -> bool
        ensures same { self.new.sink.ghost_name ≡ self.old.sink.ghost_name }
        ensures ends { Ends K.written K.faults self.old self.new.sink.now result }
    {
        self.flush();
        !self.failed
    }
}
