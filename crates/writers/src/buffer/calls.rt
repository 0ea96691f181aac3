// The buffer as a writer.
ghost use Rattle.std.specs.Prelude.{◌≡◌, min, IfOk, refl};
ghost use Rattle.lir.specs.declared.fault.Part.TheVariants.{Buffer as buffer};
ghost use Rattle.writers.specs.Buffers.{buffers, viewed, empty};
ghost use Rattle.writers.specs.Buffering.{buffer_lawful};

use super::Buffer;
use crate::foot::new_handle;
use codes::kind::Kind;
use lir::bounds::Handle;
use lir::defined::gives;
use lir::fault::{Fault, Part};
use lir::instruction::Instruction;
use lir::names::HANDLES;
use protocol::writer::Writer;
use std::alloc::{AllocError, Global};
use std::marker::PhantomData;

impl<K: Kind> Buffer<K> {
    // An empty buffer of so many places, at most 1,024.
    pub fn new(heap: Global, places: u16) -> Result<Buffer<K>, AllocError>
        ensures made { IfOk result (λ b. viewed b ≡ empty (min places 1024)) }
        ensures sound { IfOk result (λ b. (buffers K.Kind.arithmetic).sound b) }
    {
        let places = places.min(HANDLES);
        let kept = Vec::with_capacity(heap, places as usize)?;
        Ok(Buffer {
            kind: PhantomData,
            kept,
            places,
            handles: 0,
            over: false,
        })
    }
}

impl<K: Kind> Writer for Buffer<K> {
    type Kind = K;

    const PART: Part = Part::Buffer;

    ghost PART = { buffer };

    ghost writes = { buffers K.Kind.arithmetic };

    ghost named = { refl };

    ghost lawful = { buffer_lawful K.Kind.arithmetic };

    fn has_ended(&self) -> bool {
        self.over
    }

    fn handles(&self) -> u16 {
        self.handles
    }

    fn taken(&self) -> u64 {
        self.kept.len() as u64
    }

    fn space(&self) -> u16 {
        self.places - self.kept.len() as u16
    }

    // Here and in `end` the feet differ in one line each, and a trait for them would name all these methods again.
    fn take(&mut self, i: Instruction<Handle>) -> Result<Option<Handle>, Fault> {
        self.admit_at_foot(&i)?;
        let h = new_handle(&i, self.handles);
        self.kept.push_reserved(i);
        self.handles += gives(&i);
        Ok(h)
    }

    fn end(&mut self) -> Result<(), Fault> {
        self.admit_end()?;
        self.over = true;
        Ok(())
    }
}
