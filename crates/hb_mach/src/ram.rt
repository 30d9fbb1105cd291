ghost use Rattle.std.specs.Prelude.{◌≡◌, ◌+◌, ◌<◌, ◌^◌, IfOk, if◌then◌else◌, Some, None};
ghost use Rattle.std.specs.Bool.{OnFalse};
ghost use Rattle.hb_asm.specs.Arithmetic.{load_size, store_size};
ghost use Rattle.hb_isa.specs.Memory.{zeroed, load, store, byte_at};

use crate::arithmetic::{bytes_loaded, bytes_stored};
use crate::region::Region;
use hb_asm::{LoadOp, StoreOp};
use hb_base::Memory;
use std::alloc::Global;
use std::marker::Model;

/// Where the areas start.
const AREAS_BASE: u32 = 0x2000_0000;

/// Where the stack region ends.
const STACK_END: u32 = 0x4000_0000;

/// The bytes of the stack region beside the stack: arguments, results and the words of the start code.
const BESIDE_STACK: u32 = 1024;

/// The bytes that loads and stores reach: the areas and the stack region.
#[derive(Debug, Drop)]
pub struct Ram {
    areas: Region,
    stack: Region,
}

impl Model for Ram {
    ghost use Rattle.hb_isa.specs.Memory as memory;

    ghost Value = { memory.Memory };

    ghost view = { λ ram. record { areas = ram.areas; stack = ram.stack } };
}

impl Ram {
    /// All bytes zero, for areas and a stack of so many bytes.
    #[tactic(auto, unfolding(hb_isa::specs::Memory::zeroed))]
    pub fn zeroed(alloc: Global, areas: u32, stack: u32) -> Result<Ram, Memory>
        requires { stack + 1024 < 2 ^ 30 }
        ensures { IfOk result (λ ram. ram ≡ zeroed areas stack) }
    {
        let size = stack + BESIDE_STACK;
        let areas = Region::zeroed(alloc, AREAS_BASE, areas)?;
        let stack = Region::zeroed(alloc, STACK_END - size, size)?;
        Ok(Ram { areas, stack })
    }

    /// The number that a load reads, if all its bytes stand in one region.
    #[tactic(auto, using(hb_isa::proofs::MemoryLaws::bounds), unfolding(hb_isa::specs::Memory::load))]
    pub fn load(&self, op: LoadOp, address: u32) -> Option<u32>
        ensures { result ≡ load self.now address (load_size op) }
    {
        let size = bytes_loaded(op);
        if self.areas.is_within(address, size) {
            Some(self.areas.number(op, address))
        } else if self.stack.is_within(address, size) {
            Some(self.stack.number(op, address))
        } else {
            None
        }
    }

    /// Stores the low bytes of a word, if they all stand in one region, and answers whether they do.
    #[tactic(auto, using(hb_isa::proofs::MemoryLaws::bounds), unfolding(hb_isa::specs::Memory::store))]
    pub fn store(&mut self, op: StoreOp, address: u32, word: u32) -> bool
        ensures stored { store self.old address (store_size op) word ≡ (if result then Some self.new else None) }
        ensures refused { OnFalse result (self.new ≡ self.old) }
    {
        let size = bytes_stored(op);
        if self.areas.is_within(address, size) {
            self.areas.put(op, address, word);
            true
        } else if self.stack.is_within(address, size) {
            self.stack.put(op, address, word);
            true
        } else {
            false
        }
    }

    /// The byte at an address of the areas or the stack region.
    #[tactic(auto, unfolding(hb_isa::specs::Memory::byte_at))]
    pub fn byte(&self, address: u32) -> Option<u8>
        ensures { result ≡ byte_at self.now address }
    {
        match self.areas.byte(address) {
            Some(byte) => Some(byte),
            None => self.stack.byte(address),
        }
    }
}
