ghost use Rattle.std.specs.Prelude.{◌≡◌, ◌+◌, ◌*◌, ◌/◌, ◌%◌, ◌<◌, ◌≤◌, true, length, replicate, IfOk, vec_len, slice_index, slice_set};
ghost use Rattle.hb_asm.specs.Arithmetic.{load_size, store_size};
ghost use Rattle.hb_isa.specs.Memory.{number_in, put_in, end_of};
ghost use Rattle.hb_isa.specs.Memory as memory;

use crate::little::{byte, half, put_byte, put_half, put_word, word};
use hb_asm::{LoadOp, StoreOp};
use hb_base::Memory;
use std::alloc::Global;
use std::marker::Model;

/// Bytes at one address after another.
#[derive(Debug, Drop)]
pub struct Region {
    base: u32,
    bytes: Vec<u8>,
}

impl Model for Region {
    ghost use Rattle.hb_isa.specs.Memory as memory;

    ghost Value = { memory.Region };

    ghost view = { λ region. record { base = region.base; bytes = region.bytes.items } };
}

impl Region {
    /// So many zero bytes from an address on.
    pub fn zeroed(alloc: Global, base: u32, size: u32) -> Result<Region, Memory>
        ensures { IfOk result (λ region. region ≡ record { base = base; bytes = replicate size 0 }) }
    {
        let bytes = vec![in alloc; 0u8; size as usize]?;
        Ok(Region { base, bytes })
    }

    /// Whether all bytes of an access stand here.
    pub fn is_within(&self, address: u32, size: u8) -> bool
        ensures { result ≡ memory.is_within self.now address size }
    {
        address >= self.base
            && (address - self.base) as usize + usize::from(size) <= self.bytes.len()
    }

    /// The number that the bytes of a load hold.
    #[tactic(auto, unfolding(hb_asm::specs::Arithmetic::load_size))]
    pub fn number(&self, op: LoadOp, address: u32) -> u32
        requires low { self.now.base ≤ address }
        requires high { address + load_size op ≤ end_of self.now }
        ensures { result ≡ number_in self.now address (load_size op) }
    {
        let place = (address - self.base) as usize;
        let bytes = self.bytes.as_slice();
        match op {
            LoadOp::Lb | LoadOp::Lbu => byte(bytes, place),
            LoadOp::Lh | LoadOp::Lhu => half(bytes, place),
            LoadOp::Lw => word(bytes, place),
        }
    }

    /// Puts the low bytes of a number at an address.
    #[tactic(auto, unfolding(hb_asm::specs::Arithmetic::store_size))]
    pub fn put(&mut self, op: StoreOp, address: u32, number: u32)
        requires low { self.old.base ≤ address }
        requires high { address + store_size op ≤ end_of self.old }
        ensures { self.new ≡ put_in self.old address (store_size op) number }
    {
        let place = (address - self.base) as usize;
        let bytes = self.bytes.as_mut_slice();
        match op {
            StoreOp::Sb => put_byte(bytes, place, number),
            StoreOp::Sh => put_half(bytes, place, number),
            StoreOp::Sw => put_word(bytes, place, number),
        }
    }

    /// The byte at an address.
    pub fn byte(&self, address: u32) -> Option<u8>
        ensures { result ≡ memory.byte_in self.now address }
    {
        if address < self.base {
            return None;
        }
        self.bytes.get((address - self.base) as usize).copied()
    }
}
