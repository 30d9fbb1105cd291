ghost use Rattle.std.specs.Prelude.{length, ◌≡◌, ◌<◌, position};
ghost use Rattle.hb_asm.specs.Arithmetic as arithmetic;
ghost use Rattle.hb_asm.specs.Arithmetic.{load_size, store_size};
ghost use Rattle.hb_base.specs.Inputs.{first_value};
ghost use Rattle.hb_isa.specs.Memory.{load, store};
ghost use Rattle.hb_isa.specs.Table.{is_read_at, is_written_at, loading, loading_memory, loading_port, reading, storing, storing_memory, storing_port};
ghost use Rattle.hb_script.specs.Lines.{IsShown};

use crate::arithmetic::{
    bytes_loaded, bytes_stored, extended, is_load_aligned, is_store_aligned, low_part,
};
use crate::machine::Machine;
use crate::ports::{port_read_at, port_written_at};
use hb_asm::{LoadOp, StoreOp};
use hb_base::{Step, Stop};

impl Machine {
    /// Loads from memory or from a port.
    #[tactic(auto, unfolding(hb_isa::specs::Table::loading))]
    pub(crate) fn load_word(&mut self, op: LoadOp, rd: u8, address: u32) -> Step
        ensures turn { (self.new, result) ≡ loading op rd address self.old }
        ensures shown { IsShown self.new.ports result }
    {
        if !is_load_aligned(op, address) {
            return self.end(Stop::Misaligned);
        }
        self.load_aligned(op, rd, address)
    }

    #[tactic(auto, unfolding(hb_isa::specs::Table::loading_memory))]
    fn load_aligned(&mut self, op: LoadOp, rd: u8, address: u32) -> Step
        ensures turn { (self.new, result) ≡ loading_memory (load self.old.memory address (load_size op)) op rd address self.old }
        ensures shown { IsShown self.new.ports result }
    {
        match self.memory.load(op, address) {
            Some(number) => self.compute(rd, extended(op, number)),
            None => self.load_port(op, rd, address),
        }
    }

    #[tactic(auto, unfolding(hb_isa::specs::Table::loading_port))]
    fn load_port(&mut self, op: LoadOp, rd: u8, address: u32) -> Step
        ensures turn { (self.new, result) ≡ loading_port (position (is_read_at address (load_size op)) self.old.ports) op rd self.old }
        ensures shown { IsShown self.new.ports result }
    {
        match port_read_at(self.ports.as_slice(), address, bytes_loaded(op)) {
            Some(port) => self.read_port(port, op, rd),
            None => self.end(Stop::Unmapped),
        }
    }

    #[tactic(auto, using(crate::proofs::PortLaws::reads), unfolding(hb_isa::specs::Table::reading))]
    fn read_port(&mut self, port: u32, op: LoadOp, rd: u8) -> Step
        requires few { port < 256 }
        requires there { port < length self.old.ports }
        ensures turn { (self.new, result) ≡ reading (first_value port self.old.lines) port op rd self.old }
        ensures shown { IsShown self.new.ports result }
    {
        match self.inputs.take(port) {
            Some(value) => {
                self.set_register(rd, extended(op, value));
                self.go_on();
                Step::Read(port, value)
            }
            None => self.end(Stop::InputEnd(port)),
        }
    }

    /// Stores to memory or to a port.
    #[tactic(auto, unfolding(hb_isa::specs::Table::storing))]
    pub(crate) fn store_word(&mut self, op: StoreOp, address: u32, word: u32) -> Step
        ensures turn { (self.new, result) ≡ storing op address word self.old }
        ensures shown { IsShown self.new.ports result }
    {
        if !is_store_aligned(op, address) {
            return self.end(Stop::Misaligned);
        }
        self.store_aligned(op, address, word)
    }

    #[tactic(auto, unfolding(hb_isa::specs::Table::storing_memory))]
    fn store_aligned(&mut self, op: StoreOp, address: u32, word: u32) -> Step
        ensures turn { (self.new, result) ≡ storing_memory (store self.old.memory address (store_size op) word) op address word self.old }
        ensures shown { IsShown self.new.ports result }
    {
        if self.memory.store(op, address, word) {
            self.go_on();
            return Step::Going;
        }
        self.store_port(op, address, word)
    }

    #[tactic(auto, using(crate::proofs::PortLaws::writes), unfolding(hb_isa::specs::Table::storing_port))]
    fn store_port(&mut self, op: StoreOp, address: u32, word: u32) -> Step
        ensures turn { (self.new, result) ≡ storing_port (position (is_written_at address (store_size op)) self.old.ports) (arithmetic.low_part op word) self.old }
        ensures shown { IsShown self.new.ports result }
    {
        match port_written_at(self.ports.as_slice(), address, bytes_stored(op)) {
            Some(port) => {
                let value = low_part(op, word);
                self.go_on();
                Step::Wrote(port, value)
            }
            None => self.end(Stop::Unmapped),
        }
    }
}
