ghost use Rattle.std.specs.Prelude.{◌≡◌, IsTrue, IfOk, map, option_map};
ghost use Rattle.hb_asm.specs.Coding.{decode_of};
ghost use Rattle.hb_base.specs.Ports.{ArePorts};
ghost use Rattle.hb_image.specs.Rules.{IsImage};
ghost use Rattle.hb_base.specs.Inputs.{AreInputs};
ghost use Rattle.hb_isa.specs.Memory.{byte_at};
ghost use Rattle.hb_mach.specs.Run.{mach, stop_of};
ghost use Rattle.hb_mach.specs.Soundness.{IsOwnEnd, is_own};
ghost use Rattle.hb_isa.specs.State.{with_register};
ghost use Rattle.hb_mach.specs.State.{start};
ghost use Rattle.hb_isa.specs.State as state;
ghost use Rattle.hb_isa.specs.Table;
ghost use Rattle.hb_isa.specs.Table.{goes_to, goes_on, ending, instruction_at_pc};
ghost use Rattle.hb_runs.specs.Outcome.{Grows};
ghost use Rattle.hb_script.specs.Ends.{IsNamed};
ghost use Rattle.hb_script.specs.Lines.{IsShown};

use crate::inputs::Inputs;
use crate::ram::Ram;
use crate::registers::Registers;
use hb_asm::{Instr, decode};
use hb_base::{List, Memory, Port, Script, Step, Stop};
use hb_image::Image;
use std::alloc::{AllocError, Global};
use std::marker::Model;

/// Where code starts.
const CODE_BASE: u32 = 0x0001_0000;

/// A machine that runs an image over a script. It stores no trace: each step answers what it shows.
#[derive(Drop)]
pub struct Machine {
    code: List<u32>,
    instrs: Vec<Option<Instr>>,
    pub(crate) ports: List<Port>,
    pub(crate) pc: u32,
    registers: Registers,
    pub(crate) memory: Ram,
    pub(crate) inputs: Inputs,
    pub(crate) ended: Option<Stop>,
    done: u64,
}

impl Model for Machine {
    ghost use Rattle.hb_isa.specs.State.{State};
    ghost use Rattle.hb_mach.specs.Soundness.{IsSound};

    ghost Value = { State };

    ghost view = { λ m. record {
      code = m.code;
      ports = m.ports;
      pc = m.pc;
      registers = m.registers;
      memory = m.memory;
      lines = m.inputs;
      ended = m.ended;
      done = m.done;
    } };

    ghost invariant = { λ m. IsSound m.code m.instrs.items m.ports m.inputs m.ended };
}

/// The instructions that words code.
fn decode_all(alloc: Global, words: &[u32]) -> Result<Vec<Option<Instr>>, AllocError>
    ensures { IfOk result (λ instrs. instrs.items ≡ map decode_of words.now) }
{
    words.iter().map(|word| decode(*word)).collect(alloc)
}

impl Machine {
    /// The machine at the start of a run of the image over the script. Takes all the memory that the run needs.
    #[tactic(auto, unfolding(crate::specs::State::start))]
    pub fn load(alloc: Global, image: Image, script: Script) -> Result<Machine, Memory>
        requires image { IsImage image }
        requires script { AreInputs image.ports script.lines }
        ensures start { IfOk result (λ machine. machine ≡ start image script.lines) }
        // What a run shows grows by at most one event or the end a step.
        ensures grows { Grows (mach image script.lines) }
    {
        let Image {
            ports,
            areas,
            stack,
            code,
        } = image;
        let Script { lines } = script;
        let instrs = decode_all(alloc, code.as_slice())?;
        let memory = Ram::zeroed(alloc, areas, stack)?;
        let inputs = Inputs::of(alloc, lines)?;
        Ok(Machine {
            code,
            instrs,
            ports,
            pc: CODE_BASE,
            registers: Registers::zeroed(),
            memory,
            inputs,
            ended: None,
            done: 0,
        })
    }

    /// The number of steps done, the one that ended the run included. It stays at 2^64 - 1.
    pub fn done(&self) -> u64
        ensures { result ≡ self.now.done }
    {
        self.done
    }

    /// The ports of the image.
    pub fn ports(&self) -> &List<Port>
        ensures value { result.now ≡ self.now.ports }
        ensures rules { ArePorts result.now }
    {
        &self.ports
    }

    /// The byte at an address of an area or of the stack region.
    pub fn byte(&self, address: u32) -> Option<u8>
        ensures { result ≡ byte_at self.now.memory address }
    {
        self.memory.byte(address)
    }

    pub(crate) fn register(&self, number: u8) -> u32
        ensures { result ≡ state.register self.now number }
    {
        self.registers.read(number)
    }

    pub(crate) fn set_register(&mut self, number: u8, word: u32)
        ensures { self.new ≡ with_register number word self.old }
    {
        self.registers.write(number, word);
    }

    pub(crate) fn next_address(&self) -> u32
        ensures { result ≡ Table.next_address self.now }
    {
        self.pc.wrapping_add(4)
    }

    pub(crate) fn go_to(&mut self, target: u32)
        ensures { self.new ≡ goes_to target self.old }
    {
        self.pc = target;
        self.done = self.done.saturating_add(1);
    }

    pub(crate) fn go_on(&mut self)
        ensures { self.new ≡ goes_on self.old }
    {
        self.pc = self.pc.wrapping_add(4);
        self.done = self.done.saturating_add(1);
    }

    pub(crate) fn end(&mut self, stop: Stop) -> Step
        requires own { IsTrue (is_own stop) }
        requires named { IsNamed self.old.ports stop }
        ensures turn { (self.new, result) ≡ ending stop self.old }
        ensures shown { IsShown self.new.ports result }
    {
        self.ended = Some(stop);
        self.done = self.done.saturating_add(1);
        Step::Ended(stop)
    }

    /// The instruction at pc, if pc is in the code and its word codes one.
    #[tactic(auto, using(crate::proofs::FetchLaws::fetches))]
    pub(crate) fn fetch(&self) -> Option<Option<Instr>>
        ensures { result ≡ instruction_at_pc self.now }
    {
        if self.pc < CODE_BASE {
            return None;
        }
        let place = (self.pc - CODE_BASE) as usize / 4;
        self.instrs.get(place).copied()
    }

    /// How the machine has ended, or that it has not.
    pub(crate) fn stop(&self) -> Stop
        ensures value { result ≡ stop_of self.now.ended }
        ensures own { IsOwnEnd self.now.ended }
        ensures named { IsNamed self.now.ports result }
    {
        match self.ended {
            Some(stop) => stop,
            None => Stop::Steps,
        }
    }
}
