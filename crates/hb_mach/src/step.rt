ghost use Rattle.std.specs.Prelude.{◌≡◌, IsTrue};
ghost use Rattle.hb_mach.specs.Soundness.{is_own};
ghost use Rattle.hb_isa.specs.State as state;
ghost use Rattle.hb_isa.specs.Table;
ghost use Rattle.hb_isa.specs.Table.{called, computed, branching, jumping, execute, table};
ghost use Rattle.hb_script.specs.Ends.{IsNamed};
ghost use Rattle.hb_script.specs.Lines.{IsShown};

use crate::arithmetic::{alu, is_taken};
use crate::machine::Machine;
use hb_asm::Instr;
use hb_base::{Step, Stop};

impl Machine {
    /// Puts a word into a register, and goes on.
    #[tactic(auto, unfolding(hb_isa::specs::Table::computed))]
    pub(crate) fn compute(&mut self, rd: u8, word: u32) -> Step
        ensures turn { (self.new, result) ≡ computed rd word self.old }
        ensures shown { IsShown self.new.ports result }
    {
        self.set_register(rd, word);
        self.go_on();
        Step::Going
    }

    #[tactic(auto, unfolding(hb_isa::specs::Table::branching))]
    fn branch(&mut self, taken: bool, target: u32) -> Step
        ensures turn { (self.new, result) ≡ branching taken target self.old }
        ensures shown { IsShown self.new.ports result }
    {
        if !taken {
            self.go_on();
            return Step::Going;
        }
        if target % 4 != 0 {
            return self.end(Stop::Misaligned);
        }
        self.go_to(target);
        Step::Going
    }

    #[tactic(auto, unfolding(hb_isa::specs::Table::jumping))]
    fn jump(&mut self, rd: u8, target: u32) -> Step
        ensures turn { (self.new, result) ≡ jumping rd target self.old }
        ensures shown { IsShown self.new.ports result }
    {
        if target % 4 != 0 {
            return self.end(Stop::Misaligned);
        }
        let link = self.next_address();
        self.set_register(rd, link);
        self.go_to(target);
        Step::Going
    }

    fn call(&self) -> Stop
        ensures own { IsTrue (is_own result) }
        ensures named { IsNamed self.now.ports result }
        ensures value { result ≡ called (state.register self.now 17) (state.register self.now 10) }
    {
        match self.register(17) {
            0 => Stop::Done,
            1 => Stop::Halt(self.register(10)),
            2 => Stop::Stack,
            _ => Stop::Illegal,
        }
    }

    fn sum_with(&self, rs1: u8, imm: i32) -> u32
        ensures { result ≡ Table.sum_with self.now rs1 imm }
    {
        self.register(rs1).wrapping_add(imm.cast_unsigned())
    }

    fn from_here(&self, imm: i32) -> u32
        ensures { result ≡ Table.from_here self.now imm }
    {
        self.pc.wrapping_add(imm.cast_unsigned())
    }

    #[tactic(auto, unfolding(hb_isa::specs::Table::execute))]
    fn execute(&mut self, instr: Instr) -> Step
        ensures turn { (self.new, result) ≡ execute instr self.old }
        ensures shown { IsShown self.new.ports result }
    {
        match instr {
            Instr::Lui { rd, imm } => self.compute(rd, imm << 12),
            Instr::Auipc { rd, imm } => self.compute(rd, self.pc.wrapping_add(imm << 12)),
            Instr::Jal { rd, imm } => self.jump(rd, self.from_here(imm)),
            Instr::Jalr { rd, rs1, imm } => {
                let target = self.sum_with(rs1, imm);
                self.jump(rd, target - target % 2)
            }
            Instr::Branch { op, rs1, rs2, imm } => {
                let taken = is_taken(op, self.register(rs1), self.register(rs2));
                self.branch(taken, self.from_here(imm))
            }
            Instr::Load { op, rd, rs1, imm } => self.load_word(op, rd, self.sum_with(rs1, imm)),
            Instr::Store { op, rs1, rs2, imm } => {
                self.store_word(op, self.sum_with(rs1, imm), self.register(rs2))
            }
            Instr::OpImm { op, rd, rs1, imm } => {
                let word = alu(op, self.register(rs1), imm.cast_unsigned());
                self.compute(rd, word)
            }
            Instr::Op { op, rd, rs1, rs2 } => {
                let word = alu(op, self.register(rs1), self.register(rs2));
                self.compute(rd, word)
            }
            Instr::Fence { high: _, rd: _ } => {
                self.go_on();
                Step::Going
            }
            Instr::Ecall => self.end(self.call()),
            Instr::Ebreak => self.end(Stop::Break),
        }
    }

    /// Does one step of the machine's table, and answers what it shows. After an end it answers that end, and
    /// changes and counts nothing.
    #[tactic(auto, unfolding(hb_isa::specs::Table::table, hb_isa::specs::Table::running, hb_isa::specs::Table::fetched))]
    pub fn step(&mut self) -> Step
        ensures turn { (self.new, result) ≡ table self.old }
        ensures shown { IsShown self.new.ports result }
    {
        if let Some(stop) = self.ended {
            return Step::Ended(stop);
        }
        match self.fetch() {
            None => self.end(Stop::Unmapped),
            Some(None) => self.end(Stop::Illegal),
            Some(Some(instr)) => self.execute(instr),
        }
    }
}
