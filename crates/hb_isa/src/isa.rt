ghost use Rattle.std.specs.Prelude.{refl};
ghost use Rattle.hb_base.specs.declared.step.Step.{Step as Answer};
ghost use Rattle.hb_isa.specs.Meaning.{HasTable};
ghost use Rattle.hb_isa.specs.State.{State};
ghost use Rattle.hb_isa.specs.Table.{table};

/// An instruction set of the machine, by its meaning: the next state of each state, and what the step shows. It does
/// what RV32I does wherever a word codes an instruction of RV32I.
pub trait Isa {
    ghost step: { State → State × Answer };

    ghost agrees: { HasTable step };
}

/// RV32I, after the RISC-V unprivileged ISA.
#[derive(Clone, Copy, Debug, PartialEq, Eq)]
pub struct Rv32i;

impl Isa for Rv32i {
    ghost step = { table };

    ghost agrees = { λ s coded. refl };
}
