ghost use Rattle.std.specs.Prelude.{◌≡◌, replicate};
ghost use Rattle.hb_isa.specs.State.{read_register, write_register};

use std::marker::Model;

/// The 32 registers. x0 reads 0, and what is written to it is lost.
#[derive(Debug, Drop)]
pub struct Registers {
    words: [u32; 32],
}

impl Model for Registers {
    ghost use Rattle.std.specs.Prelude.{List, ℕ};

    ghost Value = { List ℕ };

    ghost view = { λ registers. registers.words };
}

impl Registers {
    /// All registers zero.
    pub fn zeroed() -> Registers
        ensures { result ≡ replicate 32 0 }
    {
        Registers { words: [0; 32] }
    }

    /// The word in a register.
    pub fn read(&self, number: u8) -> u32
        ensures { result ≡ read_register self.now number }
    {
        if number == 0 {
            return 0;
        }
        match self.words.get(usize::from(number)) {
            Some(word) => *word,
            None => 0,
        }
    }

    /// Puts a word into a register.
    pub fn write(&mut self, number: u8, word: u32)
        ensures { self.new ≡ write_register self.old number word }
    {
        if number != 0 && number < 32 {
            self.words[usize::from(number)] = word;
        }
    }
}
