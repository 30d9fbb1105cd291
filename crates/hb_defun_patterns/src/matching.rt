use crate::flow::Flow;
use hb_base::{List, Memory};
use hb_defun_base::Ground;
use hb_mil::{Atom, Operation, Tail};
use hb_mono::{FieldPat, Pat, PatForm};

/// All bits of a word.
const ALL_BITS: u64 = 0xFFFF_FFFF;

/// Where a row that does not match goes on: a block whose parameters are so many first locals.
#[derive(Clone, Copy, Debug, PartialEq, Eq)]
pub struct Miss {
    pub block: u32,
    pub kept: u32,
}

/// A number as a word.
fn word(number: u128) -> u64 {
    match u64::try_from(number) {
        Ok(number) => number,
        Err(_) => 0,
    }
}

/// Whether a pattern looks at its value at all.
fn looks(pat: &Pat) -> bool {
    match &pat.form {
        PatForm::Any => false,
        _ => true,
    }
}

/// How many constructors the type of a pattern has.
fn constructors(ground: &Ground, pat: &Pat) -> usize {
    ground.rows(ground.node(pat.at.node)).len()
}

/// Whether some value does not match.
#[cycle(failing)]
pub fn can_fail(ground: &Ground, pat: &Pat) -> bool {
    match &pat.form {
        PatForm::Any | PatForm::Local(_) => false,
        PatForm::Number(_) => true,
        PatForm::Con(_, pats) => {
            constructors(ground, pat) > 1 || some_can_fail(ground, pats.as_slice())
        }
        PatForm::Fields(mask, _, fields) => {
            *mask != 0 || some_field_can_fail(ground, fields.as_slice())
        }
    }
}

#[cycle(failing)]
fn some_can_fail(ground: &Ground, pats: &[Pat]) -> bool {
    for pat in pats {
        if can_fail(ground, pat) {
            return true;
        }
    }
    false
}

#[cycle(failing)]
fn some_field_can_fail(ground: &Ground, fields: &[FieldPat]) -> bool {
    for field in fields {
        if can_fail(ground, &field.pat) {
            return true;
        }
    }
    false
}

impl Flow {
    /// The block of a `Switch` from which a row that does not match goes on.
    fn missed(&mut self, miss: Miss) -> Result<u32, Memory> {
        let kept = self.blocks.kept()?;
        if kept == miss.kept {
            return Ok(miss.block);
        }
        let block = self.blocks.fork()?;
        self.blocks
            .finish(block, Tail::Goto(miss.block, miss.kept, None));
        Ok(block)
    }

    /// Goes on where the word has these bits in the mask. The answer of the test is not kept.
    fn bits_match(
        &mut self,
        ground: &Ground,
        value: Atom,
        mask: u64,
        bits: u64,
        miss: Miss,
    ) -> Result<(), Memory> {
        let kept = self.blocks.kept()?;
        let holds = self
            .blocks
            .step(Operation::Has(value, mask, bits), ground.kinds.word)?;
        let missed = self.missed(miss)?;
        let hit = self.blocks.fork()?;
        let targets = self.two(missed, hit)?;
        self.blocks.end(Tail::Switch(holds, targets));
        self.blocks.open(hit)?;
        self.blocks.keep(kept)
    }

    /// The targets of a test: where it does not hold, and where it does.
    pub fn two(&self, no: u32, yes: u32) -> Result<List<u32>, Memory> {
        let mut targets = List::of(Vec::new(self.alloc));
        targets.push(no)?;
        targets.push(yes)?;
        Ok(targets)
    }

    /// Goes on where the value is of the constructor at a place among so many.
    fn is_built(
        &mut self,
        value: Atom,
        index: u32,
        count: usize,
        miss: Miss,
    ) -> Result<(), Memory> {
        if count <= 1 {
            return Ok(());
        }
        let missed = self.missed(miss)?;
        let hit = self.blocks.fork()?;
        let mut targets = List::of(Vec::new(self.alloc));
        for place in 0..count {
            let target = if place == index as usize { hit } else { missed };
            targets.push(target)?;
        }
        self.blocks.end(Tail::Switch(value, targets));
        self.blocks.open(hit)
    }

    /// Goes on where the value matches, with the locals of the pattern bound.
    #[cycle(matching)]
    pub fn pattern(
        &mut self,
        ground: &Ground,
        pat: &Pat,
        value: Atom,
        miss: Miss,
    ) -> Result<(), Memory> {
        match &pat.form {
            PatForm::Any => Ok(()),
            PatForm::Local(local) => {
                self.bind(*local, value);
                Ok(())
            }
            PatForm::Number(number) => {
                self.bits_match(ground, value, ALL_BITS, word(*number), miss)
            }
            PatForm::Con(con, pats) => {
                let index = ground.index(*con);
                self.is_built(value, index, constructors(ground, pat), miss)?;
                self.arguments(ground, pats.as_slice(), value, index, miss)
            }
            PatForm::Fields(mask, bits, fields) => {
                if *mask != 0 {
                    self.bits_match(ground, value, *mask, *bits, miss)?;
                }
                self.fields(ground, fields.as_slice(), value, miss)
            }
        }
    }

    /// The arguments of a value of a constructor.
    #[cycle(matching)]
    fn arguments(
        &mut self,
        ground: &Ground,
        pats: &[Pat],
        value: Atom,
        index: u32,
        miss: Miss,
    ) -> Result<(), Memory> {
        let mut place: u32 = 0;
        for pat in pats {
            if looks(pat) {
                let part = self.blocks.step(
                    Operation::Part(value, index, place),
                    ground.node(pat.at.node),
                )?;
                self.pattern(ground, pat, part, miss)?;
            }
            place = place.saturating_add(1);
        }
        Ok(())
    }

    /// The fields of a bitdata value.
    #[cycle(matching)]
    fn fields(
        &mut self,
        ground: &Ground,
        fields: &[FieldPat],
        value: Atom,
        miss: Miss,
    ) -> Result<(), Memory> {
        for field in fields {
            if looks(&field.pat) {
                let part = self.blocks.step(
                    Operation::Cut(value, field.bits.at, field.bits.width),
                    ground.node(field.pat.at.node),
                )?;
                self.pattern(ground, &field.pat, part, miss)?;
            }
        }
        Ok(())
    }
}
