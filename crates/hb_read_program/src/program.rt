ghost use Rattle.std.specs.Prelude.{◌≡◌, IfOk};
ghost use Rattle.hb_grammar.specs.Reading.{Exact};
ghost use Rattle.hb_read_declarations.specs.Exactly.{Made, ProgramRead};
ghost use Rattle.hb_read_declarations.specs.Nodes.{program_nodes};
ghost use Rattle.hb_read_program.specs.Frames.{program_engine};

use crate::frame::Frame;
use crate::run::Run;
use crate::symbol::Symbol;
use hb_base::{List, Memory, Place};
use hb_read_declarations::DeclNode;
use hb_stack::Stack;
use hb_tokens::Token;
use std::alloc::Global;
use std::marker::Model;

/// Reads one program and its end.
#[derive(Drop)]
pub struct ProgramReader {
    run: Run,
    alloc: Global,
}

impl Model for ProgramReader {
    ghost use Rattle.hb_engine.specs.Tables.{Thread};
    ghost use Rattle.hb_read_declarations.specs.declared.node.DeclNode.{DeclNode};
    ghost use Rattle.hb_read_program.specs.Frames.{Frame};
    ghost use Rattle.hb_read_program.specs.Running.{seen_run};

    ghost Value = { Thread Frame DeclNode };

    ghost use Rattle.hb_read_program.specs.RunningCodes.{coded_thread};

    ghost coded = { coded_thread };

    ghost view = { λ reader. seen_run reader.run };
}

impl ProgramReader {
    /// The reader of a program, at its start.
    #[tactic(auto, using(crate::proofs::Exactness::program_exact))]
    pub fn new(alloc: Global) -> Result<ProgramReader, Memory>
        ensures start { IfOk result (λ reader. reader ≡ program_engine.start) }
        ensures exact { Exact program_engine (Made ProgramRead program_nodes) }
    {
        let place = Place { line: 0, col: 0 };
        let mut frames = Stack::new(alloc);
        frames.push(Frame::Waits(Symbol::Program, place, 0))?;
        let nodes = List::of(Vec::new(alloc));
        Ok(ProgramReader {
            run: Run { frames, nodes },
            alloc,
        })
    }

    /// Takes the token, or is gone where none such can stand here.
    pub fn take(mut self, token: Token) -> Result<Option<ProgramReader>, Memory>
        ensures { IfOk result (λ next. next ≡ program_engine.move self token) }
    {
        if self.run.take(self.alloc, &token)? {
            Ok(Some(self))
        } else {
            Ok(None)
        }
    }

    /// The nodes of the program, where the tokens taken are a whole one with its end.
    pub fn finish(self) -> Result<Option<List<DeclNode>>, Memory>
        ensures { IfOk result (λ nodes. nodes ≡ program_engine.done self) }
    {
        let nodes = self.run.finish()?;
        Ok(nodes)
    }
}
