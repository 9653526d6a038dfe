//! A worker's view of the cells of a memo: it looks at them, and makes the blocks of empty ones.

ghost use Rattle.std.specs.Prelude.{◌≡◌, MatchResult};

use crate::own_reader::OwnReader;
use node_program::OutOfMemory;
use round_eval::WorkFault;
use shared_memo::{Installed, Memo, Stranger, Ticket};
use std::alloc::Global;
use unroll::{BlockMaker, Code, MakeFault};
use win_index::{jobs_have_numbers, window_of_number};

// A worker's reader of a memo, and its maker of blocks of the memo's plan.
#[derive(Drop)]
pub(crate) struct CellMaker<'s, 'a> {
    pub(crate) reader: OwnReader<'s, 'a>,
    pub(crate) blocks: BlockMaker<'s, 'a>,
    pub(crate) ghost one_plan: { blocks ≡ reader.pass.plan.now },
}

impl<'s, 'a> CellMaker<'s, 'a> {
    ghost use Rattle.std.specs.Prelude.{IfOk, IfErr, OnOk, IsSomeAnd, true, is_some};
    ghost use Rattle.round_eval.specs.declared.fault.WorkFault.TheVariants.{Stranger as StrangerMet};
    ghost use Rattle.shared_memo.specs.declared.memo.Installed.TheVariants.{Fresh};
    ghost use Rattle.shared_memo.specs.Passes.{known, seen, memo_plan};
    ghost use Rattle.shared_memo.specs.PlanJobs.{IsKey};
    ghost use Rattle.shared_memo.specs.Tickets.{worker_of};
    ghost use Rattle.shared_memo.specs.Filled.{FoundStranger, MetStranger};
    ghost use Rattle.table_fill.specs.Cells.{GoesOn, NamesUnknownBelow};

    // Returns a maker for a worker that knows no block of the memo yet. Fails if memory was refused.
    pub(crate) fn new(
        alloc: Global,
        memo: &'s Memo<'a>,
        code: &'s Code<'a>,
    ) -> Result<CellMaker<'s, 'a>, OutOfMemory>
        requires { code.now ≡ memo_plan memo.now }
        ensures { IfOk result (λ cells. cells.reader.memo.now ≡ memo.entry.now) }
    {
        let pass = memo.pass(alloc)?;
        let blocks = BlockMaker::new(alloc, code)?;
        let reader = OwnReader { memo, pass };
        Ok(CellMaker { reader, blocks })
    }

    // Looks at the cell of this level and number, and returns whether its block is known then. It is
    // if a block was seen there. Fails if the cell holds a stranger.
    fn finds(&mut self, level: u32, number: u32) -> Result<bool, WorkFault>
        requires { IsKey self.old.reader.pass.plan.now level number }
        ensures goes_on { GoesOn self.old self.new }
        ensures found { IfOk result (λ found. (found ≡ is_some (known self.new.reader.pass level number))
            × (is_some (seen self.old.reader.pass level number) ≡ true → found ≡ true)) }
        ensures stranger { IfErr result (λ fault. (fault ≡ StrangerMet)
            × FoundStranger self.old.reader.pass.plan.now self.new.reader.pass level number) }
    {
        let OwnReader { memo, pass } = &mut self.reader;
        match memo.look(pass, level, number) {
            Ok(found) => Ok(found.is_some()),
            Err(Stranger) => Err(WorkFault::Stranger),
        }
    }

    // Looks at the cell of this level and number, in which a block was seen. Fails if it is a stranger.
    fn stands(&mut self, level: u32, number: u32) -> Result<(), WorkFault>
        requires key { IsKey self.old.reader.pass.plan.now level number }
        requires seen { is_some (seen self.old.reader.pass level number) ≡ true }
        ensures goes_on { GoesOn self.old self.new }
        ensures known { OnOk result (is_some (known self.new.reader.pass level number) ≡ true) }
        ensures stranger { IfErr result (λ fault. (fault ≡ StrangerMet)
            × FoundStranger self.old.reader.pass.plan.now self.new.reader.pass level number) }
    {
        let _known = self.finds(level, number)?;
        Ok(())
    }

    // Makes the block of this level and number and stores it, unless the cell is full by then. Its
    // maker is the ticket's worker. Fails with the block of a lower level that is missing.
    fn make(
        &mut self,
        alloc: Global,
        ticket: &Ticket,
        level: u32,
        number: u32,
    ) -> Result<Installed<'a>, MakeFault>
        requires { IsKey self.old.reader.pass.plan.now level number }
        ensures goes_on { GoesOn self.old self.new }
        ensures fresh { IfOk result (λ installed. installed ≡ Fresh
            → IsSomeAnd (known self.new.reader.pass level number) (λ block. block.maker ≡ worker_of ticket.now)) }
        ensures seen { OnOk result (is_some (seen self.new.reader.pass level number) ≡ true) }
        ensures missing { IfErr result
            (NamesUnknownBelow self.old.reader.pass.plan.now (known self.new.reader.pass) level) }
    {
        window_of_number();
        let CellMaker { reader, blocks } = self;
        let block = match blocks.make(reader, level, number, ticket.worker()) {
            Ok(block) => block,
            Err(fault) => return Err(fault),
        };
        let Ok(block) = Box::new(alloc, block) else {
            return Err(MakeFault::OutOfMemory);
        };
        Ok(reader.memo.keep(&mut reader.pass, block))
    }

    // Fills the cell of this level and number, unless it is full. Blocks below that are missing are
    // made first, one before each new attempt. Fails with a stranger only if a cell holds one.
    pub(crate) fn fill(
        &mut self,
        alloc: Global,
        ticket: &Ticket,
        level: u32,
        number: u32,
    ) -> Result<(), WorkFault>
        requires { IsKey self.old.reader.pass.plan.now level number }
        ensures goes_on { GoesOn self.old self.new }
        ensures known { OnOk result (is_some (known self.new.reader.pass level number) ≡ true) }
        ensures stranger { IfErr result (λ fault. fault ≡ StrangerMet
            → MetStranger self.old.reader.pass.plan.now self.new.reader.pass) }
    {
        jobs_have_numbers();
        if self.finds(level, number)? {
            return Ok(());
        }
        'attempt: loop {
            match self.make(alloc, ticket, level, number) {
                Ok(Installed::Fresh) => return Ok(()),
                Ok(Installed::Stood(_)) => return self.stands(level, number),
                Err(fault) => {
                    let (low, below) = missing_block(fault)?;
                    self.fill(alloc, ticket, low, below)?;
                }
            }
        }
    }
}

// Returns the level and number of the block that is missing, or the error that memory was refused.
fn missing_block(fault: MakeFault) -> Result<(u32, u32), OutOfMemory>
    ensures { MatchResult result (λ block. fault ≡ MakeFault.Missing block.0 block.1)
        (λ _. fault ≡ MakeFault.OutOfMemory) }
{
    match fault {
        MakeFault::Missing(level, number) => Ok((level, number)),
        MakeFault::OutOfMemory => Err(OutOfMemory),
    }
}
