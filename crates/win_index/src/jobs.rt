//! The blocks and the jobs of a shape.
#![tactic(auto, using(crate::proofs::JobPlaces::counts))]

use crate::limits::{BLOCK_WINDOWS, MAX_BLOCKS, MAX_ROUNDS};
use crate::shape::Shape;

impl Shape {
    ghost use Rattle.std.specs.Prelude.{◌≡◌, ◌+◌, ◌*◌, ◌<◌, ◌≤◌, Some, IfSome, length, slice_get};
    ghost use Rattle.win_index.specs.Blocks.{block_count};
    ghost use Rattle.win_index.specs.Jobs.{jobs_of, job_number as number_of_job};

    /// Returns the number of blocks of this level. Block `b` holds the windows from number
    /// `BLOCK_WINDOWS * b` on, `BLOCK_WINDOWS` of them; the last block may hold fewer.
    pub fn blocks(&self, level: u32) -> u32
        requires { level ≤ self.now.rounds }
        ensures value { result ≡ block_count self.now.ids level }
        ensures few { result ≤ MAX_BLOCKS }
    {
        self.count(level).div_ceil(BLOCK_WINDOWS)
    }

    /// Returns the number of jobs: one for each block of each level from 0 to `t`.
    pub fn jobs(&self) -> u32
        ensures value { result ≡ length (jobs_of self.now.ids self.now.rounds) }
        ensures few { result ≤ (MAX_ROUNDS + 1) * MAX_BLOCKS }
    {
        let mut jobs = 0;
        for level in 0..self.rounds + 1 {
            jobs += self.blocks(level);
        }
        jobs
    }

    /// Returns the level and the block of a job. Jobs are in the order of their levels, then of
    /// their blocks.
    pub fn job(&self, number: u32) -> (u32, u32)
        requires { number < length (jobs_of self.now.ids self.now.rounds) }
        ensures job { slice_get (jobs_of self.now.ids self.now.rounds) number ≡ Some result }
        ensures level { result.0 ≤ self.now.rounds }
        ensures block { result.1 < block_count self.now.ids result.0 }
    {
        let mut block = number;
        for level in 0..self.rounds + 1 {
            let blocks = self.blocks(level);
            if block < blocks {
                return (level, block);
            }
            block -= blocks;
        }
        unreachable!()
    }

    /// Returns the number of the job for a block of a level, or `None` if there is no such block.
    pub fn job_number(&self, level: u32, block: u32) -> Option<u32>
        ensures number { result ≡ number_of_job self.now.ids self.now.rounds level block }
        ensures below { IfSome result (λ n. n < length (jobs_of self.now.ids self.now.rounds)) }
    {
        if level > self.rounds || block >= self.blocks(level) {
            return None;
        }
        let mut number = block;
        for lower in 0..level {
            number += self.blocks(lower);
        }
        Some(number)
    }
}
