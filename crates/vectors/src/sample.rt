// A file of sample blocks, with its seal, and the lines that are printed of it.
use crate::digest::{Digits, digest_of};
use hash::{Digest, HashFunction};
use seal::{SEAL_LENGTH, Seal};
use slip::{MAX_SLIP_LENGTH, write_slip};
use std::{array, str};
use terms::BlockNumber;
use tree::{Block, path, path_length, root};

// Block `number` of every sample file.
fn block_at(number: usize) -> Block {
    let base = number % 251 * 131 + number / 256 % 251;
    array::from_fn(|i| ((base + 17 * i) % 251) as u8)
}

#[derive(Drop)]
pub struct Sample<'a> {
    rt: &'a HostRuntime,
    blocks: Vec<Block>,
    seal: Seal,
}

impl<'a> Sample<'a> {
    pub fn new<D: HashFunction>(rt: &'a HostRuntime, count: u32) -> anyhow::Result<Sample<'a>> {
        let blocks: Vec<Block> = (0..count as usize).map(block_at).collect(rt.alloc())?;
        let seal = Seal::new::<D>(count, root::<D>(blocks.as_slice()))?;
        Ok(Sample { rt, blocks, seal })
    }

    // The lines of the root and of the seal.
    pub fn print<D: HashFunction>(&self) -> anyhow::Result<()> {
        let count = self.seal.count();
        let root = Digits(self.seal.root());
        println!(self.rt; "root {} {count} {root}", D::KIND)?;
        let mut bytes = [0; SEAL_LENGTH];
        self.seal.write(&mut bytes)?;
        let mut digits = [0; 2 * SEAL_LENGTH];
        hex::encode_to_slice(bytes, &mut digits)?;
        println!(self.rt; "seal {} {count} {}", D::KIND, str::from_utf8(&digits)?)?;
        Ok(())
    }

    // The path of a block.
    fn path<D: HashFunction>(&self, number: u32) -> anyhow::Result<Vec<Digest>> {
        let blocks = self.blocks.as_slice();
        let length = path_length(number as usize, blocks.len());
        let mut digests = vec![in self.rt.alloc(); [0; 32]; length]?;
        path::<D>(blocks, BlockNumber(number), digests.as_mut_slice())?;
        Ok(digests)
    }

    // The line of all paths, one after another.
    pub fn print_paths<D: HashFunction>(&self) -> anyhow::Result<()> {
        let count = self.seal.count();
        let mut all = Vec::new(self.rt.alloc());
        for number in 0..count {
            all.extend_from_slice(self.path::<D>(number)?.as_slice())?;
        }
        let digits = Digits(digest_of::<D>(all.as_slice().as_flattened(), &[])?);
        println!(self.rt; "paths {} {count} {digits}", D::KIND)?;
        Ok(())
    }

    // The lines of those of these blocks that the file has.
    pub fn print_blocks<D: HashFunction>(&self, numbers: &[u32]) -> anyhow::Result<()> {
        let count = self.seal.count();
        for number in numbers.iter().copied().filter(|number| *number < count) {
            let path = self.path::<D>(number)?;
            print!(self.rt; "path {} {count} {number} {}", D::KIND, path.len())?;
            for digest in path.as_slice() {
                print!(self.rt; " {}", Digits(*digest))?;
            }
            println!(self.rt)?;
            self.print_slip::<D>(number, path.as_slice())?;
        }
        Ok(())
    }

    // The line of a block's slip.
    fn print_slip<D: HashFunction>(&self, number: u32, path: &[Digest]) -> anyhow::Result<()> {
        let count = self.seal.count();
        let block = block_at(number as usize);
        let mut slip = vec![in self.rt.alloc(); 0; MAX_SLIP_LENGTH]?;
        let number = BlockNumber(number);
        let path = path.as_flattened();
        let length = write_slip(&self.seal, number, &block, path, slip.as_mut_slice())?;
        slip.truncate(length);
        let digits = Digits(digest_of::<D>(slip.as_slice(), &[])?);
        println!(self.rt; "slip {} {count} {} {length} {digits}", D::KIND, number.0)?;
        Ok(())
    }
}
