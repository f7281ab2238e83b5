//! The value of a data number, copied to the front of a buffer. No heap.
#![tactic(auto)]

ghost use Rattle.std.specs.Prelude.{◌≡◌, ℕ, ◌+◌, ◌-◌, ◌<◌, ◌≤◌, true, ◌++◌, length, drop, MatchResult};
ghost use Rattle.std.proofs.Math.Seq.{paste};
ghost use Rattle.layout.specs.Sizes.{followers, size as size_in};
ghost use Rattle.layout.specs.Fields.{bytes as bytes_of};
ghost use Rattle.layout.specs.Sound.{leads, sound};
ghost use Rattle.layout.specs.Records.{data_at, data_from};
ghost use Rattle.layout.specs.Plans.{sizes_of};
ghost use Rattle.layout.specs.Reads.{words_of};
ghost use Rattle.values.specs.Copying.{recorded, Copies, CopiesData};

use flash::fault::FlashFault;
use flash::{BlockNumber, Flash};
use layout::block::BlockWords;
use layout::plan::DataNumber;
use layout::sizes::{
    FIRST_DATA, FIRST_SHARE, FOLLOWING_DATA, FOLLOWING_SHARE, first_share_of, follower_count, share,
};
use records::reading::read_block;
use records::store::Store;

/// Why nothing was copied.
#[derive(Clone, Copy, PartialEq, Eq, Debug)]
pub enum CopyFault {
    /// The number has no value.
    NoValue,
    /// The buffer is below the size of the number.
    TooShort,
    /// The flash refused.
    Flash(FlashFault),
}

impl From<FlashFault> for CopyFault {
    ghost use Rattle.std.specs.Prelude.{◌≡◌};
    ghost use Rattle.values.specs.declared.CopyFault.TheVariants.{Flash as OfFlash};

    ghost from_gives = { λ fault refusal. refusal ≡ OfFlash fault };

    fn from(fault: FlashFault) -> CopyFault {
        CopyFault::Flash(fault)
    }
}

// Fills a buffer with the bytes of a block from byte `from` on.
fn copy_bytes(block: &BlockWords, from: usize, out: &mut [u8])
    requires { from + length out.old ≤ 64 }
    ensures { out.new ≡ bytes_of (words_of block.now) from (length out.old) }
{
    // By index, byte by byte: an array of all 64 bytes costs more than a short record, and after `iter_mut` a proof knows nothing of the buffer.
    for i in 0..out.len() {
        out[i] = block.byte((from + i) as u8);
    }
}

// Copies the data of the following blocks of a sound record, from block `from` on, into a buffer from byte 41 on.
// Power is asked of this and the next: no type can hold it, since it goes inside a command.
fn copy_following<F: Flash>(
    flash: &F,
    size: u16,
    from: BlockNumber,
    out: &mut [u8],
) -> Result<(), FlashFault>
    requires planned { size ≤ 1024 }
    requires room { size ≤ length out.old }
    requires led { let s = F.model.meaning flash.now in (b : ℕ) × (leads s.count s.word size b 0 from.0 (followers size) ≡ true) }
    requires power { (F.model.meaning flash.now).power ≡ true }
    ensures { MatchResult result (λ _. out.new ≡ paste out.old 41 (data_from (F.model.meaning flash.now).word size 0 from.0 (followers size)) (size - 41)) (λ _. ⊥) }
{
    let mut at = from;
    for j in 0..follower_count(size) {
        let block = read_block(flash, at)?;
        // By its range: after `chunks_mut` a proof knows only how long the buffer is.
        let start = FIRST_SHARE as usize + FOLLOWING_SHARE as usize * j as usize;
        let part = &mut out[start..start + share(size, j) as usize];
        copy_bytes(&block, FOLLOWING_DATA as usize, part);
        at = block.chain();
    }
    Ok(())
}

// Copies the data of the sound record of a number whose first block is `first`.
fn copy_record<F: Flash>(
    store: &Store<F>,
    number: DataNumber,
    first: BlockNumber,
    size: u16,
    out: &mut [u8],
) -> Result<(), FlashFault>
    requires planned { (size ≡ size_in (sizes_of store.now.plan.now) number.0) × (size ≤ 1024) }
    requires room { size ≤ length out.old }
    requires sound { let s = F.model.meaning store.now.flash.now in sound s.count s.word (sizes_of store.now.plan.now) number.0 first.0 ≡ true }
    requires power { (F.model.meaning store.now.flash.now).power ≡ true }
    ensures { MatchResult result (λ _. out.new ≡ data_at (F.model.meaning store.now.flash.now).word (sizes_of store.now.plan.now) number.0 first.0 ++ drop size out.old) (λ _. ⊥) }
{
    let block = read_block(store.flash, first)?;
    let part = &mut out[..first_share_of(size) as usize];
    copy_bytes(&block, FIRST_DATA as usize, part);
    copy_following(store.flash, size, block.chain(), out)
}

/// Copies the data of the record of a number whose first block this is to the front of a buffer, the rest of which stays.
/// There is no value where the record is not sound.
pub fn copy_record_at<F: Flash>(
    store: &Store<F>,
    number: DataNumber,
    first: BlockNumber,
    out: &mut [u8],
) -> Result<(), CopyFault>
    ensures { let s = F.model.meaning store.now.flash.now in CopiesData F.model.kind s (recorded s.count s.word (sizes_of store.now.plan.now) number.0 first.0) (size_in (sizes_of store.now.plan.now) number.0) out.old result out.new }
{
    if !store.is_sound(number, first)? {
        return Err(CopyFault::NoValue);
    }
    let Some(size) = store.plan.size(number) else {
        return Err(CopyFault::NoValue);
    };
    if out.len() < size as usize {
        return Err(CopyFault::TooShort);
    }
    copy_record(store, number, first, size, out)?;
    Ok(())
}

/// Copies the value of a data number to the front of a buffer, the rest of which stays.
pub fn copy_value<F: Flash>(
    store: &Store<F>,
    number: DataNumber,
    out: &mut [u8],
) -> Result<(), CopyFault>
    ensures { Copies F.model.kind (F.model.meaning store.now.flash.now) (sizes_of store.now.plan.now) number.0 out.old result out.new }
{
    let Some(head) = store.current(number)? else {
        return Err(CopyFault::NoValue);
    };
    copy_record_at(store, number, head.block, out)
}
