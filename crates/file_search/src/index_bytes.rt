//! An index in bytes: which pieces of it a filter needs, and the plan by these.

ghost use Rattle.std.specs.Prelude.{◌≡◌, IfErr, IfOk, map};
ghost use Rattle.file_search.specs.Words.{AreBlocksFor, AreFarBlocks, AreNamedBlocks};
ghost use Rattle.file_search.specs.Words.{IsPlanFor, IsRead, IsSought, NoBlocksFor, NoPlanFor};
ghost use Rattle.file_search.specs.Words.{NotRead, NothingIn, block_value, error_of_blocks};
ghost use Rattle.file_search.specs.Words.{error_of_ranges, formula, root_value};

use crate::planning::{Plan, plan_search};
use crate::sought::{Sought, SoughtError};
use std::alloc::{AllocError, Global};
use zone_index::{Block, EncodingError, ReadError, Root, read_root};
use zone_scans::{ByteRange, Purpose, RangeError, block_ranges, read_wanted};

/// Why there is no plan.
#[derive(Clone, Copy, Debug, PartialEq, Eq)]
pub enum PlanError {
    /// No memory was left.
    NoMemory,
    /// These bytes do not begin with the root of an index.
    BadRoot(EncodingError),
    /// These bytes are not the blocks of the index.
    BadBlocks(EncodingError),
    /// Nothing is sought by the words.
    Unsought(SoughtError),
    /// The zone at this place ends past all that 64 bits can tell.
    FarZone(usize),
}

impl From<AllocError> for PlanError {
    ghost use Rattle.file_search.specs.declared.index_bytes.PlanError.TheVariants.{NoMemory};

    ghost from_gives = { λ _ e. e ≡ NoMemory };

    fn from(_error: AllocError) -> PlanError {
        PlanError::NoMemory
    }
}

/// The root that bytes begin with, and where the first block begins.
pub fn read_index_root(alloc: Global, bytes: &[u8]) -> Result<(Root, u64), PlanError>
    ensures read { IfOk result (λ read. IsRead bytes.now (root_value read.0) read.1) }
    ensures refused { IfErr result (NotRead bytes.now) }
{
    match read_root(alloc, bytes) {
        Ok((root, rest)) => Ok((root, (bytes.len() - rest.len()) as u64)),
        Err(ReadError::Memory) => Err(PlanError::NoMemory),
        Err(ReadError::Fault(fault)) => Err(PlanError::BadRoot(fault)),
    }
}

/// Which pieces of an index the words of a filter need, beside the root: the blocks of the columns that
/// they name.
pub fn blocks_to_read(
    alloc: Global,
    root: &[u8],
    words: &[u8],
    depth: usize,
) -> Result<Vec<ByteRange>, PlanError>
    ensures blocks { IfOk result (λ ranges. AreBlocksFor depth root.now words.now ranges.items) }
    ensures refused { IfErr result (NoBlocksFor depth root.now words.now) }
{
    let (root, start) = read_index_root(alloc, root)?;
    let sought = sought_in(alloc, &root, words, depth)?;
    named_blocks(alloc, &root.blocks, start, &sought)
}

/// Which of these blocks are of the columns that what is sought names. The first one begins at `start`.
fn named_blocks(
    alloc: Global,
    blocks: &[Block],
    start: u64,
    sought: &Sought,
) -> Result<Vec<ByteRange>, PlanError>
    ensures blocks { IfOk result (λ ranges. AreNamedBlocks (map block_value blocks.now) start
        sought.now.schema (formula sought.now.filter) ranges.items) }
    ensures refused { IfErr result (AreFarBlocks (map block_value blocks.now) start) }
{
    let named = sought.named_columns(alloc)?;
    match block_ranges(alloc, blocks, start, &named) {
        Ok(ranges) => Ok(ranges),
        Err(error) => Err(bad_blocks(error)),
    }
}

/// What becomes of each zone of an index in a search, and what is to be read of the file. The blocks are the
/// bytes of the pieces that `blocks_to_read` gives for the same words, one behind another.
pub fn plan_by_bytes(
    alloc: Global,
    root: &[u8],
    blocks: &[u8],
    words: &[u8],
    depth: usize,
    purpose: Purpose,
) -> Result<Plan, PlanError>
    ensures plan { IfOk result (IsPlanFor depth root.now blocks.now words.now purpose) }
    ensures refused { IfErr result (NoPlanFor depth root.now blocks.now words.now purpose) }
{
    let (root, _) = read_index_root(alloc, root)?;
    let sought = sought_in(alloc, &root, words, depth)?;
    let named = sought.named_columns(alloc)?;
    let index = match read_wanted(root, blocks, &named) {
        Ok(index) => index,
        Err(error) => return Err(bad_blocks(error)),
    };
    match plan_search(alloc, &sought, &index.zones, purpose) {
        Ok(plan) => Ok(plan),
        Err(error) => Err(far_zone(error)),
    }
}

/// The error of blocks that are not read.
fn bad_blocks(error: ReadError) -> PlanError
    ensures { result ≡ error_of_blocks error }
{
    match error {
        ReadError::Memory => PlanError::NoMemory,
        ReadError::Fault(fault) => PlanError::BadBlocks(fault),
    }
}

/// The error of zones that are not planned.
fn far_zone(error: RangeError) -> PlanError
    ensures { result ≡ error_of_ranges error }
{
    match error {
        RangeError::Memory => PlanError::NoMemory,
        RangeError::TooFar { zone } => PlanError::FarZone(zone),
    }
}

/// What is sought by words in the file of an index.
fn sought_in(alloc: Global, root: &Root, words: &[u8], depth: usize) -> Result<Sought, PlanError>
    ensures sought { IfOk result (λ sought. IsSought depth root.now.index.setup.items words.now
        sought.schema (formula sought.filter)) }
    ensures refused { IfErr result (NothingIn depth root.now.index.setup.items words.now) }
{
    match Sought::from_bytes(alloc, &root.index.setup, words, depth) {
        Ok(sought) => Ok(sought),
        Err(SoughtError::NoMemory) => Err(PlanError::NoMemory),
        Err(cause) => Err(PlanError::Unsought(cause)),
    }
}
