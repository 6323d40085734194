//! From the bytes of a file to its image.

ghost use Rattle.std.specs.Prelude.{◌≡◌, ◌≢◌, ◌≤◌, true, false, Some, length, IfOk, IfErr};
ghost use Rattle.std.specs.List.{list_any};
ghost use Rattle.tc_elf.specs.Elf.{content, is_range, range_of, ranges_of};
ghost use Rattle.tc_elf.specs.Refusals.{is_bad_load};
ghost use Rattle.tc_elf.specs.Loading.{image_of, refusal, subset, Loads};
ghost use Rattle.tc_elf.specs.declared.refusal.Refusal.TheVariants.{OutOfMemory};
ghost use Rattle.tc_elf.specs.Kept.{IsImage};

use crate::checks::{layout_refusal, segment_refusal};
use crate::header::segments;
use crate::image::{Image, Range};
use crate::layout::Layout;
use crate::limits::MAX_FILE;
use crate::places::places;
use crate::refusal::Refusal;
use crate::segment::Segment;
use std::alloc::{AllocError, Global};

/// The range that a segment makes: its part of the file, and zeros up to its size in memory.
fn range_of(alloc: Global, bytes: &[u8], segment: &Segment) -> Result<Range, AllocError>
    requires fits { is_bad_load bytes.now segment.now ≡ false }
    requires range { is_range segment.now ≡ true }
    ensures { IfOk result (λ r. r ≡ range_of bytes.now segment.now) }
{
    let size = segment.memory_size as usize;
    let mut content = Vec::with_capacity(alloc, size)?;
    content.extend_from_slice(segment.part(bytes))?;
    content.resize(size, 0)?;
    Ok(Range {
        start: segment.address,
        length: segment.memory_size,
        writable: segment.is_writable(),
        executable: segment.is_executable(),
        bytes: content,
    })
}

/// The ranges that segments make.
fn ranges_of(alloc: Global, bytes: &[u8], segments: &[Segment]) -> Result<Vec<Range>, AllocError>
    requires { list_any (is_bad_load bytes.now) segments.now ≡ false }
    ensures { IfOk result (λ v. v.items ≡ ranges_of bytes.now segments.now) }
{
    let mut ranges = Vec::new(alloc);
    for segment in segments {
        if segment.is_range() {
            ranges.push(range_of(alloc, bytes, segment)?)?;
        }
    }
    Ok(ranges)
}

/// The ranges, the threads and the guards of a file, unless it is refused.
#[tactic(auto, using(crate::proofs::Images::few_segments), unfolding(crate::specs::Loading::refusal))]
fn parts(alloc: Global, bytes: &[u8]) -> Result<(Vec<Range>, Layout), Refusal>
    requires { length bytes.now ≤ MAX_FILE }
    ensures loaded { IfOk result (λ p. subset bytes.now (image_of p.0.items p.1)) }
    ensures refused { IfErr result (λ e. e ≢ OutOfMemory → refusal bytes.now ≡ Some e) }
{
    let segments = segments(alloc, bytes)?;
    if let Some(refusal) = segment_refusal(bytes, &segments) {
        return Err(refusal);
    }
    let layout = Layout::of(alloc, bytes, &segments)?;
    let ranges = ranges_of(alloc, bytes, &segments)?;
    if let Some(refusal) = layout_refusal(&ranges, &layout) {
        return Err(refusal);
    }
    Ok((ranges, layout))
}

/// The image of a file, or the first reason to refuse it, in the order of `Refusal`.
pub fn load(alloc: Global, bytes: &[u8]) -> Result<Image, Refusal>
    requires { length bytes.now ≤ MAX_FILE }
    ensures answers { Loads bytes.now result }
    ensures kept { IfOk result (λ image. IsImage image) }
{
    let (ranges, layout) = parts(alloc, bytes)?;
    let mut image = Image {
        ranges,
        entries: layout.entries,
        guards: layout.guards,
        places: Vec::new(alloc),
    };
    image.places = places(alloc, &image)?;
    Ok(image)
}
