//! From a text to an image.

ghost use Rattle.std.specs.Prelude.{◌≡◌, ◌≢◌, ◌==◌, ◌<◌, ℕ, List, All, map, IfOk, IfErr, Ok, Err};
ghost use Rattle.rv_asm.specs.Listing.{image_at, image_of, listing_of};
ghost use Rattle.rv_syntax.specs.Text.{texts};
ghost use Rattle.elf_image.specs.Images.{IsLaidOut};
ghost use Rattle.elf_image.specs.declared.image.Image.{Image};
ghost use Rattle.rv_asm.specs.declared.fault.AsmKind.TheVariants.{Memory};

use crate::code::find_address;
use crate::fault::{AsmFault, AsmKind};
use crate::listing::{START, emit, place};
use containers::Bytes;
use elf_image::{Image, Rights, Segment, Segments};
use rv_syntax::pieces;
use std::alloc::{AllocError, Global};

/// Want of memory outside of all lines.
const OUT_OF_MEMORY: AsmFault = AsmFault {
    line: 0,
    kind: AsmKind::Memory,
};

fn image_with(alloc: Global, entry: u64, bytes: Vec<u8>) -> Result<Image, AllocError>
    ensures { IfOk result (λ image. image ≡ image_at entry bytes.items) }
{
    let mut segments = Vec::new(alloc);
    let size = bytes.len() as u64;
    let rights = Rights {
        read: true,
        write: true,
        execute: true,
    };
    segments.push(Segment {
        address: START,
        size,
        rights,
        bytes: Bytes::from_vec(bytes),
    })?;
    Ok(Image {
        entry,
        segments: Segments::from_vec(segments),
    })
}

fn from_lines(alloc: Global, lines: &[&[u8]]) -> Result<Image, AsmFault>
    ensures image { IfOk result (λ image. image_of (texts lines.now) ≡ Ok image) }
    ensures fault { IfErr result (λ fault. fault.kind ≢ Memory → image_of (texts lines.now) ≡ Err fault) }
{
    let labels = match place(alloc, lines) {
        Ok(labels) => labels,
        Err(fault) => return Err(fault),
    };
    let bytes = match emit(alloc, lines, &labels) {
        Ok(bytes) => bytes,
        Err(fault) => return Err(fault),
    };
    let entry = find_address(&labels, b"_start").unwrap_or(START);
    match image_with(alloc, entry, bytes) {
        Ok(image) => Ok(image),
        Err(_) => Err(OUT_OF_MEMORY),
    }
}

/// The image of a listing, or its first faulty line and what is wrong with it.
#[tactic(auto, unfolding(crate::specs::Listing::listing_of))]
pub fn assemble(alloc: Global, text: &str) -> Result<Image, AsmFault>
    ensures image { IfOk result (λ image. listing_of text.now ≡ Ok image) }
    ensures fault { IfErr result (λ fault. fault.kind ≢ Memory → listing_of text.now ≡ Err fault) }
{
    match pieces(alloc, text.as_bytes(), b'\n') {
        Ok(lines) => from_lines(alloc, lines.as_slice()),
        Err(_) => Err(OUT_OF_MEMORY),
    }
}

/// An image that has bytes is laid out, so that the file which `elf_image::write` makes of it is read
/// as that image.
pub fn listings_are_laid_out()
    ensures { (text : List ℕ) (image : Image) → listing_of text ≡ Ok image → All (λ s. 0 < s.size) image.segments
        → IsLaidOut image }
{}
